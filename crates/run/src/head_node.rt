ghost use Rattle.std.specs.Prelude.{◌≡◌};
ghost use Rattle.model.specs.Entities.{heads};
ghost use Rattle.model.specs.Values.{magnitude};

use crate::language::Language;
use model::kind::ENTITY_KIND;
use model::limits;
use model::node::Node;
use model::slot::Slot;

// The first node of an entity's run, which is read by itself: what follows it are no children of it.
pub(crate) struct Heads;

impl Language for Heads {
    ghost layout = { heads };

    // A head does not announce a negative count of tags.
    fn takes(_slot: Slot, node: Node) -> bool {
        node.kind == ENTITY_KIND && node.number >= 0
    }

    // The uid and the counts keep the limits.
    fn keeps(_slot: Slot, node: Node) -> bool {
        node.a < limits::NAMES
            && node.b < limits::NAMES
            && node.field <= limits::ANCESTORS
            && tags_of(node) <= limits::TAGS.unsigned_abs()
    }

    fn arity(_node: Node) -> u32 {
        0
    }

    fn inside(_node: Node) -> Slot {
        Slot::Plain
    }
}

// How many tags an entity's first node announces.
pub(crate) fn tags_of(node: Node) -> u64
    ensures { result ≡ magnitude node.number }
{
    node.number.unsigned_abs()
}
