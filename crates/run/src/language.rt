ghost use Rattle.std.specs.Prelude.{◌≡◌};
ghost use Rattle.model.specs.Layouts.{Layout, name_kept};

use model::limits;
use model::node::Node;
use model::slot::Slot;

// What a run is made of: which nodes a slot takes, which of these keep the limits, and their children.
pub(crate) trait Language {
    // The layout that the functions compute.
    ghost layout: { Layout };

    // Whether a node may stand in a slot.
    fn takes(slot: Slot, node: Node) -> bool
        ensures { result ≡ layout.takes slot node };

    // Whether a node that may stand in a slot keeps the limits.
    fn keeps(slot: Slot, node: Node) -> bool
        ensures { result ≡ layout.keeps slot node };

    // How many children a node announces.
    fn arity(node: Node) -> u32
        ensures { result ≡ layout.arity node };

    // The slot of the first child of a node.
    fn inside(node: Node) -> Slot
        ensures { result ≡ layout.inside node };
}

// The name of a record field or a tag keeps the limit.
pub(crate) fn keeps_name(slot: Slot, node: Node) -> bool
    ensures { result ≡ name_kept slot node }
{
    match slot {
        Slot::Named(_) => node.field < limits::NAMES,
        _ => true,
    }
}
