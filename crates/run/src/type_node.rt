ghost use Rattle.std.specs.Prelude.{◌≡◌};
ghost use Rattle.model.specs.Layouts.{types, type_node, type_mark, type_kept};

use crate::language::{Language, keeps_name};
use model::kind::{ExtensionKind, TypeKind};
use model::limits;
use model::node::Node;
use model::slot::Slot;

// The nodes of a type.
pub(crate) struct Types;

impl Language for Types {
    ghost layout = { types };

    fn takes(slot: Slot, node: Node) -> bool {
        let is_record = node.kind == u32::from(TypeKind::ClosedRecord)
            || node.kind == u32::from(TypeKind::OpenRecord);
        slot.fills(is_record, false, node) && is_type(node) && has_number(slot, node)
    }

    fn keeps(slot: Slot, node: Node) -> bool {
        keeps_name(slot, node) && keeps_limits(node)
    }

    #[tactic(auto, using(crate::proofs::Unknown::no_type))]
    fn arity(node: Node) -> u32 {
        match TypeKind::try_from(node.kind) {
            Ok(TypeKind::Set) => 1,
            Ok(TypeKind::ClosedRecord | TypeKind::OpenRecord) => node.a,
            _ => 0,
        }
    }

    fn inside(node: Node) -> Slot {
        if node.kind == u32::from(TypeKind::Set) {
            Slot::Plain
        } else {
            Slot::Named(None)
        }
    }
}

// A node of a type uses `a` for the name of an entity type, the code of an extension or the count of fields, and never `b`.
#[tactic(auto, using(crate::proofs::Unknown::no_type, crate::proofs::Unknown::no_extension))]
fn is_type(node: Node) -> bool
    ensures { result ≡ type_node node }
{
    node.b == 0
        && match TypeKind::try_from(node.kind) {
            Ok(TypeKind::Entity | TypeKind::ClosedRecord | TypeKind::OpenRecord) => true,
            // 0 for an extension that is not known
            Ok(TypeKind::Extension) => node.a == 0 || ExtensionKind::try_from(node.a).is_ok(),
            Ok(_) => node.a == 0,
            Err(_) => false,
        }
}

// The part `number` of a node of a type: a record field says by 1 or 0 whether it is required, any other node has 0.
fn has_number(slot: Slot, node: Node) -> bool
    ensures { result ≡ type_mark slot node }
{
    match slot {
        Slot::Named(_) => (0..2).contains(&node.number),
        _ => node.number == 0,
    }
}

// The name or count of a node of a type keeps the limits.
#[tactic(auto, using(crate::proofs::Unknown::no_type))]
fn keeps_limits(node: Node) -> bool
    ensures { result ≡ type_kept node }
{
    match TypeKind::try_from(node.kind) {
        Ok(TypeKind::Entity) => node.a < limits::NAMES,
        Ok(TypeKind::ClosedRecord | TypeKind::OpenRecord) => node.a <= limits::RECORD_FIELDS,
        _ => true,
    }
}
