ghost use Rattle.std.specs.Prelude.{◌≡◌};
ghost use Rattle.model.specs.Layouts.{values, extension_node, value_node, value_kept};

use crate::language::{Language, keeps_name};
use model::kind::{ExtensionKind, ValueKind};
use model::limits;
use model::node::Node;
use model::slot::Slot;

// The nodes of a value.
pub(crate) struct Values;

impl Language for Values {
    ghost layout = { values };

    fn takes(slot: Slot, node: Node) -> bool {
        let is_record = node.kind == u32::from(ValueKind::Record);
        let is_uid = node.kind == u32::from(ValueKind::Uid);
        slot.fills(is_record, is_uid, node) && is_value(node)
    }

    fn keeps(slot: Slot, node: Node) -> bool {
        keeps_name(slot, node) && keeps_limits(node)
    }

    // Two comparisons: a `match` on the kind leaves a branch at each node that is walked over.
    fn arity(node: Node) -> u32 {
        let is_set = node.kind == u32::from(ValueKind::Set);
        let is_record = node.kind == u32::from(ValueKind::Record);
        if is_set || is_record { node.a } else { 0 }
    }

    fn inside(node: Node) -> Slot {
        if node.kind == u32::from(ValueKind::Record) {
            Slot::Named(None)
        } else {
            Slot::Plain
        }
    }
}

// An extension value; only an address uses `b`, for its prefix.
#[tactic(auto, using(crate::proofs::Unknown::no_extension))]
fn is_extension(node: Node) -> bool
    ensures { result ≡ extension_node node }
{
    match ExtensionKind::try_from(node.a) {
        Ok(ExtensionKind::Ipaddr) => node.b <= 32 && (0..0x1_0000_0000).contains(&node.number),
        Ok(_) => node.b == 0,
        Err(_) => false,
    }
}

// The parts that a node of a value uses are in their range, and the others 0.
#[tactic(auto, using(crate::proofs::Unknown::no_value_node))]
fn is_value(node: Node) -> bool
    ensures { result ≡ value_node node }
{
    match ValueKind::try_from(node.kind) {
        Ok(ValueKind::Bool) => node.a == 0 && node.b == 0 && (0..2).contains(&node.number),
        Ok(ValueKind::Long) => node.a == 0 && node.b == 0,
        Ok(ValueKind::String | ValueKind::Set | ValueKind::Record) => node.b == 0
            && node.number == 0,
        Ok(ValueKind::Uid) => node.number == 0,
        Ok(ValueKind::Extension) => is_extension(node),
        Err(_) => false,
    }
}

// The names and counts of a node of a value keep the limits.
#[tactic(auto, using(crate::proofs::Unknown::no_value))]
fn keeps_limits(node: Node) -> bool
    ensures { result ≡ value_kept node }
{
    match ValueKind::try_from(node.kind) {
        Ok(ValueKind::String) => node.a < limits::NAMES,
        Ok(ValueKind::Uid) => node.a < limits::NAMES && node.b < limits::NAMES,
        Ok(ValueKind::Set) => node.a <= limits::SET_ELEMENTS,
        Ok(ValueKind::Record) => node.a <= limits::RECORD_FIELDS,
        _ => true,
    }
}
