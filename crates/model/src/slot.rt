ghost use Rattle.std.specs.Prelude.{◌≡◌};
ghost use Rattle.model.specs.Slots.{fills as fills_of, next as next_of, uid_follows};

use crate::node::{Name, Node, Uid};

// What the next node of a run has to be: which nodes may stand there, apart from what their kind asks of them.
#[derive(Clone, Copy)]
pub enum Slot {
    // neither a record field nor a tag
    Plain,
    // a record field or a tag, whose name is above that of the one before it
    Named(Option<Name>),
    // a record that is no field: attributes or a context
    ARecord,
    // a uid that is no field
    AUid,
    // an ancestor, whose uid is above that of the one before it
    Ancestor(Option<Uid>),
}

fn uid_follows(before: Option<Uid>, uid: Uid) -> bool
    ensures { result ≡ uid_follows before uid }
{
    before.is_none_or(|u| u < uid)
}

impl Slot {
    // Whether a node may fill the slot, where `is_record` and `is_uid` say what its kind is: values and types number their
    // kinds apart, and an enum of record, uid and neither would be made by two tests and taken apart by the same two.
    pub fn fills(self, is_record: bool, is_uid: bool, node: Node) -> bool
        ensures { result ≡ fills_of self is_record is_uid node }
    {
        match self {
            Slot::Plain => node.field == 0,
            Slot::Named(before) => before.is_none_or(|name| name < node.field),
            Slot::ARecord => node.field == 0 && is_record,
            Slot::AUid => node.field == 0 && is_uid,
            Slot::Ancestor(before) => node.field == 0 && is_uid && uid_follows(before, node.uid()),
        }
    }

    // The slot of the next sibling of a node.
    pub fn next(self, node: Node) -> Slot
        ensures { result ≡ next_of self node }
    {
        match self {
            Slot::Plain => Slot::Plain,
            Slot::Named(_) => Slot::Named(Some(node.field)),
            Slot::ARecord => Slot::ARecord,
            Slot::AUid => Slot::AUid,
            Slot::Ancestor(_) => Slot::Ancestor(Some(node.uid())),
        }
    }
}
