ghost use Rattle.std.specs.Prelude.{◌≡◌};
ghost use Rattle.model.specs.Nodes.{plain, under};

// A name, by the number that the host gave it. Names are numbered in byte order from 0, the empty name.
pub type Name = u32;

// A type name and an id name.
pub type Uid = (Name, Name);

// One node of a run. A run lists a node and then its children in turn; what a kind does not use is 0. A host hands nodes in
// as C records of 24 bytes, in which any number may stand as the kind: so it is a number here.
#[repr(C)]
#[derive(Clone, Copy, PartialEq, Eq)]
pub struct Node {
    pub kind: u32,
    // the name of a record field or the key of a tag; 0 on every other node but an entity's first
    pub field: u32,
    pub a: u32,
    pub b: u32,
    pub number: i64,
}

impl Node {
    // A node that is neither a record field nor a tag.
    pub fn new(kind: u32, a: u32, b: u32, number: i64) -> Node
        ensures { result ≡ plain kind a b number }
    {
        Node {
            kind,
            field: 0,
            a,
            b,
            number,
        }
    }

    // The uid that a node names whose kind has one.
    pub fn uid(self) -> Uid
        ensures { result ≡ (self.a, self.b) }
    {
        let Node { a, b, .. } = self;
        (a, b)
    }

    // The same node as a record field or a tag of this name.
    pub fn with_field(self, field: Name) -> Node
        ensures { result ≡ under field self }
    {
        Node { field, ..self }
    }
}
