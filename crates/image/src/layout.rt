// The layout of an image: its bytes, by the header that they begin with.
ghost use Rattle.std.specs.Prelude.{◌≡◌, ◌+◌, ◌≤◌, [], ◌∷◌, length, IfOk, IfErr, Err};
ghost use Rattle.model.specs.Checks.{then, in_turn};
ghost use Rattle.model.specs.Images.{entity_count, node_count, entry_offset, first_node, node_offset, image_node, header as header_of, entry as entry_of, place_list, node_there, nodes_there, ends, counts};
ghost use Rattle.image.specs.Headers.{announced};
ghost use Rattle.image.specs.Opens.{ListWhole};

use crate::bytes::{node_at, read_node, u32_at};
use crate::frame::{Header, field, require};
use model::fault::{Fault, Layer, Refusal};
use model::limits;
use model::node::Node;

// The bytes of an image, with the header that they begin with: what it announces need not be there.
#[derive(Clone, Copy)]
pub(crate) struct Layout<'b> {
    pub(crate) bytes: &'b [u8],
    pub(crate) header: Header,
    ghost announced: { header ≡ announced bytes.now },
}

impl<'b> Layout<'b> {
    // The bytes with what their header announces, where it is known to be there.
    pub(crate) fn new(bytes: &'b [u8]) -> Layout<'b>
        requires { 8 ≤ length bytes.now }
        ensures { result.bytes.now ≡ bytes.now }
    {
        let header = Header {
            entities: u32_at(bytes, 0),
            nodes: u32_at(bytes, 4),
        };
        Layout { bytes, header }
    }

    // The entry `k` of the place list, whose bytes are there.
    pub(crate) fn first(&self, k: u32) -> u32
        requires { entry_offset k + 4 ≤ length self.now.bytes.now }
        ensures { result ≡ first_node self.now.bytes.now k }
    {
        u32_at(self.bytes, self.header.entry_offset(k))
    }

    // The node `j`, whose bytes are there.
    pub(crate) fn node(&self, j: u32) -> Node
        requires { node_offset self.now.header.entities j + 24 ≤ length self.now.bytes.now }
        ensures { result ≡ image_node self.now.bytes.now j }
    {
        node_at(self.bytes, self.header.node_offset(j))
    }

    // The entry `k` of the place list: 0 at first and then above the one before, and below the number of nodes.
    fn check_entry(&self, k: u32) -> Result<(), Fault>
        ensures { result ≡ entry_of self.now.bytes.now self.now.header.nodes k }
    {
        let offset = self.header.entry_offset(k);
        let first = field(self.bytes, offset)?;
        let ascends = if k == 0 {
            first == 0
        } else {
            field(self.bytes, offset - 4)? < first
        };
        require(ascends, offset)?;
        require(first < self.header.nodes, offset)
    }

    // Every entry of the place list, in turn. As `try_for_each` the check found no proof of it, nor of the nodes below.
    fn check_place_list(&self) -> Result<(), Fault>
        ensures { result ≡ place_list self.now.bytes.now self.now.header.entities self.now.header.nodes }
    {
        for k in 0..self.header.entities {
            self.check_entry(k)?;
        }
        Ok(())
    }

    // The node `j` is there, and there is an entity that it can belong to.
    fn check_node(&self, j: u32) -> Result<(), Fault>
        ensures { result ≡ node_there self.now.bytes.now self.now.header.entities j }
    {
        let offset = self.header.node_offset(j);
        require(
            self.header.entities > 0 && read_node(self.bytes, offset).is_some(),
            offset,
        )
    }

    // Every node that is announced, in turn.
    pub(crate) fn check_nodes(&self) -> Result<(), Fault>
        ensures { result ≡ nodes_there self.now.bytes.now self.now.header.entities self.now.header.nodes }
    {
        for j in 0..self.header.nodes {
            self.check_node(j)?;
        }
        Ok(())
    }

    // Nothing follows the last node.
    pub(crate) fn check_end(&self) -> Result<(), Fault>
        ensures { result ≡ ends self.now.bytes.now self.now.header.entities self.now.header.nodes }
    {
        let end = self.header.node_offset(self.header.nodes);
        require(self.bytes.len() <= end, end)
    }

    // At most as many entities and nodes as a store may have.
    pub(crate) fn check_counts(&self) -> Result<(), Fault>
        ensures { result ≡ counts self.now.header.entities self.now.header.nodes }
    {
        if self.header.entities > limits::STORE_ENTITIES {
            return Err(Fault::at(Refusal::Limit, Layer::Image, 0));
        }
        if self.header.nodes > limits::STORE_NODES {
            return Err(Fault::at(Refusal::Limit, Layer::Image, 4));
        }
        Ok(())
    }

    // What follows the place list: the nodes, their end and the counts.
    pub(crate) fn check_rest(&self) -> Result<(), Fault>
        ensures { result ≡ in_turn (nodes_there self.now.bytes.now self.now.header.entities self.now.header.nodes ∷ ends self.now.bytes.now self.now.header.entities self.now.header.nodes ∷ counts self.now.header.entities self.now.header.nodes ∷ []) }
    {
        self.check_nodes()?;
        self.check_end()?;
        self.check_counts()
    }
}

// A layout whose header and place list are as they have to be.
#[derive(Clone, Copy)]
pub(crate) struct WholeList<'b> {
    pub(crate) layout: Layout<'b>,
    ghost whole: { ListWhole layout.bytes.now },
    // so all entries are there
    ghost there: { node_offset layout.header.entities 0 ≤ length layout.bytes.now },
}

impl<'b> WholeList<'b> {
    // The layout of these bytes, where nothing is broken up to the end of the place list.
    #[tactic(auto, using(crate::proofs::ListFacts::list_there))]
    pub(crate) fn read(bytes: &'b [u8]) -> Result<WholeList<'b>, Fault>
        ensures ok { IfOk result (λ list. list.layout.bytes.now ≡ bytes.now) }
        ensures err { IfErr result (λ fault. then (header_of bytes.now) (place_list bytes.now (entity_count bytes.now) (node_count bytes.now)) ≡ Err fault) }
    {
        let layout = Layout {
            bytes,
            header: Header::read(bytes)?,
        };
        layout.check_place_list()?;
        Ok(WholeList { layout })
    }
}
