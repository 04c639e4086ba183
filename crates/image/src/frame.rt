ghost use Rattle.std.specs.Prelude.{◌≡◌};
ghost use Rattle.model.specs.Bytes.{within, u32_at, node_at, read};
ghost use Rattle.model.specs.Checks.{after};
ghost use Rattle.model.specs.Faults.{placed};
ghost use Rattle.model.specs.Images.{laid_out, header as header_of, entry_offset, first_node, numbered, node_offset, frame as frame_of};
ghost use Rattle.image.specs.Headers.{announced};

use crate::bytes::{read_node, read_u32};
use crate::layout::WholeList;
use model::fault::{Fault, Layer, Refusal};
use model::node::Node;

// What the header of an image announces.
#[derive(Clone, Copy)]
pub struct Header {
    pub entities: u32,
    pub nodes: u32,
}

// The fault of a layout that is broken at an offset.
fn malformed(offset: usize) -> Fault
    ensures { result ≡ placed Refusal.Malformed Layer.Image offset }
{
    Fault::at(Refusal::Malformed, Layer::Image, offset)
}

// What must hold at an offset, else the layout is broken there.
pub(crate) fn require(holds: bool, offset: usize) -> Result<(), Fault>
    ensures { result ≡ laid_out holds offset }
{
    if holds {
        Ok(())
    } else {
        Err(malformed(offset))
    }
}

// The u32 of a header field or list entry, which has to be there.
pub(crate) fn field(bytes: &[u8], offset: usize) -> Result<u32, Fault>
    ensures { result ≡ after (laid_out (within bytes.now offset 4) offset) (u32_at bytes.now offset) }
{
    read_u32(bytes, offset).ok_or(malformed(offset))
}

impl Header {
    // The header of an image, where its four fields are as they have to be.
    pub fn read(bytes: &[u8]) -> Result<Header, Fault>
        ensures { result ≡ after (header_of bytes.now) (announced bytes.now) }
    {
        let entities = field(bytes, 0)?;
        let nodes = field(bytes, 4)?;
        require(field(bytes, 8)? == 16, 8)?;
        let header = Header { entities, nodes };
        require(field(bytes, 12)? as usize == header.node_offset(0), 12)?;
        Ok(header)
    }

    // Where the entry `k` of the place list stands.
    pub fn entry_offset(self, k: u32) -> usize
        ensures { result ≡ entry_offset k }
    {
        16 + k as usize * 4
    }

    // Where the node `j` stands.
    pub fn node_offset(self, j: u32) -> usize
        ensures { result ≡ node_offset self.entities j }
    {
        16 + self.entities as usize * 4 + j as usize * 24
    }

    // The place list's entry for the entity `k`, where there is such an entity and the entry's bytes are there.
    pub fn first_node(self, bytes: &[u8], k: u32) -> Option<u32>
        ensures { result ≡ numbered k self.entities (read bytes.now (entry_offset k) 4 (first_node bytes.now k)) }
    {
        if k < self.entities {
            read_u32(bytes, self.entry_offset(k))
        } else {
            None
        }
    }

    // The node `j`, where there is such a node and its bytes are there.
    pub fn node(self, bytes: &[u8], j: u32) -> Option<Node>
        ensures { result ≡ numbered j self.nodes (read bytes.now (node_offset self.entities j) 24 (node_at bytes.now (node_offset self.entities j))) }
    {
        if j < self.nodes {
            read_node(bytes, self.node_offset(j))
        } else {
            None
        }
    }
}

// The header of an image whose frame is whole: header, place list and nodes are there, nothing more, and within the limits.
pub fn check_frame(bytes: &[u8]) -> Result<Header, Fault>
    ensures { result ≡ after (frame_of bytes.now) (announced bytes.now) }
{
    let WholeList { layout } = WholeList::read(bytes)?;
    layout.check_rest()?;
    Ok(layout.header)
}
