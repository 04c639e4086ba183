// Everything that has to hold of the bytes of an image.
ghost use Rattle.std.specs.Prelude.{◌≡◌, ◌<◌, ◌≤◌, length, IfOk, OnOk, IfErr, None};
ghost use Rattle.model.specs.Faults.{least_with};
ghost use Rattle.model.specs.Images.{node_offset, fault_of, nodes_there, ends, counts, image_nodes, place_entries, whole_nodes, image_fault, image_entities};
ghost use Rattle.image.specs.Opens.{BytesOf, ForReason};

use crate::error::ImageError;
use crate::layout::{Layout, WholeList};
use model::fault::Fault;
use model::node::Node;
use std::alloc::{AllocError, Global};
use store::runs::Runs;

impl Layout<'_> {
    // The least fault of the nodes, their end and the counts.
    fn least_fault(&self) -> Option<Fault>
        ensures { result ≡ least_with (least_with (least_with None (fault_of (nodes_there self.now.bytes.now self.now.header.entities self.now.header.nodes))) (fault_of (ends self.now.bytes.now self.now.header.entities self.now.header.nodes))) (fault_of (counts self.now.header.entities self.now.header.nodes)) }
    {
        let least = Fault::keep_checked(None, self.check_nodes());
        let least = Fault::keep_checked(least, self.check_end());
        Fault::keep_checked(least, self.check_counts())
    }

    // How many of the announced nodes are wholly there.
    fn whole_nodes(&self) -> u32
        ensures is { result ≡ whole_nodes self.now.bytes.now }
        ensures there { 0 < result → node_offset self.now.header.entities result ≤ length self.now.bytes.now }
    {
        let there = self.bytes.len().saturating_sub(self.header.node_offset(0)) / 24;
        there.min(self.header.nodes as usize) as u32
    }

    // The nodes that are wholly there.
    fn nodes(&self, heap: Global) -> Result<Vec<Node>, AllocError>
        ensures { IfOk result (λ v. v.items ≡ image_nodes self.now.bytes.now) }
    {
        (0..self.whole_nodes()).map(|j| self.node(j)).collect(heap)
    }
}

impl WholeList<'_> {
    // The entries of the place list.
    fn entries(&self, heap: Global) -> Result<Vec<usize>, AllocError>
        ensures { IfOk result (λ v. v.items ≡ place_entries self.now.layout.bytes.now) }
    {
        (0..self.layout.header.entities)
            .map(|k| self.layout.first(k) as usize)
            .collect(heap)
    }

    // Behind a whole place list the least fault stands: of the nodes, the end, the counts and the runs. It takes the list by
    // value, since behind a `&` the range of the header's numbers would not be known.
    fn check(self, heap: Global) -> Result<(), ImageError>
        ensures ok { OnOk result (image_fault self.entry.layout.bytes.now ≡ None) }
        ensures err { IfErr result (λ error. ForReason error self.entry.layout.bytes.now) }
    {
        let layout = self.layout;
        let header = layout.header;
        let firsts = self.entries(heap)?;
        let nodes = layout.nodes(heap)?;
        let least = layout.least_fault();
        let runs = Runs {
            nodes: nodes.as_slice(),
            firsts: firsts.as_slice(),
        };
        match runs.keep_faults(&header, least) {
            None => Ok(()),
            Some(fault) => Err(ImageError::Fault(fault)),
        }
    }
}

// What opening an image refuses: a broken header or place list stands alone, else the least fault.
#[tactic(auto, using(crate::proofs::ListFacts::list_fault))]
pub(crate) fn check_image(heap: Global, bytes: &[u8]) -> Result<(), ImageError>
    ensures ok { OnOk result ((image_fault bytes.now ≡ None) × BytesOf bytes.now (image_entities bytes.now)) }
    ensures err { IfErr result (λ error. ForReason error bytes.now) }
{
    match WholeList::read(bytes) {
        Ok(list) => list.check(heap),
        Err(fault) => Err(ImageError::Fault(fault)),
    }
}
