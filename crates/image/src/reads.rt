// What an image answers, over its bytes.
ghost use Rattle.std.specs.Prelude.{◌≡◌, ◌+◌, ◌-◌, ◌<◌, ◌≤◌, map, length, IfOk, IfErr};
ghost use Rattle.std.specs.List.{range_with_len};
ghost use Rattle.model.specs.Stores.{no_such_place, uid_answer, load_answer};
ghost use Rattle.model.specs.Images.{entity_count, node_count, node_offset, image_node, image_entities};
ghost use Rattle.image.specs.Faultless.{Faultless, end_node, RunOf};

use crate::frame::Header;
use crate::image::Image;
use crate::layout::Layout;
use model::fault::{Fault, Layer, Refusal};
use model::node::{Node, Uid};
use std::ops::Range;

// The bytes of an image, of which no fault was found. It reads runs as a table of nodes does, and apart from it: a table lends
// a run as a slice, here each node is made from its bytes.
#[derive(Clone, Copy)]
pub(crate) struct Reader<'i> {
    pub(crate) layout: Layout<'i>,
    ghost sound: { Faultless layout.bytes.now },
    // the place list and the nodes are there, and nothing more
    ghost full: { length layout.bytes.now ≡ node_offset layout.header.entities layout.header.nodes },
}

impl Image {
    // What reads the image.
    pub(crate) fn reader(&self) -> Reader<'_>
        ensures { result.layout.bytes.now ≡ self.now.bytes.items }
    {
        Reader {
            layout: Layout::new(self.bytes.as_slice()),
        }
    }
}

impl Reader<'_> {
    // How many entities there are.
    #[tactic(auto, using(crate::proofs::ImageFacts::count_is))]
    pub(crate) fn count(&self) -> usize
        ensures { result ≡ length (image_entities self.now.layout.bytes.now) }
    {
        self.layout.header.entities as usize
    }

    // The index of the node behind the run `k`: where the next begins, or the end of the nodes.
    fn end(&self, k: u32) -> u32
        requires { k < entity_count self.now.layout.bytes.now }
        ensures { result ≡ end_node self.now.layout.bytes.now k }
    {
        let Header { entities, nodes } = self.layout.header;
        if k + 1 < entities {
            self.layout.first(k + 1)
        } else {
            nodes
        }
    }

    // The indexes of the nodes of the run at a place, where there is such a place.
    fn run(&self, place: usize) -> Result<Range<u32>, Fault>
        ensures ok { IfOk result (λ run. RunOf self.now.layout.bytes.now place run.start run.end) }
        ensures err { IfErr result (λ fault. (entity_count self.now.layout.bytes.now ≤ place) × (fault ≡ no_such_place)) }
    {
        if place >= self.layout.header.entities as usize {
            return Err(Fault::whole_call(Refusal::NotStored, Layer::Entity));
        }
        let k = place as u32;
        Ok(self.layout.first(k)..self.end(k))
    }

    // The uid of the entity at a place.
    pub(crate) fn uid(&self, place: usize) -> Result<Uid, Fault>
        ensures { result ≡ uid_answer (image_entities self.now.layout.bytes.now) place }
    {
        let run = self.run(place)?;
        Ok(self.layout.node(run.start).uid())
    }

    // The nodes of these indexes, for which there is exactly room. (Of what a loop over `iter_mut().zip(run)` writes, nothing
    // is known.)
    fn copy(&self, run: Range<u32>, room: &mut [Node])
        requires { (run.end ≤ node_count self.now.layout.bytes.now) × (run.start + length room.old ≡ run.end) }
        ensures { room.new ≡ map (image_node self.now.layout.bytes.now) (range_with_len run.start (run.end - run.start)) }
    {
        for (i, node) in room.iter_mut().enumerate() {
            *node = self.layout.node(run.start + i as u32);
        }
    }

    // Writes the run of the entity at a place to the front of the buffer; its length.
    pub(crate) fn load(&self, place: usize, buffer: &mut [Node]) -> Result<usize, Fault>
        ensures answer { result ≡ (load_answer (image_entities self.now.layout.bytes.now) place buffer.old).0 }
        ensures written { buffer.new ≡ (load_answer (image_entities self.now.layout.bytes.now) place buffer.old).1 }
    {
        let run = self.run(place)?;
        let length = (run.end - run.start) as usize;
        if buffer.len() < length {
            return Err(Fault::whole_call(Refusal::Limit, Layer::Entity));
        }
        self.copy(run, &mut buffer[..length]);
        Ok(length)
    }
}
