// The place list and the nodes of an image, before its header is known.
ghost use Rattle.std.specs.Prelude.{◌≡◌, ◌≤◌, ◌++◌, IfOk, IfErr};

use crate::error::ImageError;
use crate::frame::Header;
use crate::push::{push_header, push_nodes, push_u32};
use model::fault::{Fault, Refusal};
use model::limits;
use model::node::Node;
use std::alloc::{AllocError, Global};
use store::store::Store;

// What is written so far: the place list and the nodes.
#[derive(Drop)]
pub(crate) struct Draft {
    pub(crate) list: Vec<u8>,
    pub(crate) nodes: Vec<u8>,
    // how many nodes these are; kept, since `nodes.len() / 24` at each entry of the list would be no plainer
    pub(crate) count: u32,
    // at most as many as an image may have
    ghost few: { count ≤ 65536 },
}

impl Draft {
    ghost use Rattle.model.specs.Fitting.{Storable};
    ghost use Rattle.image.specs.Drafts.{Drafted, Adds, Unwritten};
    ghost use Rattle.image.specs.Pushes.{header_bytes};

    // One more entity, where the nodes stay within the limit.
    fn add(&mut self, place: usize, run: &[Node]) -> Result<(), ImageError>
        ensures { Adds place run.now self.old self.new result }
    {
        let room = (limits::STORE_NODES - self.count) as usize;
        if run.len() > room {
            return Err(Fault::of_entity(Refusal::Limit, place, room + 1).into());
        }
        push_u32(&mut self.list, self.count)?;
        push_nodes(&mut self.nodes, run)?;
        self.count += run.len() as u32;
        Ok(())
    }

    // The place list and the nodes of all entities of a store.
    pub(crate) fn of_store<S: Store>(heap: Global, store: &S) -> Result<Draft, ImageError>
        ensures ok { IfOk result (λ draft. Storable (S.Store.entities store.now) × Drafted (S.Store.entities store.now) draft) }
        ensures err { IfErr result (λ error. Unwritten error (S.Store.entities store.now)) }
    {
        let mut draft = Draft {
            list: Vec::new(heap),
            nodes: Vec::new(heap),
            count: 0,
        };
        let mut buffer = [Node::new(0, 0, 0, 0); limits::RUN_NODES];
        for place in 0..store.count() {
            let length = store.load(place, &mut buffer)?;
            draft.add(place, &buffer[..length])?;
        }
        Ok(draft)
    }

    // The image of so many entities, of which this is drafted.
    pub(crate) fn image(&self, heap: Global, entities: u32) -> Result<Vec<u8>, AllocError>
        requires { entities ≤ 1024 }
        ensures { IfOk result (λ image. image.items ≡ header_bytes entities self.now.count ++ self.now.list.items ++ self.now.nodes.items) }
    {
        let header = Header {
            entities,
            nodes: self.count,
        };
        let mut image = Vec::new(heap);
        push_header(&mut image, header)?;
        image.extend_from_slice(self.list.as_slice())?;
        image.extend_from_slice(self.nodes.as_slice())?;
        Ok(image)
    }
}

#[cfg(test)]
mod tests {
    use super::*;
    use std::test::Fail;

    // With 65,535 nodes so far, the second of a run is one too many.
    #[test]
    fn stops_at_the_limit(rt: HostRuntime) -> Result<(), Fail> {
        let mut draft = Draft {
            list: Vec::new(rt.alloc()),
            nodes: Vec::new(rt.alloc()),
            count: 65_535,
        };
        let run = [Node::new(0, 0, 0, 0); 2];
        let refused = Fault::of_entity(Refusal::Limit, 7, 2);
        assert!(rt; draft.add(7, &run) == Err(ImageError::Fault(refused)));
        assert_eq!(rt; draft.count, 65_535);
        assert!(rt; draft.add(7, &run[..1]) == Ok(()));
        assert_eq!(rt; draft.count, 65_536);
        assert_eq!(rt; draft.list.as_slice(), [255, 255, 0, 0].as_slice());
        Ok(())
    }
}
