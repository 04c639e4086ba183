// The way back from a store to bytes.
ghost use Rattle.std.specs.Prelude.{◌≡◌, IfOk, IfErr, None};
ghost use Rattle.model.specs.Images.{image_fault, image_entities};
ghost use Rattle.image.specs.Opens.{BytesOf};
ghost use Rattle.image.specs.Drafts.{Unwritten};

use crate::draft::Draft;
use crate::error::ImageError;
use std::alloc::Global;
use store::store::Store;

// The image of a store. `heap` holds it, and its parts while it is written.
#[tactic(auto, using(crate::proofs::Writing::image_is, crate::proofs::Writing::sound, crate::proofs::Writing::meant))]
pub fn write_image<S: Store>(heap: Global, store: &S) -> Result<Vec<u8>, ImageError>
    ensures written { IfOk result (λ image. BytesOf image.items (S.Store.entities store.now)) }
    ensures read_back { IfOk result (λ image. (image_fault image.items ≡ None) × (image_entities image.items ≡ S.Store.entities store.now)) }
    ensures refused { IfErr result (λ error. Unwritten error (S.Store.entities store.now)) }
{
    let draft = Draft::of_store(heap, store)?;
    Ok(draft.image(heap, store.count() as u32)?)
}

#[cfg(test)]
mod tests {
    use super::*;
    use crate::image::Image;
    use crate::open::tests::BARE;
    use model::node::Node;
    use std::test::Fail;
    use store::table::NodeTable;

    #[test]
    fn writes_what_was_opened(rt: HostRuntime) -> Result<(), Fail> {
        let bytes = Vec::from_slice(rt.alloc(), &BARE)?;
        let Ok(image) = Image::open(rt.alloc(), bytes) else {
            assert!(rt; false, "refused");
            return Ok(());
        };
        let Ok(written) = write_image(rt.alloc(), &image) else {
            assert!(rt; false, "not written");
            return Ok(());
        };
        assert_eq!(rt; written.as_slice(), BARE.as_slice());
        Ok(())
    }

    // Two entities in a table, whose runs of two nodes begin at the nodes 0 and 2.
    #[test]
    fn writes_a_table(rt: HostRuntime) -> Result<(), Fail> {
        let nodes = [
            Node::new(9, 2, 1, 0),
            Node::new(6, 0, 0, 0),
            Node::new(9, 2, 258, 0),
            Node::new(6, 0, 0, 0),
        ];
        let nodes = Vec::from_slice(rt.alloc(), &nodes)?;
        let firsts = Vec::from_slice(rt.alloc(), &[0, 2])?;
        let Ok(table) = NodeTable::open(nodes, firsts) else {
            assert!(rt; false, "refused");
            return Ok(());
        };
        let Ok(written) = write_image(rt.alloc(), &table) else {
            assert!(rt; false, "not written");
            return Ok(());
        };
        let header_and_list = [
            2, 0, 0, 0, 4, 0, 0, 0, 16, 0, 0, 0, 24, 0, 0, 0, 0, 0, 0, 0, 2, 0, 0, 0,
        ];
        let second_head = [9, 0, 0, 0, 0, 0, 0, 0, 2, 0, 0, 0, 2, 1, 0, 0];
        assert_eq!(rt; written.len(), 120);
        assert!(rt; written.as_slice().starts_with(&header_and_list));
        assert!(rt; written.as_slice().get(72..88) == Some(&second_head));
        let Ok(image) = Image::open(rt.alloc(), written) else {
            assert!(rt; false, "refused");
            return Ok(());
        };
        assert_eq!(rt; image.count(), 2);
        assert!(rt; matches!(image.uid(1), Ok((2, 258))));
        Ok(())
    }
}
