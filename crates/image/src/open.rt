ghost use Rattle.std.specs.Prelude.{◌≡◌, IfOk, IfErr, None};
ghost use Rattle.model.specs.Images.{image_fault, image_entities};
ghost use Rattle.image.specs.Opens.{BytesOf, ForReason};

use crate::check::check_image;
use crate::error::ImageError;
use crate::image::Image;
use std::alloc::Global;

// Bytes that are not opened, handed back with the reason.
#[derive(Drop)]
pub struct RefusedImage {
    pub bytes: Vec<u8>,
    pub error: ImageError,
}

impl Image {
    // The store of these bytes. `heap` holds their nodes while they are checked.
    pub fn open(heap: Global, bytes: Vec<u8>) -> Result<Image, RefusedImage>
        ensures opened { IfOk result (λ i. (i.bytes ≡ bytes) × (image_fault bytes.items ≡ None) × BytesOf bytes.items (image_entities bytes.items)) }
        ensures refused { IfErr result (λ x. (x.bytes ≡ bytes) × ForReason x.error bytes.items) }
    {
        match check_image(heap, bytes.as_slice()) {
            Ok(()) => Ok(Image { bytes }),
            Err(error) => Err(RefusedImage { bytes, error }),
        }
    }

    // The bytes, handed back.
    pub fn into_bytes(self) -> Vec<u8>
        ensures { result ≡ self.bytes }
    {
        let Image { bytes } = self;
        bytes
    }
}

#[cfg(test)]
pub(crate) mod tests {
    use super::*;
    use crate::view::{NodeBytes, View};
    use model::node::Node;
    use std::test::Fail;
    use store::store::Store;

    // One entity without attributes, ancestors and tags.
    pub(crate) const BARE: [u8; 68] = [
        1, 0, 0, 0, 2, 0, 0, 0, 16, 0, 0, 0, 20, 0, 0, 0, 0, 0, 0, 0, 9, 0, 0, 0, 0, 0, 0, 0, 2, 0,
        0, 0, 1, 0, 0, 0, 0, 0, 0, 0, 0, 0, 0, 0, 6, 0, 0, 0, 0, 0, 0, 0, 0, 0, 0, 0, 0, 0, 0, 0,
        0, 0, 0, 0, 0, 0, 0, 0,
    ];

    // How many entities are opened, or the number of the refusal and its place.
    fn opened(heap: Global, bytes: Vec<u8>) -> Result<usize, (u32, usize)> {
        match Image::open(heap, bytes) {
            Ok(image) => Ok(image.count()),
            Err(refused) => match refused.error {
                ImageError::Fault(fault) => Err((u32::from(fault.refusal), fault.place)),
                ImageError::NoMemory => Err((0, 0)),
            },
        }
    }

    #[test]
    fn opens_a_bare_entity(rt: HostRuntime) -> Result<(), Fail> {
        let bytes = Vec::from_slice(rt.alloc(), &BARE)?;
        let Ok(image) = Image::open(rt.alloc(), bytes) else {
            assert!(rt; false, "refused");
            return Ok(());
        };
        let mut buffer = [Node::new(0, 0, 0, 0); 3];
        assert_eq!(rt; image.count(), 1);
        assert!(rt; matches!(image.uid(0), Ok((2, 1))));
        assert!(rt; matches!(image.load(0, &mut buffer), Ok(2)));
        assert_eq!(rt; [buffer[0].kind, buffer[1].kind, buffer[2].kind], [9, 6, 0]);
        assert!(rt;
            matches!(
                image.view(0),
                Some(View::Entity(NodeBytes { offset: 20, .. }))
            )
        );
        assert!(rt;
            matches!(
                image.view(1),
                Some(View::Record(NodeBytes { offset: 44, .. }))
            )
        );
        assert!(rt; image.view(2).is_none());
        assert_eq!(rt; image.into_bytes().as_slice(), BARE.as_slice());
        Ok(())
    }

    #[test]
    fn names_the_byte_at_fault(rt: HostRuntime) -> Result<(), Fail> {
        let damaged = [
            (4, 3, 1, 68),
            (0, 0, 1, 12),
            (16, 1, 1, 16),
            (20, 8, 1, 20),
            (52, 1, 1, 68),
            (34, 1, 2, 20),
        ];
        for (at, byte, number, place) in damaged {
            let mut bytes = BARE;
            bytes[at] = byte;
            let bytes = Vec::from_slice(rt.alloc(), &bytes)?;
            assert_eq!(rt;
                opened(rt.alloc(), bytes),
                Err((number, place)),
                "byte {at}"
            );
        }
        Ok(())
    }
}
