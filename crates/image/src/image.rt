ghost use Rattle.image.specs.Faultless.{Faultless};

// The image of a store, in bytes of which no fault was found.
#[derive(Drop)]
pub struct Image {
    pub(crate) bytes: Vec<u8>,
    ghost sound: { Faultless bytes.items },
}
