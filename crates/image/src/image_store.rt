ghost use Rattle.model.specs.Images.{image_entities};
ghost use Rattle.image.specs.Faultless.{image_lawful};

use crate::image::Image;
use model::fault::Fault;
use model::node::{Node, Uid};
use store::store::Store;

impl Store for Image {
    ghost entities = { λ i. image_entities i.bytes.items };

    ghost lawful = { λ i. image_lawful i.bytes.items i.sound };

    fn count(&self) -> usize {
        self.reader().count()
    }

    fn uid(&self, place: usize) -> Result<Uid, Fault> {
        self.reader().uid(place)
    }

    fn load(&self, place: usize, buffer: &mut [Node]) -> Result<usize, Fault> {
        self.reader().load(place, buffer)
    }
}
