// An image tells a fault by the byte offset of the node.
ghost use Rattle.image.specs.Headers.{by_offset};

use crate::frame::Header;
use model::fault::{Fault, Layer, Refusal};
use store::fault_places::FaultPlaces;

impl FaultPlaces for Header {
    ghost telling = { λ h. by_offset h.entities };

    ghost room = { λ _. 4294967296 };

    fn fault(&self, _run: usize, first: usize, node: usize, refusal: Refusal) -> Fault {
        // within the room no sum reaches its bound
        let header = *self;
        let nodes = first.saturating_add(node).saturating_sub(1);
        let offset = nodes
            .saturating_mul(24)
            .saturating_add(16 + header.entities as usize * 4);
        Fault::at(refusal, Layer::Image, offset)
    }
}
