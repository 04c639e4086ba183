// How a fault at a node of a run is told.
ghost use Rattle.std.specs.Prelude.{◌≡◌, ℕ, ◌<◌, ◌≤◌};
ghost use Rattle.store.specs.Entries.{Telling, by_entity};

use model::fault::{Fault, Refusal};

// A table of nodes tells a fault by its entity and node, an image by a byte offset.
pub trait FaultPlaces {
    // the fault of a refusal, by the run, the index of the run's first node, and the node's number in the run
    ghost telling: { Self → Telling };
    // the indexes of first nodes that can be told lie below it
    ghost room: { Self → ℕ };

    // The fault of a refusal at a node, from 1, of a run whose first node has the index `first`. It is the one that is told
    // where the index is within the room and the node one that a reader of runs comes to; of others nothing is said.
    fn fault(&self, run: usize, first: usize, node: usize, refusal: Refusal) -> Fault
        ensures { first < room self.now → node ≤ 4097 → result ≡ telling self.now run first node refusal };
}

// By the entity's place and the node of its run.
#[derive(Clone, Copy)]
pub struct ByEntity;

impl FaultPlaces for ByEntity {
    ghost telling = { λ _. by_entity };

    ghost room = { λ _. 18446744073709551616 };

    fn fault(&self, run: usize, _first: usize, node: usize, refusal: Refusal) -> Fault {
        Fault::of_entity(refusal, run, node)
    }
}
