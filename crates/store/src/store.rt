ghost use Rattle.std.specs.Prelude.{◌≡◌, List, length};
ghost use Rattle.model.specs.Entities.{Entity};
ghost use Rattle.model.specs.Stores.{Lawful, uid_answer, load_answer};

use model::fault::Fault;
use model::node::{Node, Uid};

// A store answers from a list of entities, and a question changes nothing.
pub trait Store {
    // the list that the store means
    ghost entities: { Self → List Entity };

    // what each implementation shows of every value: the list is within the limits, its uids ascending
    ghost lawful: { (s : Self) → Lawful (entities s) };

    // How many entities there are.
    fn count(&self) -> usize
        ensures { result ≡ length (entities self.now) };

    // The uid of the entity at a place, from 0.
    fn uid(&self, place: usize) -> Result<Uid, Fault>
        ensures { result ≡ uid_answer (entities self.now) place };

    // Writes the run of the entity at a place to the front of the buffer; its length.
    fn load(&self, place: usize, buffer: &mut [Node]) -> Result<usize, Fault>
        ensures answer { result ≡ (load_answer (entities self.now) place buffer.old).0 }
        ensures written { buffer.new ≡ (load_answer (entities self.now) place buffer.old).1 };
}
