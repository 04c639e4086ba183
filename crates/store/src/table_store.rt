ghost use Rattle.std.specs.Prelude.{◌≡◌, IfOk, IfErr, None, Some};
ghost use Rattle.model.specs.Entities.{Entity, entity_run};
ghost use Rattle.model.specs.Stores.{entities_of, entity_at, loaded, no_such_place};
ghost use Rattle.store.specs.TableFacts.{table_lawful};

use crate::runs::uid_of;
use crate::store::Store;
use crate::table::NodeTable;
use model::fault::{Fault, Layer, Refusal};
use model::node::{Node, Uid};

// The run at the front of the buffer, where it is long enough; its length.
fn copy(run: &[Node], buffer: &mut [Node]) -> Result<usize, Fault>
    ensures answer { result ≡ (loaded run.now buffer.old).0 }
    ensures written { buffer.new ≡ (loaded run.now buffer.old).1 }
{
    let length = run.len();
    // with `get_mut` the proof didn't close: it knows nothing of a slice that `get_mut` lent out
    if buffer.len() < length {
        return Err(Fault::whole_call(Refusal::Limit, Layer::Entity));
    }
    buffer[..length].copy_from_slice(run);
    Ok(length)
}

impl NodeTable {
    // The run of the entity at a place.
    #[tactic(auto, using(crate::proofs::Tables::missing))]
    fn run(&self, place: usize) -> Result<&[Node], Fault>
        ensures found { IfOk result (λ run. (e : Entity) × (entity_at (entities_of self.now.nodes.items self.now.firsts.items) place ≡ Some e) × (run.now ≡ entity_run e)) }
        ensures missing { IfErr result (λ fault. (entity_at (entities_of self.now.nodes.items self.now.firsts.items) place ≡ None) × (fault ≡ no_such_place)) }
    {
        let runs = self.runs();
        if place >= runs.firsts.len() {
            return Err(Fault::whole_call(Refusal::NotStored, Layer::Entity));
        }
        Ok(runs.run_at(place))
    }
}

impl Store for NodeTable {
    ghost entities = { λ t. entities_of t.nodes.items t.firsts.items };

    ghost lawful = { λ t. table_lawful t.nodes.items t.firsts.items t.sound };

    #[tactic(auto, using(crate::proofs::Tables::counted))]
    fn count(&self) -> usize {
        self.firsts.len()
    }

    fn uid(&self, place: usize) -> Result<Uid, Fault> {
        Ok(uid_of(self.run(place)?))
    }

    fn load(&self, place: usize, buffer: &mut [Node]) -> Result<usize, Fault> {
        copy(self.run(place)?, buffer)
    }
}
