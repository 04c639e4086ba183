// The faults of runs.
ghost use Rattle.std.specs.Prelude.{◌≡◌, ◌==◌, ◌-◌, ◌<◌, ◌||◌};
ghost use Rattle.model.specs.Faults.{least_with};
ghost use Rattle.model.specs.Slots.{uid_below};
ghost use Rattle.model.specs.Entities.{read_entity, head_uid};
ghost use Rattle.model.specs.Images.{fault_of};
ghost use Rattle.model.specs.Stores.{first_at, run_at, run_fault, uid_fault, faults_at, run_faults};
ghost use Rattle.store.specs.Entries.{told, AllBelow};

use crate::fault_places::FaultPlaces;
use crate::runs::{Runs, uid_of};
use model::fault::{Fault, Refusal};
use run::Refused;
use run::check::check_entity;

impl<'n> Runs<'n> {
    // Whether the run `k` is that of an entity.
    fn check_run<P: FaultPlaces>(self, places: &P, k: usize) -> Result<(), Fault>
        ensures { first_at self.entry.firsts.now k < P.FaultPlaces.room places.now → fault_of result ≡ run_fault (told (P.FaultPlaces.telling places.now) self.entry.firsts.now) k (read_entity (run_at self.entry.nodes.now self.entry.firsts.now k)) }
    {
        let Err(Refused { refusal, node }) = check_entity(self.run_at(k)) else {
            return Ok(());
        };
        Err(places.fault(k, self.first_at(k), node, refusal))
    }

    // Whether the uid of the run `k` is above that of the run before, if there is one.
    fn uid_ascends(self, k: usize) -> bool
        ensures { result ≡ (k == 0 || uid_below (head_uid (run_at self.entry.nodes.now self.entry.firsts.now (k - 1))) (head_uid (run_at self.entry.nodes.now self.entry.firsts.now k))) }
    {
        k == 0 || uid_of(self.run_at(k - 1)) < uid_of(self.run_at(k))
    }

    // The uid of the run `k` is above the one before.
    fn check_uid<P: FaultPlaces>(self, places: &P, k: usize) -> Result<(), Fault>
        ensures { first_at self.entry.firsts.now k < P.FaultPlaces.room places.now → fault_of result ≡ uid_fault (told (P.FaultPlaces.telling places.now) self.entry.firsts.now) self.entry.nodes.now self.entry.firsts.now k }
    {
        if self.uid_ascends(k) {
            return Ok(());
        }
        Err(places.fault(k, self.first_at(k), 1, Refusal::Malformed))
    }

    // The least fault so far, and those of the run `k`. It goes along with the places, and no struct holds the two: each is the
    // caller's, who has them for one call.
    fn keep_faults_at<P: FaultPlaces>(
        self,
        places: &P,
        kept: Option<Fault>,
        k: usize,
    ) -> Option<Fault>
        ensures { first_at self.entry.firsts.now k < P.FaultPlaces.room places.now → result ≡ least_with kept (faults_at (told (P.FaultPlaces.telling places.now) self.entry.firsts.now) self.entry.nodes.now self.entry.firsts.now k) }
    {
        let kept = Fault::keep_checked(kept, self.check_run(places, k));
        Fault::keep_checked(kept, self.check_uid(places, k))
    }

    // The least fault so far, and those of all runs, where each first node can be told.
    pub fn keep_faults<P: FaultPlaces>(self, places: &P, kept: Option<Fault>) -> Option<Fault>
        ensures { AllBelow (P.FaultPlaces.room places.now) self.entry.firsts.now → result ≡ least_with kept (run_faults (told (P.FaultPlaces.telling places.now) self.entry.firsts.now) self.entry.nodes.now self.entry.firsts.now) }
    {
        (0..self.firsts.len()).fold(kept, |least, k| self.keep_faults_at(places, least, k))
    }
}
