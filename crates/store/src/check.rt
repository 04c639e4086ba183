// What making a table of nodes refuses.
ghost use Rattle.std.specs.Prelude.{◌≡◌, ◌<◌, ◌-◌, ◌==◌, ◌&&◌, nat_lt, length};
ghost use Rattle.model.specs.declared.fault.Refusal.TheVariants.{Malformed, Limit};
ghost use Rattle.model.specs.Options.{unless};
ghost use Rattle.model.specs.Faults.{least, of_entity};
ghost use Rattle.model.specs.Images.{fault_of};
ghost use Rattle.model.specs.Stores.{run_holding, at_node, fault_if, table_faults, table_fault};

use crate::fault_places::ByEntity;
use crate::runs::Runs;
use model::fault::{Fault, Refusal};
use model::limits;

impl<'n> Runs<'n> {
    // The run in which the node `j` lies: the last that begins no later.
    fn run_holding(self, j: usize) -> usize
        ensures { result ≡ run_holding j self.entry.firsts.now (length self.entry.firsts.now - 1) }
    {
        self.firsts
            .iter()
            .rposition(|&first| first <= j)
            .unwrap_or(0)
    }

    // No nodes without an entity.
    fn check_bare(self) -> Result<(), Fault>
        ensures { fault_of result ≡ fault_if (length self.entry.firsts.now == 0 && nat_lt 0 (length self.entry.nodes.now)) (of_entity Malformed 0 1) }
    {
        if self.firsts.is_empty() && !self.nodes.is_empty() {
            return Err(Fault::of_entity(Refusal::Malformed, 0, 1));
        }
        Ok(())
    }

    // No entity beyond the limit.
    fn check_entities(self) -> Result<(), Fault>
        ensures { fault_of result ≡ fault_if (nat_lt 1024 (length self.entry.firsts.now)) (of_entity Limit 1024 1) }
    {
        let limit = limits::STORE_ENTITIES as usize;
        if self.firsts.len() > limit {
            return Err(Fault::of_entity(Refusal::Limit, limit, 1));
        }
        Ok(())
    }

    // No node beyond the limit.
    fn check_nodes(self) -> Result<(), Fault>
        ensures { fault_of result ≡ fault_if (nat_lt 65536 (length self.entry.nodes.now)) (at_node Limit self.entry.firsts.now 65536) }
    {
        let limit = limits::STORE_NODES as usize;
        if self.nodes.len() <= limit {
            return Ok(());
        }
        let k = self.run_holding(limit);
        let node = limit.saturating_sub(self.first_at(k)) + 1;
        Err(Fault::of_entity(Refusal::Limit, k, node))
    }

    // The least of the faults that are about the whole table.
    fn table_faults(self) -> Option<Fault>
        ensures { result ≡ least (table_faults self.entry.nodes.now self.entry.firsts.now) }
    {
        let least = Fault::keep_checked(None, self.check_bare());
        let least = Fault::keep_checked(least, self.check_entities());
        Fault::keep_checked(least, self.check_nodes())
    }

    // Whether the runs make a table: a broken entry stands alone, else the least fault.
    pub(crate) fn check(self) -> Result<(), Fault>
        ensures { result ≡ unless (table_fault self.entry.nodes.now self.entry.firsts.now) tt }
    {
        if let Some(k) = self.broken_entry() {
            return Err(Fault::of_entity(Refusal::Malformed, k, 1));
        }
        match self.keep_faults(&ByEntity, self.table_faults()) {
            None => Ok(()),
            Some(fault) => Err(fault),
        }
    }
}
