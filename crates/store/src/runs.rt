ghost use Rattle.std.specs.Prelude.{◌≡◌, length};
ghost use Rattle.model.specs.Entities.{head_uid};
ghost use Rattle.model.specs.Stores.{first_at, end_at, run_at, entry_sound, broken_entry};

use model::node::{Node, Uid};

// Nodes that a list of first nodes cuts into runs: each goes from its first node to that of the next, the last to the end.
#[derive(Clone, Copy)]
pub struct Runs<'n> {
    pub nodes: &'n [Node],
    pub firsts: &'n [usize],
}

// The uid that the first node of a run names.
pub(crate) fn uid_of(run: &[Node]) -> Uid
    ensures { result ≡ head_uid run.now }
{
    run.first().map_or((0, 0), |node| node.uid())
}

impl<'n> Runs<'n> {
    // The index of the first node of the run `k`, or 0 where there is no such run.
    pub(crate) fn first_at(self, k: usize) -> usize
        ensures { result ≡ first_at self.entry.firsts.now k }
    {
        self.firsts.get(k).copied().unwrap_or(0)
    }

    // The index behind the last node of the run `k`.
    fn end_at(self, k: usize) -> usize
        ensures { result ≡ end_at (length self.entry.nodes.now) self.entry.firsts.now k }
    {
        self.firsts
            .get(k.saturating_add(1))
            .copied()
            .unwrap_or(self.nodes.len())
    }

    // The run `k`, as far as there are such nodes.
    pub(crate) fn run_at(self, k: usize) -> &'n [Node]
        ensures { result.now ≡ run_at self.entry.nodes.now self.entry.firsts.now k }
    {
        let end = self.end_at(k).min(self.nodes.len());
        self.nodes.get(self.first_at(k)..end).unwrap_or(&[])
    }

    // Whether the entry `k` is 0 as the first, else above the one before, and below the number of nodes.
    fn entry_sound(self, k: usize) -> bool
        ensures { result ≡ entry_sound (length self.entry.nodes.now) self.entry.firsts.now k }
    {
        let first = self.first_at(k);
        let ascends = if k == 0 {
            first == 0
        } else {
            self.first_at(k - 1) < first
        };
        ascends && first < self.nodes.len()
    }

    // The first entry that is not sound.
    pub(crate) fn broken_entry(self) -> Option<usize>
        ensures { result ≡ broken_entry (length self.entry.nodes.now) self.entry.firsts.now }
    {
        (0..self.firsts.len()).find(|&k| !self.entry_sound(k))
    }
}
