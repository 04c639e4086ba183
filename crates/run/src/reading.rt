ghost use Rattle.std.specs.Prelude.{◌≡◌, ◌==◌};
ghost use Rattle.model.specs.declared.fault.Refusal.TheVariants.{Malformed, Limit};
ghost use Rattle.model.specs.Trees.{root};
ghost use Rattle.model.specs.Reading.{start, read_node, read_tree, read_trees};
ghost use Rattle.run.specs.Reads.{told, seen, rest_only};
ghost use Rattle.run.specs.Verdicts.{at_end};

use crate::language::Language;
use model::fault::Refusal;
use model::limits;
use model::node::Node;
use model::slot::Slot;
use std::marker::Model;

// A refusal and the node at which it stands, counted from 1.
#[derive(Clone, Copy, PartialEq, Eq)]
pub struct Refused {
    pub refusal: Refusal,
    pub node: usize,
}

// The pair that the definition of reading answers.
impl Model for Refused {
    ghost use Rattle.std.specs.Prelude.{ℕ};
    ghost use Rattle.model.specs.declared.fault.Refusal.{Refusal};

    ghost Value = { Refusal × ℕ };

    ghost view = { λ r. (r.refusal, r.node) };

    ghost inverse = { λ v. record { refusal = v.0; node = v.1 } };
}

impl Refused {
    fn malformed(node: usize) -> Refused
        ensures { result ≡ (Malformed, node) }
    {
        Refused {
            refusal: Refusal::Malformed,
            node,
        }
    }

    fn limit(node: usize) -> Refused
        ensures { result ≡ (Limit, node) }
    {
        Refused {
            refusal: Refusal::Limit,
            node,
        }
    }
}

// A run that is being read.
#[derive(Drop)]
pub(crate) struct Reader<'r> {
    // the nodes that are left
    nodes: &'r [Node],
    // the number of the first of them, counted from 1
    place: usize,
    // the first node, counted from 1, that passed a limit
    passed: Option<usize>,
}

// A reader is seen as what the definition of reading has left of a run. Reading stops at node 4,097, so places are no larger.
impl<'r> Model for Reader<'r> {
    ghost use Rattle.std.specs.Prelude.{◌≤◌};
    ghost use Rattle.model.specs.Reading.{Rest};

    ghost Value = { Rest };

    ghost view = { λ r. record { nodes = r.nodes.now; place = r.place; passed = r.passed } };

    ghost invariant = { λ r. r.place ≤ 4097 };
}

impl<'r> Reader<'r> {
    // Nothing is read.
    pub(crate) fn new(run: &'r [Node]) -> Reader<'r>
        ensures { result ≡ start run.now }
    {
        Reader {
            nodes: run,
            place: 1,
            passed: None,
        }
    }

    // The next node, in a slot, where so much nesting is left. A broken layout stands before a passed limit, and a node that
    // is too many or too deep stops.
    pub(crate) fn node<L: Language>(&mut self, room: usize, slot: Slot) -> Result<Node, Refused>
        ensures { told result self.new ≡ read_node L.layout (room == 0) slot self.old }
    {
        let place = self.place;
        let Some((&node, rest)) = self.nodes.split_first() else {
            return Err(Refused::malformed(place));
        };
        if !L::takes(slot, node) {
            return Err(Refused::malformed(place));
        }
        let first = self.passed.unwrap_or(place);
        if room == 0 || place > limits::RUN_NODES {
            return Err(Refused::limit(first));
        }
        if !L::keeps(slot, node) {
            self.passed = Some(first);
        }
        self.nodes = rest;
        self.place = place + 1;
        Ok(node)
    }

    // The root of the next tree, which nests at most `room` deep, with everything below it read.
    #[cycle(tree_trees)]
    #[tactic(auto, using(crate::proofs::TreesInTurn::tree_step))]
    pub(crate) fn tree<L: Language>(&mut self, room: usize, slot: Slot) -> Result<Node, Refused>
        ensures { told result self.new ≡ seen root (read_tree L.layout room slot self.old) }
    {
        let node = self.node::<L>(room, slot)?;
        // always: with no nesting left the node was refused
        if room > 0 {
            self.trees::<L>(room - 1, u64::from(L::arity(node)), L::inside(node))?;
        }
        Ok(node)
    }

    // So many trees in turn, the first of them in this slot; the loop only counts them. A count may announce more than there
    // are nodes: reading then ends at the node that is missing.
    #[cycle(tree_trees)]
    #[tactic(auto, using(crate::proofs::TreesInTurn::turn_on))]
    pub(crate) fn trees<L: Language>(
        &mut self,
        room: usize,
        count: u64,
        slot: Slot,
    ) -> Result<(), Refused>
        ensures { told result self.new ≡ rest_only (read_trees (read_tree L.layout room) count slot self.old) }
    {
        let mut slot = slot;
        for _ in 0..count {
            let node = self.tree::<L>(room, slot)?;
            slot = slot.next(node);
        }
        Ok(())
    }

    // Everything that has to be there is read: a node that is left over breaks the run, else the first passed limit stands.
    pub(crate) fn finish(self) -> Result<(), Refused>
        ensures { result ≡ at_end self.entry }
    {
        if !self.nodes.is_empty() {
            return Err(Refused::malformed(self.place));
        }
        match self.passed {
            Some(place) => Err(Refused::limit(place)),
            None => Ok(()),
        }
    }
}
