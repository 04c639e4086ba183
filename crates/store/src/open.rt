ghost use Rattle.std.specs.Prelude.{◌≡◌, List, IfOk, IfErr, Some, None};
ghost use Rattle.model.specs.Entities.{Entity};
ghost use Rattle.model.specs.Stores.{table_fault, entities_of};
ghost use Rattle.store.specs.Opens.{NodesOf};

use crate::runs::Runs;
use crate::table::NodeTable;
use model::fault::Fault;
use model::node::Node;

// Nodes that are no table, handed back with the fault: both lists, as `NodeTable` has them.
#[derive(Drop)]
pub struct RefusedTable {
    pub nodes: Vec<Node>,
    pub firsts: Vec<usize>,
    pub fault: Fault,
}

impl NodeTable {
    // The store of these nodes, where `firsts` has the index of the first node of each entity's run.
    #[tactic(auto, using(crate::proofs::Tables::of_none))]
    pub fn open(nodes: Vec<Node>, firsts: Vec<usize>) -> Result<NodeTable, RefusedTable>
        ensures opened { IfOk result (λ t. (t.nodes ≡ nodes) × (t.firsts ≡ firsts) × (table_fault nodes.items firsts.items ≡ None)) }
        ensures means { IfOk result (λ _. NodesOf nodes.items firsts.items (entities_of nodes.items firsts.items)) }
        ensures refused { IfErr result (λ x. (x.nodes ≡ nodes) × (x.firsts ≡ firsts) × (table_fault nodes.items firsts.items ≡ Some x.fault)) }
        ensures of_none { IfErr result (λ _. (es : List Entity) → NodesOf nodes.items firsts.items es → ⊥) }
    {
        let runs = Runs {
            nodes: nodes.as_slice(),
            firsts: firsts.as_slice(),
        };
        match runs.check() {
            Ok(()) => Ok(NodeTable { nodes, firsts }),
            Err(fault) => Err(RefusedTable {
                nodes,
                firsts,
                fault,
            }),
        }
    }
}
