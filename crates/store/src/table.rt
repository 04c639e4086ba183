ghost use Rattle.std.specs.Prelude.{◌≡◌, None};
ghost use Rattle.model.specs.Stores.{table_fault};

use crate::runs::Runs;
use model::node::Node;

// A store of nodes in memory: the run of each entity goes from its first node to that of the next. It owns both lists, by
// a rule of the project (stores and images own their data); what they mean together is said of `Runs`, which borrows them.
#[derive(Drop)]
pub struct NodeTable {
    pub(crate) nodes: Vec<Node>,
    pub(crate) firsts: Vec<usize>,
    ghost sound: { table_fault nodes.items firsts.items ≡ None },
}

impl NodeTable {
    // The nodes, cut into runs.
    pub(crate) fn runs(&self) -> Runs<'_>
        ensures nodes { result.nodes.now ≡ self.now.nodes.items }
        ensures firsts { result.firsts.now ≡ self.now.firsts.items }
    {
        Runs {
            nodes: self.nodes.as_slice(),
            firsts: self.firsts.as_slice(),
        }
    }
}
