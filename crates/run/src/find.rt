ghost use Rattle.std.specs.Prelude.{◌≡◌, ℕ, ◌+◌, true, List, ◌++◌, drop, Some};
ghost use Rattle.model.specs.Trees.{Tree, run_of, size};
ghost use Rattle.model.specs.Layouts.{values};
ghost use Rattle.model.specs.Formed.{fits};
ghost use Rattle.model.specs.Values.{Values, rec, tree_of, field_at};
ghost use Rattle.run.specs.Places.{passes, named_of, field_place, place_of};

use crate::language::Language;
use crate::value_node;
use model::kind::ValueKind;
use model::node::{Name, Node};
use model::slot::Slot;

// The place behind the value at `at`, where the run goes on that far. A run and a place in it are said of apart, here and below:
// what is found is a place again.
pub fn end_of(run: &[Node], at: usize) -> Option<usize>
    ensures is { result ≡ passes 1 (drop at run.now) at }
    ensures tree { (s : Slot) (t : Tree) (rest : List Node) → fits values s t ≡ true → drop at run.now ≡ run_of t ++ rest → result ≡ Some (at + size t) }
{
    let mut place = at;
    // How many values are still to be passed; each has a node at least. A count may announce more than there is, and then no
    // node behind it is looked at. A `for` over the nodes that stops there took up to 1.8 times the time.
    let mut open: usize = 1;
    while open > 0 {
        if run.len().saturating_sub(place) < open {
            return None;
        }
        open = open - 1 + value_node::Values::arity(run[place]) as usize;
        place += 1;
    }
    Some(place)
}

// Of so many values in turn, the first of them at `first`, the place of the one that is named so. The loop only counts them:
// where each begins is known from the one before.
fn named(run: &[Node], name: Name, count: u32, first: usize) -> Option<usize>
    ensures { result ≡ named_of run.now name count first }
{
    let mut place = first;
    for _ in 0..count {
        if run.get(place)?.field == name {
            return Some(place);
        }
        place = end_of(run, place)?;
    }
    None
}

// The place of the field `name` of the record at `at`, where it has one.
#[tactic(auto, using(crate::proofs::FieldPlaces::field_is))]
pub fn child(run: &[Node], at: usize, name: Name) -> Option<usize>
    ensures is { result ≡ field_place run.now name at }
    ensures field { (s : Slot) (f : ℕ) (vs : Values) (rest : List Node) → fits values s (tree_of f (rec vs)) ≡ true → drop at run.now ≡ run_of (tree_of f (rec vs)) ++ rest → result ≡ place_of (field_at name (at + 1) vs) }
{
    let record = run.get(at)?;
    if record.kind != u32::from(ValueKind::Record) {
        return None;
    }
    named(run, name, record.a, at + 1)
}
