ghost use Rattle.std.specs.Prelude.{◌≡◌, ◌≤◌, IfErr};
ghost use Rattle.model.specs.Trees.{run_of};
ghost use Rattle.model.specs.Layouts.{values, types};
ghost use Rattle.model.specs.Reading.{read_run, start};
ghost use Rattle.model.specs.Formed.{Formed};
ghost use Rattle.model.specs.Entities.{entity_run, request_run, read_value, read_entity, read_request, FormedEntity, FormedRequest};
ghost use Rattle.run.specs.Verdicts.{verdict, Exact, request_parts, entity_parts};

use crate::head_node::{Heads, tags_of};
use crate::language::Language;
use crate::reading::{Reader, Refused};
use crate::type_node::Types;
use crate::value_node::Values;
use model::limits::NESTING;
use model::node::Node;
use model::slot::Slot;

// A run that is one tree.
#[tactic(auto, using(crate::proofs::VerdictSteps::tree_is, crate::proofs::Exactness::tree_exact))]
fn check_tree<L: Language>(run: &[Node], slot: Slot) -> Result<(), Refused>
    ensures is { result ≡ verdict (read_run L.layout slot run.now) }
    ensures exact { Exact (Formed L.layout slot) run_of run.now result }
{
    let mut reader = Reader::new(run);
    reader.tree::<L>(NESTING, slot)?;
    reader.finish()
}

// Whether a run is that of a type.
pub fn check_type(run: &[Node]) -> Result<(), Refused>
    ensures is { result ≡ verdict (read_run types Slot.Plain run.now) }
    ensures exact { Exact (Formed types Slot.Plain) run_of run.now result }
{
    check_tree::<Types>(run, Slot::Plain)
}

// Whether a run is that of a record type, as the attributes of an entity type and the context of an action are.
pub fn check_attributes(run: &[Node]) -> Result<(), Refused>
    ensures is { result ≡ verdict (read_run types Slot.ARecord run.now) }
    ensures exact { Exact (Formed types Slot.ARecord) run_of run.now result }
{
    check_tree::<Types>(run, Slot::ARecord)
}

// Whether a run is that of a value.
pub fn check_value(run: &[Node]) -> Result<(), Refused>
    ensures is { result ≡ verdict (read_run values Slot.Plain run.now) }
    ensures exact { Exact (Formed values Slot.Plain) run_of run.now result }
{
    check_tree::<Values>(run, Slot::Plain)
}

// The parts of a request in turn: principal, action and resource, and then the context.
// Apart from `check_request`: tried in one function, and the proof of exactness did not close at each of its exits.
fn request_parts(run: &[Node]) -> Result<(), Refused>
    ensures { result ≡ request_parts read_value (start run.now) }
{
    let mut reader = Reader::new(run);
    reader.trees::<Values>(NESTING, 3, Slot::AUid)?;
    reader.tree::<Values>(NESTING, Slot::ARecord)?;
    reader.finish()
}

// Whether a run is that of a request.
#[tactic(auto, using(crate::proofs::RequestVerdict::request_is, crate::proofs::Exactness::request_exact))]
pub fn check_request(run: &[Node]) -> Result<(), Refused>
    ensures is { result ≡ verdict (read_request run.now) }
    ensures exact { Exact FormedRequest request_run run.now result }
{
    request_parts(run)
}

// The parts of an entity in turn: its head, its attributes, and as many ancestors and tags as the head announces.
// Apart from `check_entity`: tried in one function, and the proof of `near` did not close at each of its exits.
fn entity_parts(run: &[Node]) -> Result<(), Refused>
    ensures { result ≡ entity_parts read_value (start run.now) }
{
    let mut reader = Reader::new(run);
    let head = reader.node::<Heads>(NESTING, Slot::Plain)?;
    reader.tree::<Values>(NESTING, Slot::ARecord)?;
    reader.trees::<Values>(NESTING, u64::from(head.field), Slot::Ancestor(None))?;
    reader.trees::<Values>(NESTING, tags_of(head), Slot::Named(None))?;
    reader.finish()
}

// Whether a run is that of an entity. No node beyond the 4,097th is named, since reading stops there.
#[tactic(auto, using(crate::proofs::EntityVerdict::entity_is, crate::proofs::Exactness::entity_exact))]
pub fn check_entity(run: &[Node]) -> Result<(), Refused>
    ensures is { result ≡ verdict (read_entity run.now) }
    ensures exact { Exact FormedEntity entity_run run.now result }
    ensures near { IfErr result (λ e. e.1 ≤ 4097) }
{
    entity_parts(run)
}
