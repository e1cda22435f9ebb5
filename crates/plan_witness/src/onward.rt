//! To which configurations a plan may come from one of them.

ghost use Rattle.std.specs.Prelude.{
  ◌≡◌,
  ◌++◌,
  ◌∷◌,
  ◌<◌,
  ◌↔◌,
  [],
  IfOk,
  OnOk,
  if◌then◌else◌,
  length,
  nat_lt,
  true,
  ℕ,
};
ghost use Rattle.std.specs.List.{filter, range_with_len};
ghost use Rattle.task_core.specs.States.{IsWithin, vector};
ghost use Rattle.task_core.specs.Tasks.{fluent_count};
ghost use Rattle.exec_graph.specs.Executions.{IsReachedBy};
ghost use Rattle.exec_graph.specs.Values.{IsWithinFluents, graph_size};
ghost use Rattle.plan_check.specs.Walks.{IsMarked};
ghost use Rattle.plan_witness.specs.Marked.{place_at};
ghost use Rattle.plan_witness.specs.Onward.{AreMet, AreOnward, places_in};
ghost use Rattle.plan_witness.specs.Scenes.{IsFollowed, place_of, plan_in, sys_in};
ghost use Rattle.plan_witness.specs.Ways.{at};

use crate::scenes::{Scene, Spot};
use crate::ways::{FAR, Ways, ways_from};
use exec_graph::{Graph, Steps};
use std::alloc::{AllocError, Global};
use std::sync::ledger::Ledger;
use task_core::State;

/// The numbers of the configurations to which paths of the plan lead from one that it may reach; least
/// first.
pub fn onward_numbers<L: Ledger>(
    alloc: Global,
    scene: &Scene<'_>,
    spot: &Spot<'_>,
    steps: &mut Steps<L>,
) -> Result<Vec<u32>, AllocError>
    requires scene { IsFollowed scene.now }
    requires state { IsWithin (fluent_count scene.now.task.now) spot.now.state.now }
    requires reached { IsReachedBy (sys_in scene.now) (plan_in scene.now)
        (place_of (fluent_count scene.now.task.now) spot.now) }
    ensures met { AreMet (sys_in scene.now) (plan_in scene.now) (places_in scene.now) }
    ensures onward { IfOk result (λ numbers. AreOnward (sys_in scene.now) (plan_in scene.now)
        (places_in scene.now) (place_of (fluent_count scene.now.task.now) spot.now)
        numbers.items) }
{
    let starts = marks_of(alloc, scene.graph, spot.state, spot.context)?;
    let ways = ways_from(alloc, scene.graph, &starts, steps)?;
    reached_numbers(alloc, scene.graph, &ways)
}

fn marks_of(
    alloc: Global,
    graph: &Graph,
    state: &State,
    context: u32,
) -> Result<Vec<bool>, AllocError>
    ensures count { IfOk result (λ marks. length marks.items ≡ graph_size graph.now) }
    ensures marked { (n : ℕ) → IsWithinFluents n graph.now → IsWithin n state.now
        → IfOk result (λ marks. (i : ℕ) → i < graph_size graph.now → IsMarked marks.items i
        ↔ (place_at n graph.now i ≡ record { state = vector n state.now; context = context })) }
{
    let mut marks = Vec::new(alloc);
    for i in 0..graph.len() {
        marks.push(is_place(graph, i, state, context))?;
    }
    Ok(marks)
}

fn is_place(graph: &Graph, number: u32, state: &State, context: u32) -> bool
    requires { number < graph_size graph.now }
    ensures { (n : ℕ) → IsWithinFluents n graph.now → IsWithin n state.now → (result ≡ true)
        ↔ (place_at n graph.now number ≡ record { state = vector n state.now; context = context }) }
{
    if !has_context(graph, number, context) {
        return false;
    }
    has_state(graph, number, state)
}

fn has_context(graph: &Graph, number: u32, context: u32) -> bool
    requires { number < graph_size graph.now }
    ensures { (n : ℕ) → (result ≡ true) ↔ ((place_at n graph.now number).context ≡ context) }
{
    graph.context(number) == context
}

fn has_state(graph: &Graph, number: u32, state: &State) -> bool
    requires { number < graph_size graph.now }
    ensures { (n : ℕ) → IsWithinFluents n graph.now → IsWithin n state.now
        → (result ≡ true) ↔ ((place_at n graph.now number).state ≡ vector n state.now) }
{
    *graph.state(number) == *state
}

/// The numbers to which a way is known, least first.
fn reached_numbers(alloc: Global, graph: &Graph, ways: &Ways) -> Result<Vec<u32>, AllocError>
    requires { length ways.now.lengths.items ≡ graph_size graph.now }
    ensures { IfOk result (λ numbers. numbers.items
        ≡ filter (λ i. nat_lt (at ways.now.lengths.items i) FAR)
        (range_with_len 0 (graph_size graph.now))) }
{
    let mut numbers = Vec::new(alloc);
    for i in 0..graph.len() {
        push_if(&mut numbers, i, ways.length_at(i) < FAR)?;
    }
    Ok(numbers)
}

fn push_if(numbers: &mut Vec<u32>, number: u32, wanted: bool) -> Result<(), AllocError>
    ensures { OnOk result (numbers.new.items
        ≡ (if wanted then numbers.old.items ++ number ∷ [] else numbers.old.items)) }
{
    if wanted {
        numbers.push(number)?;
    }
    Ok(())
}
