//! Runs along the edges of a picture.

ghost use Rattle.plan_picture.specs.Runs.{
  begins_at as begins_there,
  comes_round as round_comes,
  edges_along as edges_of_moves,
  end_of as end_along,
  rule_actions,
  run_edges as edges_of_run,
  step_at as step_of_move,
  step_by as step_among,
};
ghost use Rattle.plan_picture.specs.Values.{
  edge_value,
  move_value,
  node_value,
  nodes_of,
  run_value,
  step_value,
};
ghost use Rattle.plan_rules.specs.Rules.{context_rule_of, plain_of, rule_of};
ghost use Rattle.std.specs.Option.{option_map};
ghost use Rattle.std.specs.Prelude.{
  ◌≡◌,
  None,
  IfOk,
  Some,
  if◌then◌else◌,
  map,
  slice_get,
};
ghost use Rattle.task_core.specs.Tasks.{fluent_count};

use crate::pictures::{Node, Picture, Step};
use plan_rules::{AutoRule, Plan, Rule};
use std::alloc::{AllocError, Global};
use task_core::{ActionId, Task};

/// A move of a run: the number of a rule, from 0 in the order of the plan's text, and that of an
/// outcome, from 0 among all outcomes of the rule's action.
#[derive(Clone, Copy, Debug, PartialEq, Eq)]
pub struct Move {
    pub rule: u64,
    pub outcome: u64,
}

/// A run: the number of an initial state, the moves, and the number of the move, from 0, from which
/// it repeats, if it does.
#[derive(Debug, Drop)]
pub struct Run {
    pub initial: u64,
    pub moves: Vec<Move>,
    pub cycle_from: Option<u64>,
}

/// An edge of a picture: the place of a node, and a step from there.
#[derive(Clone, Copy, Debug)]
pub struct Edge {
    pub from: u64,
    pub step: Step,
}

/// The edges of a run in the picture of a plan for a task; none where the plan has no such run.
///
/// The first nodes of the picture are taken for the initial states in the order of the task's.
pub fn run_edges(
    alloc: Global,
    task: &Task,
    plan: &Plan,
    picture: &Picture,
    run: &Run,
) -> Result<Option<Vec<Edge>>, AllocError>
    ensures { IfOk result (λ edges. option_map (λ some. map edge_value some.items) edges
        ≡ edges_of_run (plain_of plan.now) (nodes_of (fluent_count task.now) picture.now)
        (run_value run.now)) }
{
    if !begins_at(task, &picture.nodes, run.initial) {
        return Ok(None);
    }
    match edges_along(alloc, task, plan, &picture.nodes, run)? {
        Some(edges) => Ok(if_round(run, edges)),
        None => Ok(None),
    }
}

/// The edges of a run, unless it doesn't come round where it should.
fn if_round(run: &Run, edges: Vec<Edge>) -> Option<Vec<Edge>>
    ensures { option_map (λ some. map edge_value some.items) result
        ≡ (if round_comes run.now.cycle_from run.now.initial (map edge_value edges.items)
        then Some (map edge_value edges.items) else None) }
{
    if comes_round(run.cycle_from, run.initial, &edges) {
        Some(edges)
    } else {
        None
    }
}

fn begins_at(task: &Task, nodes: &[Node], place: u64) -> bool
    ensures { result ≡ begins_there (map (node_value (fluent_count task.now)) nodes.now) place }
{
    // The task is read for its bound on fluents alone.
    let _bound = task.fluents.len();
    match nodes.get(place as usize) {
        Some(node) => node.is_initial,
        None => false,
    }
}

/// The edges on which the moves of a run lead from where it begins; none where some move has no step.
fn edges_along(
    alloc: Global,
    task: &Task,
    plan: &Plan,
    nodes: &[Node],
    run: &Run,
) -> Result<Option<Vec<Edge>>, AllocError>
    ensures { IfOk result (λ edges. option_map (λ some. map edge_value some.items) edges
        ≡ edges_of_moves (map (node_value (fluent_count task.now)) nodes.now)
        (rule_actions (plain_of plan.now)) run.now.initial (map move_value run.now.moves.items)) }
{
    let mut edges = Vec::new(alloc);
    let mut place = run.initial;
    for next in &run.moves {
        let Some(step) = step_at(task, plan, nodes, place, next) else {
            return Ok(None);
        };
        edges.push(Edge { from: place, step })?;
        place = u64::from(step.target);
    }
    Ok(Some(edges))
}

fn step_at(task: &Task, plan: &Plan, nodes: &[Node], place: u64, next: &Move) -> Option<Step>
    ensures { option_map step_value result
        ≡ step_of_move (map (node_value (fluent_count task.now)) nodes.now)
        (rule_actions (plain_of plan.now)) place (move_value next.now) }
{
    // The task is read for its bound on fluents alone.
    let _bound = task.fluents.len();
    let action = rule_action(plan, next.rule)?;
    let node = nodes.get(place as usize)?;
    step_by(action, next.outcome, &node.steps)
}

#[tactic(auto, using(crate::proofs::Taken::fused))]
fn rule_action(plan: &Plan, number: u64) -> Option<ActionId>
    ensures { option_map (λ action. action.0) result
        ≡ slice_get (rule_actions (plain_of plan.now)) number }
{
    match plan {
        Plan::Table(table) => table_action(&table.rules, number),
        Plan::Auto(automaton) => automaton_action(&automaton.rules, number),
    }
}

fn table_action(rules: &[Rule], number: u64) -> Option<ActionId>
    ensures { option_map (λ action. action.0) result
        ≡ slice_get (map (λ rule. (rule_of rule).action) rules.now) number }
{
    match rules.get(number as usize) {
        Some(rule) => Some(rule.action),
        None => None,
    }
}

/// The action of the rule of a number in a plan with contexts.
fn automaton_action(rules: &[AutoRule], number: u64) -> Option<ActionId>
    ensures { option_map (λ action. action.0) result
        ≡ slice_get (map (λ rule. (context_rule_of rule).action) rules.now) number }
{
    match rules.get(number as usize) {
        Some(rule) => Some(rule.action),
        None => None,
    }
}

fn step_by(action: ActionId, outcome: u64, steps: &[Step]) -> Option<Step>
    ensures { option_map step_value result ≡ step_among action.0 outcome (map step_value steps.now) }
{
    for step in steps {
        if step.action == action && u64::from(step.outcome) == outcome {
            return Some(*step);
        }
    }
    None
}

/// Whether a run that repeats from a move ends where it was before that move.
fn comes_round(cycle_from: Option<u64>, place: u64, edges: &[Edge]) -> bool
    ensures { result ≡ round_comes cycle_from place (map edge_value edges.now) }
{
    match cycle_from {
        Some(number) => match edges.get(number as usize) {
            Some(edge) => edge.from == end_of(place, edges),
            None => false,
        },
        None => true,
    }
}

/// Where a run ends that begins at a place.
fn end_of(place: u64, edges: &[Edge]) -> u64
    ensures { result ≡ end_along place (map edge_value edges.now) }
{
    let mut place = place;
    for edge in edges {
        place = u64::from(edge.step.target);
    }
    place
}
