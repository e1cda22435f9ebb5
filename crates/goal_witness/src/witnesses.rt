//! Why a plan with contexts misses a goal.

ghost use Rattle.std.specs.Prelude.{◌≡◌, ◌<◌, ◌++◌, IfNone, IfOk, IfSome, OnOk, false, length, true, ℕ};
ghost use Rattle.ctl_syntax.specs.Values.{NamesBelow, ctl_value};
ghost use Rattle.exec_graph.specs.Values.{IsWithinFluents, graph_size};
ghost use Rattle.plan_check.specs.Labels.{HasFollowers};
ghost use Rattle.plan_check.specs.Plain.{HasMarkedStarts, is_initial_at};
ghost use Rattle.plan_rules.specs.Plans.{IsPlanOf};
ghost use Rattle.plan_rules.specs.Rules.{plain_of};
ghost use Rattle.plan_witness.specs.Marked.{IsGraphIn};
ghost use Rattle.ctl_syntax.specs.Goals.{CtlTree};
ghost use Rattle.task_core.specs.States.{IsWithin};
ghost use Rattle.task_core.specs.Tasks.{action_count, fluent_count, system_of};
ghost use Rattle.task_core.specs.declared.conditions.Cond.{Cond};
ghost use Rattle.task_core.specs.declared.tasks.Task.{Task};
ghost use Rattle.goal_witness.specs.Failing.{FailsFrom};
ghost use Rattle.goal_witness.specs.Links.{back_in, back_steps, how_value, links_value, stem_in, stem_steps};
ghost use Rattle.plan_witness.specs.Values.{steps_value};
ghost use Rattle.goal_witness.specs.Scenes.{IsFalseAtNumber, IsScene, plan_in, sys_in};
ghost use Rattle.goal_witness.specs.Walks.{Lacks};
ghost use Rattle.goal_witness.specs.Witnesses.{IsWitness, MissesGoal, witness_value};

use crate::failing::{Failing, failing_at, label_of};
use crate::links::{How, Link};
use ctl_syntax::Ctl;
use exec_graph::{Graph, Steps};
use plan_check::is_marked;
use plan_rules::Plan;
use plan_witness::{Run, RunStep, Scene};
use std::alloc::{AllocError, Global};
use std::marker::Brand;
use std::sync::ledger::{Blank, Ledger};
use task_core::{State, Task};

/// Why a goal is false: a run, after how many steps it is where it comes back to, and the parts of the goal
/// that fail on it, each after the one in which it stands. A run that doesn't come back has no more steps.
#[derive(Drop)]
pub struct Witness<'a> {
    pub run: Run,
    pub stem: usize,
    pub links: Vec<Link<'a>>,
}

/// Why a plan with contexts misses a goal, read off its graph; `None` where it meets the goal, where it
/// can't be followed or doesn't go on, and for a table.
pub fn goal_witness<'a>(
    alloc: Global,
    task: &Task,
    plan: &Plan,
    graph: &Graph,
    goal: &'a Ctl,
) -> Result<Option<Witness<'a>>, AllocError>
    requires plan { IsPlanOf (fluent_count task.now) (action_count task.now) plan.now }
    requires graph { IsGraphIn task.now plan.now graph.now }
    requires within { IsWithinFluents (fluent_count task.now) graph.now }
    requires names { NamesBelow (fluent_count task.now) (ctl_value goal.now) }
    ensures witness { let n = fluent_count task.now in IfOk result (λ found. IfSome found (λ witness.
        IsWitness (system_of task.now) (plain_of plan.now) (ctl_value goal.now)
        (witness_value n witness))) }
    ensures within { IfOk result (λ found. IfSome found (λ witness.
        IsWithin (fluent_count task.now) witness.run.start)) }
    ensures none { IfOk result (λ found. IfNone found
        (MissesGoal (system_of task.now) (plain_of plan.now) (ctl_value goal.now) → ⊥)) }
{
    if !goes_on(plan, graph) {
        return Ok(None);
    }
    let scene = Scene { task, plan, graph };
    witness_in::<Brand>(alloc, &scene, goal, Blank::new(1))
}

/// Whether a plan with contexts can always be executed, and goes on.
fn goes_on(plan: &Plan, graph: &Graph) -> bool
    ensures followers { (task : Task) → IsGraphIn task plan.now graph.now → result ≡ true
        → HasFollowers graph.now }
    ensures complete { (task : Task) (goal : CtlTree Cond) → IsGraphIn task plan.now graph.now
        → MissesGoal (system_of task) (plain_of plan.now) goal → result ≡ true }
{
    match plan {
        Plan::Table(_) => false,
        Plan::Auto(_) => is_followed(graph),
    }
}

/// Whether no rule counts that can't be followed, and none is missing.
fn is_followed(graph: &Graph) -> bool
    ensures unexecutable { result ≡ true → graph.now.unexecutable ≡ false }
    ensures stuck { result ≡ true → graph.now.stuck ≡ false }
    ensures all { graph.now.unexecutable ≡ false → graph.now.stuck ≡ false → result ≡ true }
{
    if graph.unexecutable() {
        return false;
    }
    !graph.stuck()
}

/// The same, with the steps counted in a new ledger.
fn witness_in<'a, L: Ledger>(
    alloc: Global,
    scene: &Scene<'_>,
    goal: &'a Ctl,
    blank: Blank,
) -> Result<Option<Witness<'a>>, AllocError>
    requires scene { IsScene scene.now }
    requires names { NamesBelow (fluent_count scene.now.task.now) (ctl_value goal.now) }
    requires name { blank.name ≡ L.name }
    requires parts { blank.parts ≡ L.parts }
    requires some { 0 < blank.parts }
    ensures witness { let n = fluent_count scene.now.task.now in
        IfOk result (λ found. IfSome found (λ witness.
        IsWitness (sys_in scene.now) (plan_in scene.now) (ctl_value goal.now)
        (witness_value n witness))) }
    ensures within { IfOk result (λ found. IfSome found (λ witness.
        IsWithin (fluent_count scene.now.task.now) witness.run.start)) }
    ensures none { IfOk result (λ found. IfNone found
        (MissesGoal (sys_in scene.now) (plan_in scene.now) (ctl_value goal.now) → ⊥)) }
{
    let mut steps = Steps::<L>::new(blank);
    let marks = label_of(alloc, scene, goal, &mut steps)?;
    match first_missing(scene.graph, &marks) {
        Some(number) => {
            let links = links_from(alloc, scene, goal, number, &mut steps)?;
            let witness = along(alloc, *scene.graph.state(number), links)?;
            Ok(Some(witness))
        }
        None => Ok(None),
    }
}

/// The run along some parts from a state.
fn along<'a>(alloc: Global, start: State, links: Vec<Link<'a>>) -> Result<Witness<'a>, AllocError>
    ensures start { IfOk result (λ witness. witness.run.start ≡ start) }
    ensures links { IfOk result (λ witness. witness.links.items ≡ links.entry.items) }
    ensures steps { (n : ℕ) → IfOk result (λ witness. steps_value n witness.run.steps.items
        ≡ stem_steps (links_value n links.entry.items)
        ++ back_steps (links_value n links.entry.items)) }
    ensures stem { (n : ℕ) → IfOk result (λ witness.
        witness.stem ≡ length (stem_steps (links_value n links.entry.items))) }
{
    let mut steps = stems_of(alloc, &links)?;
    let stem = steps.len();
    push_backs(&mut steps, &links)?;
    Ok(Witness {
        run: Run { start, steps },
        stem,
        links,
    })
}

/// The steps of some parts, without those that lead back.
fn stems_of(alloc: Global, links: &[Link<'_>]) -> Result<Vec<RunStep>, AllocError>
    ensures { (n : ℕ) → IfOk result (λ steps.
        steps_value n steps.items ≡ stem_steps (links_value n links.now)) }
{
    let mut steps = Vec::new(alloc);
    for link in links {
        push_stem(&mut steps, &link.how)?;
    }
    Ok(steps)
}

/// Adds the steps of a part, without those that lead back.
fn push_stem(steps: &mut Vec<RunStep>, how: &How) -> Result<(), AllocError>
    ensures { (n : ℕ) → OnOk result (steps_value n steps.new.items
        ≡ steps_value n steps.old.items ++ stem_in (how_value n how.now)) }
{
    match how {
        How::False => Ok(()),
        How::Way(way) => steps.extend_from_slice(way),
        How::Lasso(stem, _) => steps.extend_from_slice(stem),
    }
}

/// Adds the steps that lead back.
fn push_backs(steps: &mut Vec<RunStep>, links: &[Link<'_>]) -> Result<(), AllocError>
    ensures { (n : ℕ) → OnOk result (steps_value n steps.new.items
        ≡ steps_value n steps.old.items ++ back_steps (links_value n links.now)) }
{
    for link in links {
        push_back(steps, &link.how)?;
    }
    Ok(())
}

/// Adds the steps of a part that lead back.
fn push_back(steps: &mut Vec<RunStep>, how: &How) -> Result<(), AllocError>
    ensures { (n : ℕ) → OnOk result (steps_value n steps.new.items
        ≡ steps_value n steps.old.items ++ back_in (how_value n how.now)) }
{
    match how {
        How::Lasso(_, back) => steps.extend_from_slice(back),
        _ => Ok(()),
    }
}

/// The first configuration in which an execution may begin and that has no mark.
fn first_missing(graph: &Graph, marks: &[bool]) -> Option<u32>
    requires { length marks.now ≡ graph_size graph.now }
    ensures below { IfSome result (λ i. i < graph_size graph.now) }
    ensures initial { IfSome result (λ i. is_initial_at graph.now i ≡ true) }
    ensures lacks { IfSome result (Lacks marks.now) }
    ensures none { IfNone result (HasMarkedStarts graph.now marks.now) }
{
    for i in 0..graph.len() {
        if graph.initial(i) && !is_marked(marks, i) {
            return Some(i);
        }
    }
    None
}

/// The parts that show why a goal is false at the configuration of a number.
fn links_from<'a, L: Ledger>(
    alloc: Global,
    scene: &Scene<'_>,
    goal: &'a Ctl,
    number: u32,
    steps: &mut Steps<L>,
) -> Result<Vec<Link<'a>>, AllocError>
    requires scene { IsScene scene.now }
    requires fails { IsFalseAtNumber scene.now (ctl_value goal.now) number }
    ensures { let n = fluent_count scene.now.task.now in IfOk result (λ links.
        FailsFrom scene.now (ctl_value goal.now) number (links_value n links.items)) }
{
    let mut links = Vec::new(alloc);
    let mut part = goal;
    let mut at = number;
    'inside: loop {
        match failing_at(alloc, scene, part, at, steps)? {
            Failing::Ends(how) => {
                links.push(Link { part, how })?;
                return Ok(links);
            }
            Failing::Leads(how, inside, next) => {
                links.push(Link { part, how })?;
                part = inside;
                at = next;
            }
        }
    }
}
