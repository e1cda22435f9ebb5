//! How one part of a goal fails.

ghost use Rattle.std.specs.Prelude.{◌≡◌, ◌<◌, IfNone, IfOk, IfSome, false, length, map, true, ℕ};
ghost use Rattle.ctl_syntax.specs.Goals.{af, ag, all, ax, goal_row};
ghost use Rattle.ctl_syntax.specs.Values.{NamesBelow, ctl_value};
ghost use Rattle.exec_graph.specs.Values.{graph_size};
ghost use Rattle.plan_check.specs.Labels.{ComesAfter, ShowsGoal, mark_at};
ghost use Rattle.plan_check.specs.Plain.{HasFollowersInside};
ghost use Rattle.task_core.specs.Tasks.{fluent_count};
ghost use Rattle.goal_witness.specs.Failing.{IsFailing, until_of};
ghost use Rattle.goal_witness.specs.Scenes.{IsFalseAtNumber, IsScene};
ghost use Rattle.goal_witness.specs.Walks.{Lacks};

use crate::links::How;
use crate::runs::{Sides, endless, step_to, way_without};
use ctl_syntax::Ctl;
use exec_graph::{Graph, Steps};
use plan_check::{is_marked, labels, same_label};
use plan_witness::Scene;
use std::alloc::{AllocError, Global};
use std::sync::ledger::Ledger;

/// How a part of a goal fails.
#[derive(Drop)]
pub(crate) enum Failing<'a> {
    /// So, and no part after it is told.
    Ends(How),
    /// So, and then this part fails at the configuration of this number.
    Leads(How, &'a Ctl, u32),
}

/// Two parts of a goal, the first of which is to hold until the second does; or, where they are weak, for
/// ever.
#[derive(Clone, Copy)]
struct Pair<'a> {
    left: &'a Ctl,
    right: &'a Ctl,
    weak: bool,
}

pub(crate) fn failing_at<'a, L: Ledger>(
    alloc: Global,
    scene: &Scene<'_>,
    goal: &'a Ctl,
    number: u32,
    steps: &mut Steps<L>,
) -> Result<Failing<'a>, AllocError>
    requires scene { IsScene scene.now }
    requires fails { IsFalseAtNumber scene.now (ctl_value goal.now) number }
    ensures { IfOk result (IsFailing scene.now (ctl_value goal.now) number) }
{
    match goal {
        Ctl::All(parts) => false_part(alloc, scene, parts, number, steps),
        Ctl::Imply(_, right) => Ok(Failing::Leads(How::Way(Vec::new(alloc)), right, number)),
        Ctl::Ax(part) => false_next(alloc, scene, part, number, steps),
        Ctl::Ag(part) => false_later(alloc, scene, part, number, steps),
        Ctl::Af(part) => false_always(alloc, scene, part, number, steps),
        Ctl::Au(left, right) => {
            let parts = Pair {
                left,
                right,
                weak: false,
            };
            false_until(alloc, scene, parts, number, steps)
        }
        Ctl::Aw(left, right) => {
            let parts = Pair {
                left,
                right,
                weak: true,
            };
            false_until(alloc, scene, parts, number, steps)
        }
        Ctl::Plain(_) => Ok(Failing::Ends(How::False)),
        Ctl::Not(_) => Ok(Failing::Ends(How::False)),
        Ctl::Any(_) => Ok(Failing::Ends(How::False)),
        Ctl::Ex(_) => Ok(Failing::Ends(How::False)),
        Ctl::Ef(_) => Ok(Failing::Ends(How::False)),
        Ctl::Eg(_) => Ok(Failing::Ends(How::False)),
        Ctl::Eu(_, _) => Ok(Failing::Ends(How::False)),
        Ctl::Ew(_, _) => Ok(Failing::Ends(How::False)),
    }
}

pub(crate) fn label_of<L: Ledger>(
    alloc: Global,
    scene: &Scene<'_>,
    goal: &Ctl,
    steps: &mut Steps<L>,
) -> Result<Vec<bool>, AllocError>
    requires scene { IsScene scene.now }
    requires names { NamesBelow (fluent_count scene.now.task.now) (ctl_value goal.now) }
    ensures { let n = fluent_count scene.now.task.now in
        IfOk result (λ marks. ShowsGoal n scene.now.graph.now (ctl_value goal.now) marks.items) }
{
    labels(alloc, scene.graph, goal, steps)
}

/// How a conjunction fails: by its first part that is false.
fn false_part<'a, L: Ledger>(
    alloc: Global,
    scene: &Scene<'_>,
    parts: &'a [Ctl],
    number: u32,
    steps: &mut Steps<L>,
) -> Result<Failing<'a>, AllocError>
    requires scene { IsScene scene.now }
    requires fails { IsFalseAtNumber scene.now (all (goal_row (map ctl_value parts.now))) number }
    ensures { IfOk result (IsFailing scene.now (all (goal_row (map ctl_value parts.now))) number) }
{
    for part in parts {
        let marks = label_of(alloc, scene, part, steps)?;
        if !is_marked(&marks, number) {
            return Ok(Failing::Leads(How::Way(Vec::new(alloc)), part, number));
        }
    }
    Ok(Failing::Ends(How::False))
}

/// How a part fails that is to hold next: by a step to where it is false.
fn false_next<'a, L: Ledger>(
    alloc: Global,
    scene: &Scene<'_>,
    part: &'a Ctl,
    number: u32,
    steps: &mut Steps<L>,
) -> Result<Failing<'a>, AllocError>
    requires scene { IsScene scene.now }
    requires fails { IsFalseAtNumber scene.now (ax (ctl_value part.now)) number }
    ensures { IfOk result (IsFailing scene.now (ax (ctl_value part.now)) number) }
{
    let marks = label_of(alloc, scene, part, steps)?;
    match first_without(scene.graph, &marks, number, steps) {
        Some(next) => {
            let way = step_to(alloc, scene, number, next)?;
            Ok(Failing::Leads(How::Way(way), part, next))
        }
        None => Ok(Failing::Ends(How::False)),
    }
}

/// The first number without a mark that follows another.
fn first_without<L: Ledger>(
    graph: &Graph,
    marks: &[bool],
    number: u32,
    steps: &mut Steps<L>,
) -> Option<u32>
    requires inside { HasFollowersInside graph.now }
    requires count { length marks.now ≡ graph_size graph.now }
    requires number { number < graph_size graph.now }
    ensures follows { IfSome result (ComesAfter graph.now number) }
    ensures lacks { IfSome result (Lacks marks.now) }
    ensures none { IfNone result ((j : ℕ) → ComesAfter graph.now number j
        → mark_at marks.now j ≡ true) }
{
    for k in 0..graph.next_len(number) {
        let next = graph.next_at(number, k, steps);
        if !is_marked(marks, next) {
            return Some(next);
        }
    }
    None
}

/// How a part fails that is to hold from now on: by a shortest run to where it is false.
fn false_later<'a, L: Ledger>(
    alloc: Global,
    scene: &Scene<'_>,
    part: &'a Ctl,
    number: u32,
    steps: &mut Steps<L>,
) -> Result<Failing<'a>, AllocError>
    requires scene { IsScene scene.now }
    requires fails { IsFalseAtNumber scene.now (ag (ctl_value part.now)) number }
    ensures { IfOk result (IsFailing scene.now (ag (ctl_value part.now)) number) }
{
    let left = label_of(alloc, scene, part, steps)?;
    let right = same_label(alloc, scene.graph, false)?;
    match way_without(
        alloc,
        scene,
        Sides {
            left: &left,
            right: &right,
        },
        number,
        steps,
    )? {
        Some(reached) => Ok(Failing::Leads(How::Way(reached.steps), part, reached.end)),
        None => Ok(Failing::Ends(How::False)),
    }
}

/// How a part fails that is to come about: by a run on which it is false for ever.
fn false_always<'a, L: Ledger>(
    alloc: Global,
    scene: &Scene<'_>,
    part: &Ctl,
    number: u32,
    steps: &mut Steps<L>,
) -> Result<Failing<'a>, AllocError>
    requires scene { IsScene scene.now }
    requires fails { IsFalseAtNumber scene.now (af (ctl_value part.now)) number }
    ensures { IfOk result (IsFailing scene.now (af (ctl_value part.now)) number) }
{
    let left = same_label(alloc, scene.graph, true)?;
    let right = label_of(alloc, scene, part, steps)?;
    let lasso = endless(
        alloc,
        scene,
        Sides {
            left: &left,
            right: &right,
        },
        number,
        steps,
    )?;
    Ok(Failing::Ends(How::Lasso(lasso.stem, lasso.back)))
}

/// How two parts fail of which the second is to come about, unless they are weak, and until then the first:
/// by a shortest run on which the second is false, to where the first is false too, or by one on which the
/// second is false for ever.
fn false_until<'a, L: Ledger>(
    alloc: Global,
    scene: &Scene<'_>,
    parts: Pair<'a>,
    number: u32,
    steps: &mut Steps<L>,
) -> Result<Failing<'a>, AllocError>
    requires scene { IsScene scene.now }
    requires fails { IsFalseAtNumber scene.now
        (until_of parts.weak (ctl_value parts.left.now) (ctl_value parts.right.now)) number }
    ensures { IfOk result (IsFailing scene.now (until_of parts.entry.weak
        (ctl_value parts.entry.left.now) (ctl_value parts.entry.right.now)) number) }
{
    let left = label_of(alloc, scene, parts.left, steps)?;
    let right = label_of(alloc, scene, parts.right, steps)?;
    let sides = Sides {
        left: &left,
        right: &right,
    };
    match way_without(alloc, scene, sides, number, steps)? {
        Some(reached) => Ok(Failing::Leads(How::Way(reached.steps), parts.left, reached.end)),
        None => {
            if parts.weak {
                return Ok(Failing::Ends(How::False));
            }
            let lasso = endless(alloc, scene, sides, number, steps)?;
            Ok(Failing::Ends(How::Lasso(lasso.stem, lasso.back)))
        }
    }
}
