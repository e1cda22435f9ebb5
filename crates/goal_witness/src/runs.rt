//! Runs of a plan along ways on which a goal fails.

ghost use Rattle.std.specs.Prelude.{◌≡◌, ◌<◌, ◌∷◌, [], IfNone, IfOk, IfSome, length, true};
ghost use Rattle.ctl_syntax.specs.Paths.{EveryPathMeets};
ghost use Rattle.exec_graph.specs.Values.{followers_at};
ghost use Rattle.plan_check.specs.Labels.{ComesAfter, mark_at};
ghost use Rattle.plan_check.specs.Walks.{IsWalk};
ghost use Rattle.plan_witness.specs.Values.{steps_value};
ghost use Rattle.task_core.specs.Tasks.{fluent_count};
ghost use Rattle.goal_witness.specs.Scenes.{IsScene, size_in};
ghost use Rattle.goal_witness.specs.Walks.{
  IsAlong,
  IsLassoFound,
  IsRoundWithout,
  IsWayFound,
  Lacks,
  NoneWithout,
};

use crate::rounds::{WayBack, lasso_from};
use crate::shortest::shortest_way;
use crate::zones::Zone;
use exec_graph::Steps;
use plan_check::{Along, Join, Need, joined, negated, spread};
use plan_witness::{RunStep, Scene, only_mark, steps_along};
use std::alloc::{AllocError, Global};
use std::sync::ledger::Ledger;

/// The steps of a way, and the number in which it ends.
#[derive(Drop)]
pub(crate) struct Reached {
    pub(crate) steps: Vec<RunStep>,
    pub(crate) end: u32,
}

/// The steps of a way, and those by which it comes back to its end.
#[derive(Drop)]
pub(crate) struct Lasso {
    pub(crate) stem: Vec<RunStep>,
    pub(crate) back: Vec<RunStep>,
}

/// Two marks for each number.
#[derive(Clone, Copy)]
pub(crate) struct Sides<'a> {
    pub(crate) left: &'a [bool],
    pub(crate) right: &'a [bool],
}

/// A shortest run from a number, through those that lack the second mark, to one that lacks both;
/// `None` where there is none.
pub(crate) fn way_without<L: Ledger>(
    alloc: Global,
    scene: &Scene<'_>,
    sides: Sides<'_>,
    number: u32,
    steps: &mut Steps<L>,
) -> Result<Option<Reached>, AllocError>
    requires scene { IsScene scene.now }
    requires left { length sides.left.now ≡ size_in scene.now }
    requires right { length sides.right.now ≡ size_in scene.now }
    requires number { number < size_in scene.now }
    requires lacks { Lacks sides.right.now number }
    ensures some { let n = fluent_count scene.now.task.now in
        IfOk result (λ found. IfSome found (λ reached. IsWayFound scene.now sides.entry.left.now sides.entry.right.now number
        (steps_value n reached.steps.items) reached.end)) }
    ensures none { IfOk result (λ found. IfNone found
        (NoneWithout (followers_at scene.now.graph.now) sides.entry.right.now (Lacks sides.entry.left.now) number)) }
{
    let inside = negated(alloc, sides.right)?;
    let ends = joined(alloc, Join::Neither, sides.left, sides.right)?;
    let only = only_mark(alloc, scene.graph, number)?;
    let zone = Zone {
        graph: scene.graph,
        inside: &inside,
    };
    match shortest_way(alloc, &zone, &only, &ends, steps)? {
        Some(way) => {
            let taken = steps_of(alloc, scene, number, &way.numbers)?;
            Ok(Some(Reached {
                steps: taken,
                end: way.end,
            }))
        }
        None => Ok(None),
    }
}

/// The steps along a way from a number.
fn steps_of(
    alloc: Global,
    scene: &Scene<'_>,
    start: u32,
    numbers: &[u32],
) -> Result<Vec<RunStep>, AllocError>
    requires scene { IsScene scene.now }
    requires start { start < size_in scene.now }
    requires walk { IsWalk (followers_at scene.now.graph.now) start numbers.now }
    ensures { let n = fluent_count scene.now.task.now in IfOk result (λ steps.
        IsAlong scene.now start numbers.now (steps_value n steps.items)) }
{
    let steps = steps_along(alloc, scene, start, numbers)?;
    Ok(Vec::from(steps))
}

/// The step from a number to one that follows it.
pub(crate) fn step_to(
    alloc: Global,
    scene: &Scene<'_>,
    start: u32,
    next: u32,
) -> Result<Vec<RunStep>, AllocError>
    requires scene { IsScene scene.now }
    requires start { start < size_in scene.now }
    requires follows { ComesAfter scene.now.graph.now start next }
    ensures { let n = fluent_count scene.now.task.now in IfOk result (λ steps.
        IsAlong scene.now start (next ∷ []) (steps_value n steps.items)) }
{
    let mut numbers = Vec::new(alloc);
    numbers.push(next)?;
    steps_of(alloc, scene, start, &numbers)
}

/// A shortest run from a number, through those that lack a mark, to one from which such a run comes back,
/// and a shortest run back; `None` where there is none.
fn lasso_without<L: Ledger>(
    alloc: Global,
    scene: &Scene<'_>,
    right: &[bool],
    number: u32,
    steps: &mut Steps<L>,
) -> Result<Option<Lasso>, AllocError>
    requires scene { IsScene scene.now }
    requires right { length right.now ≡ size_in scene.now }
    requires number { number < size_in scene.now }
    requires lacks { Lacks right.now number }
    ensures some { let n = fluent_count scene.now.task.now in
        IfOk result (λ found. IfSome found (λ lasso. IsLassoFound scene.now right.now number
        (steps_value n lasso.stem.items) (steps_value n lasso.back.items))) }
    ensures none { IfOk result (λ found. IfNone found
        (NoneWithout (followers_at scene.now.graph.now) right.now
        (IsRoundWithout (followers_at scene.now.graph.now) right.now) number)) }
{
    let inside = negated(alloc, right)?;
    let zone = Zone {
        graph: scene.graph,
        inside: &inside,
    };
    match lasso_from(alloc, &zone, number, steps)? {
        Some(lasso) => {
            let stem = steps_of(alloc, scene, number, &lasso.stem.numbers)?;
            let back = steps_back(alloc, scene, &lasso)?;
            Ok(Some(Lasso { stem, back }))
        }
        None => Ok(None),
    }
}

fn steps_back(alloc: Global, scene: &Scene<'_>, lasso: &WayBack) -> Result<Vec<RunStep>, AllocError>
    requires scene { IsScene scene.now }
    requires end { lasso.now.stem.end < size_in scene.now }
    requires walk { IsWalk (followers_at scene.now.graph.now) lasso.now.stem.end
        (lasso.now.back.start ∷ lasso.now.back.numbers.items) }
    ensures { let n = fluent_count scene.now.task.now in IfOk result (λ steps.
        IsAlong scene.now lasso.now.stem.end (lasso.now.back.start ∷ lasso.now.back.numbers.items)
        (steps_value n steps.items)) }
{
    let mut numbers = Vec::new(alloc);
    numbers.push(lasso.back.start)?;
    numbers.extend_from_slice(&lasso.back.numbers)?;
    steps_of(alloc, scene, lasso.stem.end, &numbers)
}

/// A lasso through numbers that lack the second mark, where not each path comes to it through those that
/// have the first, and none comes to a number that lacks both.
pub(crate) fn endless<L: Ledger>(
    alloc: Global,
    scene: &Scene<'_>,
    sides: Sides<'_>,
    number: u32,
    steps: &mut Steps<L>,
) -> Result<Lasso, AllocError>
    requires scene { IsScene scene.now }
    requires left { length sides.left.now ≡ size_in scene.now }
    requires right { length sides.right.now ≡ size_in scene.now }
    requires number { number < size_in scene.now }
    requires none { NoneWithout (followers_at scene.now.graph.now) sides.right.now (Lacks sides.left.now) number }
    requires misses { EveryPathMeets (ComesAfter scene.now.graph.now) (λ i. mark_at sides.left.now i ≡ true)
        (λ i. mark_at sides.right.now i ≡ true) number → ⊥ }
    ensures { let n = fluent_count scene.now.task.now in IfOk result (λ lasso.
        IsLassoFound scene.now sides.entry.right.now number (steps_value n lasso.stem.items)
        (steps_value n lasso.back.items)) }
{
    let mut whole = Vec::from_slice(alloc, sides.right)?;
    let along = Along {
        graph: scene.graph,
        need: Need::Each,
        guard: sides.left,
    };
    spread(alloc, &along, &mut whole, steps)?;
    match lasso_without(alloc, scene, sides.right, number, steps)? {
        Some(lasso) => Ok(lasso),
        None => Ok(Lasso {
            stem: Vec::new(alloc),
            back: Vec::new(alloc),
        }),
    }
}
