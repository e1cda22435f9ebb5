//! The steps of a picture that are on a run.

ghost use Rattle.plan_picture.specs.Labels.{is_marked as has_mark};
ghost use Rattle.plan_picture.specs.Pictures.{PlainStep};
ghost use Rattle.plan_picture.specs.Texts.{is_on, is_step_of};
ghost use Rattle.plan_picture.specs.Values.{edge_value, step_value};
ghost use Rattle.std.specs.Prelude.{◌≡◌, ◌||◌, IfOk, OnOk, map, ℕ};

use crate::pictures::Step;
use crate::runs::Edge;
use indexmap::IndexSet;
use std::alloc::{AllocError, Global};

/// What tells a step from the others of a picture: the number of its node, its action and its outcome.
#[derive(Clone, Copy, PartialEq, Eq, Hash)]
pub(crate) struct Mark {
    from: u64,
    action: u32,
    outcome: u32,
}

/// The marks of the steps that are on a run with these edges.
pub(crate) fn marks_of(alloc: Global, edges: &[Edge]) -> Result<IndexSet<Mark>, AllocError>
    ensures { IfOk result (λ marks. (number : ℕ) (step : PlainStep)
        → has_mark marks.keys number step ≡ is_on (map edge_value edges.now) number step) }
{
    let mut marks = IndexSet::new(alloc);
    for edge in edges {
        add_mark(&mut marks, edge)?;
    }
    Ok(marks)
}

fn add_mark(marks: &mut IndexSet<Mark>, edge: &Edge) -> Result<(), AllocError>
    ensures { OnOk result ((number : ℕ) (step : PlainStep)
        → has_mark marks.new.keys number step
        ≡ (has_mark marks.old.keys number step || is_step_of number step (edge_value edge.now))) }
{
    marks.insert(mark_of(edge.from, &edge.step))?;
    Ok(())
}

fn mark_of(number: u64, step: &Step) -> Mark
    ensures from { result.from ≡ number }
    ensures action { result.action ≡ step.now.action.0 }
    ensures outcome { result.outcome ≡ step.now.outcome }
{
    Mark {
        from: number,
        action: step.action.0,
        outcome: step.outcome,
    }
}

pub(crate) fn is_marked(marks: &IndexSet<Mark>, number: u64, step: &Step) -> bool
    ensures { result ≡ has_mark marks.now.keys number (step_value step.now) }
{
    marks.contains(&mark_of(number, step))
}
