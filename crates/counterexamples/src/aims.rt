//! What a run is to show.

ghost use Rattle.counterexamples.specs.Aims.{
  class_aim as aim_of_class,
  context_aim as aim_of_contexts,
};
ghost use Rattle.std.specs.Prelude.{◌≡◌, ◌↔◌, true};

use plan_check::{Reason, Verdict};
use task_core::Class;

/// What a run is to show for a verdict on a plan.
#[derive(Clone, Copy, Debug, PartialEq, Eq)]
pub(crate) enum Aim {
    /// No run shows it.
    Nothing,
    /// The plan ends in the goal.
    Inside,
    /// The plan ends outside the goal.
    Outside,
    /// A rule counts whose action can't be executed.
    Bad,
    /// A plan with contexts doesn't go on.
    Unfinished,
    /// A run comes back to where it was.
    Round,
    /// No run from an initial state ends in the goal.
    Lost,
    /// No run ends from there on.
    Endless,
}

/// What shows a verdict on a table as a plan of a class.
pub(crate) fn class_aim(class: Class, verdict: &Verdict) -> Aim
    ensures { result ≡ aim_of_class class verdict.now }
{
    match verdict {
        Verdict::Yes { bound: _ } => Aim::Inside,
        Verdict::No(reason) => match (reason, class) {
            (Reason::Unexecutable, _) => Aim::Bad,
            (Reason::Terminal, _) => Aim::Outside,
            (Reason::Cycle, _) => Aim::Round,
            (Reason::Unreachable, Class::Weak) => Aim::Lost,
            (Reason::Unreachable, Class::Cyclic) => Aim::Endless,
            _ => Aim::Nothing,
        },
    }
}

/// What shows a verdict on a plan with contexts.
pub(crate) fn context_aim(verdict: &Verdict) -> Aim
    ensures { result ≡ aim_of_contexts verdict.now }
{
    match verdict {
        Verdict::Yes { bound: _ } => Aim::Round,
        Verdict::No(Reason::Unexecutable) => Aim::Bad,
        Verdict::No(Reason::Stuck) => Aim::Unfinished,
        _ => Aim::Nothing,
    }
}

/// Whether a run is to come back to where it was.
pub(crate) fn is_round(aim: Aim) -> bool
    ensures { (result ≡ true) ↔ (aim ≡ Aim.Round) }
{
    aim == Aim::Round
}
