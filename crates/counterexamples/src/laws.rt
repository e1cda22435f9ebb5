//! That a run shows a verdict. The laws are contracts of functions that do nothing.

ghost use Rattle.counterexamples.specs.Shown.{
  ContextFailuresAreShown,
  ContextPlansNeverEnd,
  FailuresAreShown,
};

/// Where a plan is none of its class for a reason, the plan may reach what shows that reason; and so may a
/// plan with contexts, but where the reason is the goal in computation tree logic.
pub fn failures_are_shown()
    ensures tables { FailuresAreShown }
    ensures contexts { ContextFailuresAreShown }
{}

/// No run of a plan with contexts that is a yes ends. So a run that comes back shows it.
pub fn context_plans_never_end()
    ensures { ContextPlansNeverEnd }
{}
