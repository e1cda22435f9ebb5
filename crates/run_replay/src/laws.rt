//! What holds of every trace. A law is a function that does nothing, so that callers' proofs can cite
//! it.

ghost use Rattle.run_replay.specs.TraceLaws.{EachStepHasItsOutcome, EveryTraceIsAPath};

/// Every trace is a path of its plan: it has at most 1,000,000 steps, numbered from 1; each is made
/// in the state and the context that the one before it led to, with the plan's action there; and
/// the outcome numbers at first are those of its steps, then the stray one where it ends with one,
/// and then those that are left.
pub fn traces_are_paths()
    ensures { EveryTraceIsAPath }
{}

/// Each step of a trace in a task leads to one of the states to which its action leads: the one of
/// its outcome's number among all outcomes of the action.
pub fn steps_have_their_outcomes()
    ensures { EachStepHasItsOutcome }
{}
