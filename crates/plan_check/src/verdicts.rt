//! Verdicts on plans.

/// Why a plan is no plan of its class. The reasons stand in the order in which they are tried.
#[derive(Clone, Copy, Debug, PartialEq, Eq)]
pub enum Reason {
    /// A rule counts in a configuration that the plan may reach, and its action can't be executed
    /// there.
    Unexecutable,
    /// A plan with contexts doesn't go on in a configuration that it may reach. No table has it.
    Stuck,
    /// An execution may end outside the goal.
    Terminal,
    /// An execution may come round.
    Cycle,
    /// The goal, or the end of an execution, is out of reach.
    Unreachable,
    /// An initial configuration fails the goal formula. No table has it.
    Formula,
}

/// What a check finds of a plan.
#[derive(Clone, Copy, Debug, PartialEq, Eq)]
pub enum Verdict {
    /// The plan is one of the class, or meets the goal. For the strong class `bound` is the number
    /// of steps of the longest execution from an initial state, and 0 where there is no initial
    /// state; for the others it is `None`.
    Yes { bound: Option<u64> },
    /// The plan is none of the class, or doesn't meet the goal, for this reason before all others.
    No(Reason),
}
