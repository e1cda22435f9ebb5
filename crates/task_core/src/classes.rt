//! The classes of plans.

/// How sure a plan is to reach the goal, in a world where actions may have several outcomes
/// (Cimatti, Pistore, Roveri and Traverso 2003).
#[derive(Clone, Copy, Debug, PartialEq, Eq)]
pub enum Class {
    /// It may: from each initial state some execution ends in the goal.
    Weak,
    /// It is sure to, in a number of steps that is bounded.
    Strong,
    /// It is sure to where no outcome that may come is left out for ever.
    Cyclic,
}
