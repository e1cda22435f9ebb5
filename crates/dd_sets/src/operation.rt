//! Operations on slots.

use crate::SetId;
use task_core::FluentId;

/// An operation on the sets of live slots.
#[derive(Clone, Copy, Debug)]
pub enum Operation<'a> {
    /// The lists in which a fluent is true.
    Variable(FluentId),
    /// The lists that are not in a set.
    Not(SetId),
    /// The lists that are in both sets.
    And(SetId, SetId),
    /// The lists that are in one of two sets.
    Or(SetId, SetId),
    /// The lists that are in the first set and not in the second.
    Minus(SetId, SetId),
    /// The lists that are in a set once a fluent has the value.
    Cofactor(SetId, FluentId, bool),
    /// The lists that are in a set once each listed fluent has the truth of its set.
    Subst(SetId, &'a [(FluentId, SetId)]),
}
