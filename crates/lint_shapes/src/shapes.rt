//! The shapes of groups.

use pddl_ast::{PredicateId, TypeId};
use task_core::State;

/// What stands at a place of an atom.
#[derive(Clone, Copy, Debug, PartialEq, Eq)]
pub enum Slot {
    /// The free variable with this number.
    Free(usize),
    /// Any object of this type.
    Counted(TypeId),
}

/// Atoms of a predicate: what stands at each of its places.
#[derive(Debug, Drop)]
pub struct Part {
    pub predicate: PredicateId,
    pub slots: Vec<Slot>,
}

/// A group for each choice of objects for the free variables, which have these types: the atoms of all
/// parts.
#[derive(Debug, Drop)]
pub struct Shape {
    pub free: Vec<TypeId>,
    pub parts: Vec<Part>,
}

/// A shape, and its groups: for each choice of objects for its free variables the fluents that the
/// parts name, except where all of these atoms are constant.
#[derive(Debug, Drop)]
pub struct OneOf {
    pub shape: Shape,
    pub groups: Vec<State>,
}
