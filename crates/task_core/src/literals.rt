//! The numbers of fluents and actions, and literals.

/// The number of a fluent of a task, counted from 0.
#[derive(Clone, Copy, Debug, PartialEq, Eq)]
pub struct FluentId(pub u32);

/// The number of an action of a task, counted from 0.
#[derive(Clone, Copy, Debug, PartialEq, Eq)]
pub struct ActionId(pub u32);

/// A fluent that is true, or one that is false. As a part of an outcome it adds or deletes the
/// fluent.
#[derive(Clone, Copy, Debug, PartialEq, Eq)]
pub struct Lit {
    pub fluent: FluentId,
    pub positive: bool,
}
