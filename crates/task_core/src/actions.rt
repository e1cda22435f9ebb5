//! Actions and what they may do.

use crate::{Cond, Lit, State};
use std::rc::RcStr;

/// What one part of an outcome does: where `cond` holds in the old state, each of `lits` adds its
/// fluent (makes it true) or deletes it (makes it false). A change without literals does nothing.
#[derive(Debug, Drop)]
pub struct Change {
    pub cond: Cond,
    pub lits: Vec<Lit>,
}

/// One thing that an action may do. Every condition is read in the old state; a fluent that is both
/// added and deleted becomes true, and one that is neither keeps its value.
#[derive(Debug, Drop)]
pub struct Outcome {
    pub changes: Vec<Change>,
}

/// An action without parameters: its name as a list of words, where it can be executed, and what it
/// may do, outcomes numbered from 0. A word that many names have can be one text, which they share.
#[derive(Debug, Drop)]
pub struct GroundAction {
    pub name: Vec<RcStr>,
    pub exec: Cond,
    pub outcomes: Vec<Outcome>,
}

/// One of the ways that an uncertain entry may turn out: its literals are applied to a state, and a
/// fluent that is both added and deleted becomes true.
#[derive(Debug, Drop)]
pub struct Alternative {
    pub lits: Vec<Lit>,
}

/// What is known of the initial states. They begin with the one state `facts`. Each entry in its
/// order gives, for each state so far, the states with one of its alternatives applied; so a later
/// entry overrides an earlier one and the facts.
#[derive(Debug, Drop)]
pub struct InitSpec {
    pub facts: State,
    pub entries: Vec<Vec<Alternative>>,
}
