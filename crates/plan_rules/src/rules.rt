//! The plans.

use sexpr_text::Place;
pub use task_core::Class;
use task_core::{ActionId, Lit};

/// In each state that the cube matches, take the action.
#[derive(Debug, Drop)]
pub struct Rule {
    /// The literals that a state has to have, in rising order of their fluents in a printed plan.
    pub cube: Vec<Lit>,
    pub action: ActionId,
}

/// A plan without memory: its class, and its rules in order.
#[derive(Debug, Drop)]
pub struct TablePlan {
    pub class: Class,
    pub rules: Vec<Rule>,
}

/// Where the cube matches the new state, go on in this context.
#[derive(Debug, Drop)]
pub struct Case {
    pub cube: Vec<Lit>,
    pub context: u32,
}

/// The context in which a plan goes on: always the same one, or that of the first case whose cube
/// matches the new state, and none where no case does.
#[derive(Debug, Drop)]
pub enum Next {
    One(u32),
    Cases(Vec<Case>),
}

/// In this context, in each state that the cube matches, take the action, and go on in the next
/// context.
/// Of several rules that match, the first counts.
#[derive(Debug, Drop)]
pub struct AutoRule {
    pub context: u32,
    pub cube: Vec<Lit>,
    pub action: ActionId,
    pub next: Next,
}

/// A plan with memory: contexts, numbered from 1 up to `contexts`, of which it begins in the first,
/// and its rules in order.
#[derive(Debug, Drop)]
pub struct AutoPlan {
    pub contexts: u32,
    pub rules: Vec<AutoRule>,
}

/// A plan.
#[derive(Debug, Drop)]
pub enum Plan {
    Table(TablePlan),
    Auto(AutoPlan),
}

/// The plan that a text spells, and the place of its opening parenthesis.
#[derive(Debug, Drop)]
pub struct PlanRead {
    pub plan: Plan,
    pub place: Place,
}
