//! The parts of a goal that fail, and how.

use ctl_syntax::Ctl;
use plan_witness::RunStep;

/// How a part of a goal fails.
#[derive(Drop)]
pub enum How {
    /// It is false, and no more is told.
    False,
    /// By these steps the plan comes to where the next part is false.
    Way(Vec<RunStep>),
    /// By these steps, and others that lead back, it may go on for ever.
    Lasso(Vec<RunStep>, Vec<RunStep>),
}

/// A part of a goal, and how it fails.
#[derive(Drop)]
pub struct Link<'a> {
    pub part: &'a Ctl,
    pub how: How,
}
