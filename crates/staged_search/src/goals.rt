//! What is asked for, stage by stage or visit by visit.

use ctl_syntax::ContextGoal;
use std::alloc::{AllocError, Global};
use task_core::Cond;

/// A stage of an until-chain, or a visit of a patrol: what is to come about, and what holds until then,
/// if anything is asked for.
#[derive(Clone, Copy)]
pub(crate) struct Stage<'a> {
    pub(crate) guard: Option<&'a Cond>,
    pub(crate) target: &'a Cond,
}

/// What comes after the last stage.
#[derive(Clone, Copy)]
pub(crate) enum End<'a> {
    /// This is kept for ever.
    Keep(&'a Cond),
    /// The first one again.
    Again,
}

/// The stages, and what comes after them.
#[derive(Drop)]
pub(crate) struct Goal<'a> {
    pub(crate) stages: Vec<Stage<'a>>,
    pub(crate) end: End<'a>,
}

impl<'a> Goal<'a> {
    pub(crate) fn new(alloc: Global, goal: &'a ContextGoal) -> Result<Goal<'a>, AllocError> {
        let mut stages = Vec::new(alloc);
        match goal {
            ContextGoal::Until(chain) => {
                for stage in &chain.stages {
                    stages.push(Stage {
                        guard: Some(&stage.guard),
                        target: &stage.target,
                    })?;
                }
                Ok(Goal {
                    stages,
                    end: End::Keep(&chain.keep),
                })
            }
            ContextGoal::Patrol(visits) => {
                for target in visits {
                    stages.push(Stage {
                        guard: None,
                        target,
                    })?;
                }
                Ok(Goal {
                    stages,
                    end: End::Again,
                })
            }
        }
    }

    /// How many contexts a plan for it has: one a stage, and one for what is kept.
    pub(crate) fn contexts(&self) -> usize {
        match self.end {
            End::Keep(_) => self.stages.len().saturating_add(1),
            End::Again => self.stages.len(),
        }
    }
}
