//! What runs are looked for in: a plan, its task and its graph; and where they are.

use exec_graph::Graph;
use plan_rules::Plan;
use task_core::{State, Task};

/// A plan in a task, with its graph.
#[derive(Clone, Copy)]
pub struct Scene<'a> {
    pub task: &'a Task,
    pub plan: &'a Plan,
    pub graph: &'a Graph,
}

/// A state and a context.
#[derive(Clone, Copy)]
pub struct Spot<'a> {
    pub state: &'a State,
    pub context: u32,
}
