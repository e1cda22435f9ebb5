//! How much a search may do for a task: less where the conditions of its actions are large.

use explicit_plan::tests_in_state;
use heuristic_search::Allowance;
use staged_search::Allowance as StagedAllowance;
use task_core::Task;

/// What a heuristic search may do for a task of what it may do for most.
pub(crate) fn allowance_for(task: &Task, whole: &Allowance) -> Allowance {
    let times = tests_of_action(task);
    Allowance {
        expanded: share_of(whole.expanded, times),
        states: share_of(whole.states, times),
    }
}

/// The same for a search for a plan with contexts.
pub(crate) fn staged_allowance_for(task: &Task, whole: &StagedAllowance) -> StagedAllowance {
    let times = tests_of_action(task).max(1) as u64;
    StagedAllowance {
        work: whole.work / times,
        ..*whole
    }
}

/// How many tests it counts for on average that an action of a task is tested in a state.
fn tests_of_action(task: &Task) -> usize {
    let actions = task.actions.len().max(1);
    tests_in_state(task) / actions
}

/// What is left of a number where everything counts so many times.
fn share_of(whole: u32, times: usize) -> u32 {
    let share = whole as usize / times.max(1);
    share.min(whole as usize) as u32
}
