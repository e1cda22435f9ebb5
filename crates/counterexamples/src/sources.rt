//! What the text of a run takes its words from.

ghost use Rattle.counterexamples.specs.Texts.{line_of};
ghost use Rattle.counterexamples.specs.Values.{source_value};
ghost use Rattle.std.specs.Prelude.{◌≡◌};

use plan_rules::Plan;
use task_core::Task;

/// What the text of a run takes its words from: the names of the task's fluents and actions, the plan, and
/// the line in which each rule of the plan's text begins, counted from 1.
#[derive(Clone, Copy)]
pub struct Source<'a> {
    pub task: &'a Task,
    pub plan: &'a Plan,
    pub lines: &'a [u32],
}

/// The line in which a rule begins; 0 past the last rule.
pub fn line_at(source: &Source<'_>, rule: usize) -> u32
    ensures { result ≡ line_of (source_value source.now) rule }
{
    match source.lines.get(rule) {
        Some(line) => *line,
        None => 0,
    }
}
