//! Laws of the definitions, each as the contract of a function that does nothing: what the rows of a
//! program's tables mean, once they are read back from its lines.

ghost use Rattle.controller_code.specs.FirstMoves.{contexts_of};
ghost use Rattle.controller_code.specs.Rows.{
  action_rows,
  goal_words,
  plan_answer,
  rows_answer,
  rows_at,
  rows_of_outcome,
  rule_row,
  step_of,
  step_row,
  value_after_rows,
};
ghost use Rattle.controller_code.specs.Tables.{row_line, rows_in};
ghost use Rattle.controller_code.specs.declared.steps.Step.{Step as PlainStep};
ghost use Rattle.plan_rules.specs.Rules.{PlainPlan};
ghost use Rattle.rule_lookup.specs.RunRules.{run_rules};
ghost use Rattle.std.specs.List.{AllByRecursion, flat_map};
ghost use Rattle.std.specs.Option.{option_map_or};
ghost use Rattle.std.specs.Prelude.{◌≡◌, ◌<◌, ◌^◌, ℕ, List, [], map, slice_get};
ghost use Rattle.task_core.specs.Actions.{after_value};
ghost use Rattle.task_core.specs.Tasks.{outcomes_at};
ghost use Rattle.task_core.specs.Vectors.{Vector, value_of};
ghost use Rattle.task_core.specs.declared.actions.Outcome.{Outcome as PlainOutcome};

use task_core::Task;

/// The rows of numbers of 64 bits are read back from their lines.
pub fn rows_are_read()
    ensures { (rows : List (List ℕ)) → AllByRecursion (AllByRecursion (λ number. number < 2 ^ 64)) rows
        → rows_in (flat_map row_line rows) ≡ rows }
{}

/// The rows of a plan's rules and the words of the goal answer as the plan does, in each context and at
/// every state: the move of the first rule that matches, that the goal holds, or that the state is outside
/// the plan.
pub fn rows_answer_as_plan(task: &Task)
    ensures { (plan : PlainPlan) (context : ℕ) (v : Vector)
        → rows_answer (contexts_of plan) (map rule_row (run_rules plan)) (goal_words task.now plan)
        context v
        ≡ plan_answer task.now plan context v }
{}

/// The rows of an outcome are found in the table of all outcomes by the numbers of the action and the
/// outcome, none where there is no such outcome; and they lead to what the outcome leads to.
pub fn rows_lead_as_outcome(task: &Task)
    ensures found { (action : ℕ) (number : ℕ)
        → rows_at (action_rows 0 task.now.actions.items) action number
        ≡ option_map_or (rows_of_outcome action number)
        (slice_get (outcomes_at task.now action) number) [] }
    ensures lead { (action : ℕ) (number : ℕ) (outcome : PlainOutcome) (v : Vector) (f : ℕ)
        → value_after_rows (rows_of_outcome action number outcome) v f
        ≡ after_value outcome (value_of v) f }
{}

/// The steps of a decision are read back from their rows.
pub fn steps_are_read()
    ensures { (steps : List PlainStep) → map step_of (map step_row steps) ≡ steps }
{}
