//! One turn of a run.

ghost use Rattle.std.specs.Prelude.{◌≡◌, ◌<◌, ◌∷◌, ℕ, List, Some};
ghost use Rattle.rule_lookup.specs.RunRules.{IsRunRuleOf};
ghost use Rattle.plan_rules.specs.Advices.{advised_by};
ghost use Rattle.plan_rules.specs.Denoted.{denoted_contexts};
ghost use Rattle.plan_rules.specs.Rules.{ContextRule};
ghost use Rattle.plan_witness.specs.Runs.{IsCounting};
ghost use Rattle.run_replay.specs.Traces.{turn as turn_of};
ghost use Rattle.run_replay.specs.Turns.{taking, turn_by};
ghost use Rattle.task_core.specs.States.{IsWithin, vector};
ghost use Rattle.task_core.specs.Systems.{Exec};
ghost use Rattle.task_core.specs.Tasks.{action_count, fluent_count, system_of};
ghost use Rattle.trace.specs.Indexed.{AreIndexedFor, rules_in, run_rule_value};
ghost use Rattle.trace.specs.Turns.{IsRuledTurn, IsTurn, IsTurnOf, numbers_left};

use crate::rules::{Chosen, Counting, IndexedRules};
use crate::runs::MadeStep;
use plan_rules::context_in;
use run_replay::{Step, is_executable, outcome_state};
use task_core::{State, Task, outcome_count};

/// Why a run makes no further step.
#[derive(Clone, Copy)]
pub(crate) enum Halt {
    /// No rule matches.
    PlanEnds,
    /// A rule counts, and the record has no outcome left.
    RecordEnds(Counting),
    /// No run makes more steps.
    MostMade,
    /// A rule counts, and the record's outcome is none of the so many that its action has, or leads to
    /// no state.
    NoOutcome(Counting, u32, u32),
    /// A rule counts, and its action can't be executed.
    NotExecutable(Counting),
}

/// What a turn does.
pub(crate) enum Turn {
    /// It makes no step.
    Halts(Halt),
    /// It makes a step.
    Makes(MadeStep),
}

/// Where a run is: the state, the context or none, the number of the next step, whether the run is
/// full, so that this step isn't made, and the record's next outcome, if one is left.
#[derive(Clone, Copy)]
pub(crate) struct Standing<'a> {
    pub(crate) state: &'a State,
    pub(crate) context: Option<u32>,
    pub(crate) number: u64,
    pub(crate) full: bool,
    pub(crate) word: Option<u32>,
}

pub(crate) fn take_turn(task: &Task, rules: &IndexedRules<'_>, at: &Standing<'_>) -> Turn
    requires rules { AreIndexedFor (fluent_count task.now) (action_count task.now) rules.now }
    requires within { IsWithin (fluent_count task.now) at.now.state.now }
    ensures turn { (words : List ℕ) → IsTurn (fluent_count task.now) at.now.number result words
        (turn_of (system_of task.now) (denoted_contexts (rules_in rules.now)) at.now.full
        at.now.number (vector (fluent_count task.now) at.now.state.now) at.now.context
        (numbers_left at.now.word words)) }
    ensures in_task { IsTurnOf (fluent_count task.now) (action_count task.now) result }
    ensures ruled { let n = fluent_count task.now in
        IsRuledTurn n (rules_in rules.now) (vector n at.now.state.now) at.now.context result }
{
    let Some(context) = at.context else {
        return Turn::Halts(Halt::PlanEnds);
    };
    match rules.rule_in(task, at.state, context) {
        None => Turn::Halts(Halt::PlanEnds),
        Some(chosen) => follow(task, at, &chosen),
    }
}

/// The turn in which this rule counts.
fn follow(task: &Task, at: &Standing<'_>, chosen: &Chosen<'_>) -> Turn
    requires rule { IsRunRuleOf (fluent_count task.now) (action_count task.now)
        (run_rule_value chosen.now.rule) }
    requires within { IsWithin (fluent_count task.now) at.now.state.now }
    ensures turn { (words : List ℕ) → IsTurn (fluent_count task.now) at.now.number result words
        (turn_by (system_of task.now) at.now.full at.now.number
        (vector (fluent_count task.now) at.now.state.now) (numbers_left at.now.word words)
        (Some (advised_by (run_rule_value chosen.now.rule)))) }
    ensures in_task { IsTurnOf (fluent_count task.now) (action_count task.now) result }
    ensures ruled { let n = fluent_count task.now in let v = vector n at.now.state.now in
        (rules : List ContextRule) (context : ℕ)
        → IsCounting rules (record { state = v; context = context }) chosen.now.number
        (run_rule_value chosen.now.rule)
        → IsRuledTurn n rules v (Some context) result }
{
    let counting = counting_by(chosen);
    if !is_executable(task, at.state, counting.action) {
        return Turn::Halts(Halt::NotExecutable(counting));
    }
    if at.full {
        return Turn::Halts(Halt::MostMade);
    }
    match at.word {
        None => Turn::Halts(Halt::RecordEnds(counting)),
        Some(word) => make_step(task, at, chosen, word),
    }
}

/// The number and the action of a rule that counts.
fn counting_by(chosen: &Chosen<'_>) -> Counting
    ensures rule { result.rule ≡ chosen.now.number }
    ensures action { result.action ≡ chosen.now.rule.action }
{
    Counting {
        rule: chosen.number,
        action: chosen.rule.action,
    }
}

/// The turn in which this rule's action, which can be executed, has this outcome number.
fn make_step(task: &Task, at: &Standing<'_>, chosen: &Chosen<'_>, word: u32) -> Turn
    requires rule { IsRunRuleOf (fluent_count task.now) (action_count task.now)
        (run_rule_value chosen.now.rule) }
    requires within { IsWithin (fluent_count task.now) at.now.state.now }
    requires executable { Exec (system_of task.now)
        (vector (fluent_count task.now) at.now.state.now) chosen.now.rule.action.0 }
    ensures turn { (words : List ℕ) → IsTurn (fluent_count task.now) at.now.number result words
        (taking (system_of task.now) at.now.number
        (vector (fluent_count task.now) at.now.state.now)
        (advised_by (run_rule_value chosen.now.rule)) (word ∷ words)) }
    ensures in_task { IsTurnOf (fluent_count task.now) (action_count task.now) result }
    ensures ruled { let n = fluent_count task.now in let v = vector n at.now.state.now in
        (rules : List ContextRule) (context : ℕ)
        → IsCounting rules (record { state = v; context = context }) chosen.now.number
        (run_rule_value chosen.now.rule)
        → IsRuledTurn n rules v (Some context) result }
{
    let counting = counting_by(chosen);
    let Some(after) = outcome_state(task, at.state, counting.action, word) else {
        let outcomes = outcome_count(task, counting.action);
        return Turn::Halts(Halt::NoOutcome(counting, word, outcomes));
    };
    let step = Step {
        number: at.number,
        action: counting.action,
        outcome: word,
        before: *at.state,
        after,
    };
    Turn::Makes(MadeStep {
        rule: counting.rule,
        step,
        context: context_in(task, &chosen.rule.onward, &after),
    })
}
