//! Judging the rules of a table on sets of states, with no list of what they reach.

ghost use Rattle.command_base.specs.Words.{IsNodeLimit};
ghost use Rattle.control_command.specs.Judged.{IsGoodOnSets, IsTableOver};
ghost use Rattle.encode_task.specs.Made.{MadeOf};
ghost use Rattle.first_match.specs.FirstMatch.{AreGoodAsRun};
ghost use Rattle.plan_rules.specs.Plans.{IsRuleOf};
ghost use Rattle.plan_rules.specs.Rules.{rule_of};
ghost use Rattle.std.specs.Prelude.{All, IfOk, IsSome, IsTrue, map};
ghost use Rattle.task_core.specs.Tasks.{action_count, fluent_count, system_of};

use dd_sets::SetErr;
use encode_task::Enc;
use judge_sets::{TableVerdict, judge_table};
use plan_rules::{Class, Rule};
use std::alloc::{AllocError, Global};
use task_core::Task;
use task_sets::{SetSearch, search_in_tries};

/// The verdict on the rules of a table for a class, with so many nodes.
#[derive(Clone, Copy)]
struct RulesJudge<'a> {
    nodes: u32,
    class: Class,
    rules: &'a [Rule],
}

impl SetSearch for RulesJudge<'_> {
    ghost use Rattle.control_command.specs.Judged.{IsTableOver};
    ghost use Rattle.first_match.specs.FirstMatch.{AreGoodAsRun};
    ghost use Rattle.plan_rules.specs.Rules.{rule_of};
    ghost use Rattle.std.specs.Prelude.{IsTrue, map, ⊤};
    ghost use Rattle.task_core.specs.Tasks.{system_of};

    /// Whether they are good.
    type Found = bool;

    ghost nodes = { λ self. self.nodes };

    ghost fits = { λ self task. IsTableOver task (map rule_of self.rules.now) };

    ghost finds = { λ self task are. IsTrue are
        → AreGoodAsRun self.class (system_of task) (map rule_of self.rules.now) };

    ghost lacks_room = { λ self task before after. ⊤ };

    fn nodes(&self) -> u32 {
        self.nodes
    }

    fn find(&self, alloc: Global, task: &Task, enc: &mut Enc) -> Result<bool, SetErr> {
        are_good_over(alloc, task, enc, self.class, self.rules)
    }
}

/// Whether rules are good, as far as so many nodes are enough to find it out.
pub(crate) fn are_good_rules(
    alloc: Global,
    nodes: u32,
    task: &Task,
    class: Class,
    rules: &[Rule],
) -> Result<bool, AllocError>
    requires room { IsNodeLimit nodes }
    requires goal { IsSome task.now.goal }
    requires in_task { All (IsRuleOf (fluent_count task.now) (action_count task.now))
        (map rule_of rules.now) }
    ensures { IfOk result (λ are. IsTrue are
        → IsGoodOnSets class task.now (map rule_of rules.now)) }
{
    let wanted = RulesJudge {
        nodes,
        class,
        rules,
    };
    match judged_rules(alloc, task, &wanted) {
        Ok(are) => Ok(are),
        Err(SetErr::Full) => Ok(false),
        Err(SetErr::Memory) => Err(AllocError),
    }
}

/// Whether rules are good. They aren't where there is no initial state.
fn judged_rules(alloc: Global, task: &Task, wanted: &RulesJudge<'_>) -> Result<bool, SetErr>
    requires room { IsNodeLimit wanted.now.nodes }
    requires of_task { IsTableOver task.now (map rule_of wanted.now.rules.now) }
    ensures { IfOk result (λ are. IsTrue are
        → IsGoodOnSets wanted.now.class task.now (map rule_of wanted.now.rules.now)) }
{
    match search_in_tries(alloc, task, wanted)? {
        Some(are) => Ok(are),
        None => Ok(false),
    }
}

/// Whether rules are good, over the task's sets.
fn are_good_over(
    alloc: Global,
    task: &Task,
    enc: &mut Enc,
    class: Class,
    rules: &[Rule],
) -> Result<bool, SetErr>
    requires made { MadeOf task.now enc.old }
    requires of_task { IsTableOver task.now (map rule_of rules.now) }
    ensures { IfOk result (λ are. IsTrue are
        → AreGoodAsRun class (system_of task.now) (map rule_of rules.now)) }
{
    let verdict = judge_table(alloc, task, enc, class, rules)?;
    Ok(is_good(&verdict))
}

/// Whether a verdict says all that is wanted.
fn is_good(verdict: &TableVerdict) -> bool
    ensures solves { IsTrue result → IsTrue verdict.now.solves }
    ensures agrees { IsTrue result → IsTrue verdict.now.agrees }
    ensures each_counts { IsTrue result → IsTrue verdict.now.each_counts }
{
    verdict.solves && verdict.agrees && verdict.each_counts
}
