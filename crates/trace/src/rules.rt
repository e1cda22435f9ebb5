//! The rules of a plan as they are run, and which of them counts.

ghost use Rattle.std.specs.Prelude.{◌≡◌, ◌<◌, IfNone, IfOk, IfSome, None, map};
ghost use Rattle.task_core.specs.States.{vector};
ghost use Rattle.task_core.specs.Tasks.{action_count, fluent_count};
ghost use Rattle.rule_lookup.specs.RunRules.{IsRunRuleOf, in_one_context, run_rules};
ghost use Rattle.plan_rules.specs.Denoted.{rule_at};
ghost use Rattle.plan_rules.specs.Plans.{IsPlanOf};
ghost use Rattle.plan_rules.specs.Rules.{context_rule_of, plain_of, rule_of};
ghost use Rattle.plan_witness.specs.Runs.{IsCounting};
ghost use Rattle.trace.specs.Indexed.{AreIndexedFor, rules_in, run_rule_value};

use cube_index::CubeIndex;
use plan_rules::{AutoRule, FIRST_CONTEXT, Onward, Plan, Rule, onward_of};
use std::alloc::{AllocError, Global};
use task_core::{ActionId, Lit, State, Task};

/// A rule that counts: its number in the plan's text, counted from 0, and its action.
#[derive(Clone, Copy)]
pub struct Counting {
    pub rule: usize,
    pub action: ActionId,
}

/// A rule as it is run: in this context, in each state that the cube matches, take the action, and go
/// on.
#[derive(Clone, Copy)]
pub(crate) struct RunRule<'a> {
    pub(crate) context: u32,
    pub(crate) cube: &'a [Lit],
    pub(crate) action: ActionId,
    pub(crate) onward: Onward<'a>,
}

/// The rule that counts, with its number in the plan's text, counted from 0.
#[derive(Clone, Copy)]
pub(crate) struct Chosen<'a> {
    pub(crate) number: usize,
    pub(crate) rule: RunRule<'a>,
}

/// The rules of a plan in their order, with the index of their cubes. A table is run in the first
/// context.
#[derive(Drop)]
pub(crate) struct IndexedRules<'a> {
    rules: Vec<RunRule<'a>>,
    index: CubeIndex,
}

impl<'a> IndexedRules<'a> {
    /// The rules of a plan, whose numbers are those of the task's fluents and actions.
    pub(crate) fn new(
        alloc: Global,
        task: &Task,
        plan: &'a Plan,
    ) -> Result<IndexedRules<'a>, AllocError>
        requires { IsPlanOf (fluent_count task.now) (action_count task.now) plan.now }
        ensures rules { IfOk result (λ indexed. rules_in indexed ≡ run_rules (plain_of plan.now)) }
        ensures indexed { IfOk result (AreIndexedFor (fluent_count task.now) (action_count task.now)) }
    {
        // The task is read for its bound on fluents alone.
        let _bound = task.fluents.len();
        let rules = rules_of(alloc, plan)?;
        let cubes = cubes_of(alloc, &rules)?;
        let index = CubeIndex::new(alloc, &cubes)?;
        Ok(IndexedRules { rules, index })
    }

    /// The rule that counts in a state and a context: the first of the context that matches the state.
    pub(crate) fn rule_in(&self, task: &Task, state: &State, context: u32) -> Option<Chosen<'a>>
        requires { AreIndexedFor (fluent_count task.now) (action_count task.now) self.now }
        ensures counts { IfSome result (λ chosen. IsCounting (rules_in self.now)
            (record { state = vector (fluent_count task.now) state.now; context = context })
            chosen.number (run_rule_value chosen.rule)) }
        ensures in_task { IfSome result (λ chosen.
            IsRunRuleOf (fluent_count task.now) (action_count task.now) (run_rule_value chosen.rule)) }
        ensures none { IfNone result
            (rule_at (rules_in self.now) (vector (fluent_count task.now) state.now) context ≡ None) }
    {
        // The task is read for its bound on fluents alone.
        let _bound = task.fluents.len();
        let mut from = 0;
        while let Some(number) = self.index.next_match(state, from, self.rules.len()) {
            let rule = self.rules[number];
            if rule.context == context {
                return Some(Chosen { number, rule });
            }
            from = number + 1;
        }
        None
    }
}

fn rules_of(alloc: Global, plan: &Plan) -> Result<Vec<RunRule<'_>>, AllocError>
    ensures { IfOk result (λ rules. map run_rule_value rules.items ≡ run_rules (plain_of plan.now)) }
{
    match plan {
        Plan::Table(table) => table_rules(alloc, &table.rules),
        Plan::Auto(automaton) => context_rules(alloc, &automaton.rules),
    }
}

/// The rules of a table, all in the first context.
fn table_rules(alloc: Global, rules: &[Rule]) -> Result<Vec<RunRule<'_>>, AllocError>
    ensures { IfOk result (λ made. map run_rule_value made.items
        ≡ map in_one_context (map rule_of rules.now)) }
{
    let mut made = Vec::new(alloc);
    for rule in rules {
        made.push(RunRule {
            context: FIRST_CONTEXT,
            cube: &rule.cube,
            action: rule.action,
            onward: Onward::Always(FIRST_CONTEXT),
        })?;
    }
    Ok(made)
}

fn context_rules(alloc: Global, rules: &[AutoRule]) -> Result<Vec<RunRule<'_>>, AllocError>
    ensures { IfOk result (λ made. map run_rule_value made.items ≡ map context_rule_of rules.now) }
{
    let mut made = Vec::new(alloc);
    for rule in rules {
        made.push(RunRule {
            context: rule.context,
            cube: &rule.cube,
            action: rule.action,
            onward: onward_of(&rule.next),
        })?;
    }
    Ok(made)
}

fn cubes_of<'a>(alloc: Global, rules: &[RunRule<'a>]) -> Result<Vec<&'a [Lit]>, AllocError>
    ensures { IfOk result (λ cubes.
        map (λ cube. cube.now) cubes.items ≡ map (λ rule. rule.cube.now) rules.now) }
{
    let mut cubes = Vec::new(alloc);
    for rule in rules {
        cubes.push(rule.cube)?;
    }
    Ok(cubes)
}
