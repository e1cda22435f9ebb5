//! The rules of a plan as they are run, with an index of their cubes.

ghost use Rattle.controller_rules.specs.AsRun.{HasOneMoveAt, IsFirstAt, MakeSameMove, counts_at};
ghost use Rattle.controller_rules.specs.Checks.{
  AreIndexed,
  place_of,
  plain_rules,
  run_cube,
  run_value,
};
ghost use Rattle.cube_index.specs.Places.{IsFirstTrue};
ghost use Rattle.plan_document.specs.Faithful.{IsToldInFull, IsToldRule};
ghost use Rattle.rule_lookup.specs.RunRules.{in_one_context, run_rules};
ghost use Rattle.plan_rules.specs.Plans.{IsPlanOf};
ghost use Rattle.plan_rules.specs.Rules.{context_rule_of, plain_of, rule_of};
ghost use Rattle.std.specs.Prelude.{
  ◌≡◌,
  ◌<◌,
  ◌⊎◌,
  ℕ,
  All,
  IfNone,
  IfOk,
  IfSome,
  IsTrue,
  false,
  length,
  map,
  slice_index_or,
  true,
};
ghost use Rattle.task_core.specs.Tasks.{action_count, fluent_count};

use cube_index::CubeIndex;
use plan_rules::{AutoRule, FIRST_CONTEXT, Next, Plan, Rule};
use std::alloc::{AllocError, Global};
use task_core::{ActionId, Lit, State, Task};

/// A rule: in this context, where the state has the literals, take the action and go on in the next
/// context.
#[derive(Clone, Copy)]
pub(crate) struct RunRule<'a> {
    pub(crate) context: u32,
    pub(crate) cube: &'a [Lit],
    pub(crate) action: ActionId,
    pub(crate) next: u32,
}

/// The rules of a plan in its order, and an index of what they ask of a state.
#[derive(Drop)]
pub(crate) struct RunRules<'a> {
    pub(crate) rules: Vec<RunRule<'a>>,
    pub(crate) index: CubeIndex,
}

impl<'a> RunRules<'a> {
    /// The rules of a plan of a task; `None` where a next context depends on the state.
    pub(crate) fn of_plan(
        alloc: Global,
        task: &Task,
        plan: &'a Plan,
    ) -> Result<Option<RunRules<'a>>, AllocError>
        requires { IsPlanOf (fluent_count task.now) (action_count task.now) plan.now }
        ensures rules { IfOk result (λ found. IfSome found (λ run.
            plain_rules run ≡ run_rules (plain_of plan.now))) }
        ensures indexed { IfOk result (λ found. IfSome found (AreIndexed (fluent_count task.now))) }
        ensures none { IfOk result (λ found. IfNone found (IsToldInFull (plain_of plan.now) → ⊥)) }
    {
        // The task is read for its bound on fluents alone.
        let _bound = task.fluents.len();
        match rules_of(alloc, plan)? {
            Some(rules) => {
                let cubes = cubes_of(alloc, &rules)?;
                let index = CubeIndex::new(alloc, &cubes)?;
                Ok(Some(RunRules { rules, index }))
            }
            None => Ok(None),
        }
    }

    /// The number of the first rule, from one number on, that counts in a state and a context.
    pub(crate) fn next_counting(
        &self,
        task: &Task,
        state: &State,
        context: u32,
        from: usize,
    ) -> Option<usize>
        requires { AreIndexed (fluent_count task.now) self.now }
        ensures { IsFirstTrue
            (map (counts_at (place_of (fluent_count task.now) state.now context))
            (plain_rules self.now)) from (length self.now.rules.items) result }
    {
        // The task is read for its bound on fluents alone.
        let _bound = task.fluents.len();
        let mut place = from;
        while place < self.rules.len() {
            match self.index.next_match(state, place, self.rules.len()) {
                Some(number) => {
                    if self.rules[number].context == context {
                        return Some(number);
                    }
                    place = number + 1;
                }
                None => return None,
            }
        }
        None
    }

    /// Whether each later rule that counts in a state and a context makes the same move as this one.
    fn are_like(&self, task: &Task, state: &State, context: u32, first: usize) -> bool
        requires indexed { AreIndexed (fluent_count task.now) self.now }
        requires first { first < length self.now.rules.items }
        ensures { IsTrue result → (k : ℕ) (d : RunRule) → first < k
            → k < length self.now.rules.items
            → counts_at (place_of (fluent_count task.now) state.now context)
            (run_value (slice_index_or self.now.rules.items k d)) ≡ true
            → MakeSameMove (run_value (slice_index_or self.now.rules.items first d))
            (run_value (slice_index_or self.now.rules.items k d)) }
    {
        let mut place = first + 1;
        while place < self.rules.len() {
            match self.next_counting(task, state, context, place) {
                Some(number) => {
                    if !is_same_move(&self.rules[first], &self.rules[number]) {
                        return false;
                    }
                    place = number + 1;
                }
                None => return true,
            }
        }
        true
    }

    /// Whether all rules that count in a state and a context make the same move. The first of them is
    /// marked as one that serves.
    pub(crate) fn agree_in(
        &self,
        task: &Task,
        state: &State,
        context: u32,
        served: &mut [bool],
    ) -> bool
        requires indexed { AreIndexed (fluent_count task.now) self.now }
        requires marks { length served.old ≡ length self.now.rules.items }
        ensures one_move { IsTrue result → HasOneMoveAt (plain_rules self.now)
            (place_of (fluent_count task.now) state.now context) }
        ensures served { (k : ℕ) → slice_index_or served.new k false ≡ true
            → (slice_index_or served.old k false ≡ true)
            ⊎ IsFirstAt (plain_rules self.now)
            (place_of (fluent_count task.now) state.now context) k }
    {
        match self.next_counting(task, state, context, 0) {
            Some(first) => {
                served[first] = true;
                self.are_like(task, state, context, first)
            }
            None => true,
        }
    }
}

fn rules_of(alloc: Global, plan: &Plan) -> Result<Option<Vec<RunRule<'_>>>, AllocError>
    ensures rules { IfOk result (λ found. IfSome found (λ rules.
        map run_value rules.items ≡ run_rules (plain_of plan.now))) }
    ensures none { IfOk result (λ found. IfNone found (IsToldInFull (plain_of plan.now) → ⊥)) }
{
    match plan {
        Plan::Table(table) => Ok(Some(table_rules(alloc, &table.rules)?)),
        Plan::Auto(automaton) => context_rules(alloc, &automaton.rules),
    }
}

fn table_rules(alloc: Global, rules: &[Rule]) -> Result<Vec<RunRule<'_>>, AllocError>
    ensures { IfOk result (λ made. map run_value made.items
        ≡ map in_one_context (map rule_of rules.now)) }
{
    let mut made = Vec::new(alloc);
    for rule in rules {
        made.push(RunRule {
            context: FIRST_CONTEXT,
            cube: &rule.cube,
            action: rule.action,
            next: FIRST_CONTEXT,
        })?;
    }
    Ok(made)
}

/// Those of an automaton.
fn context_rules(alloc: Global, rules: &[AutoRule]) -> Result<Option<Vec<RunRule<'_>>>, AllocError>
    ensures rules { IfOk result (λ found. IfSome found (λ made.
        map run_value made.items ≡ map context_rule_of rules.now)) }
    ensures none { IfOk result (λ found. IfNone found
        (All IsToldRule (map context_rule_of rules.now) → ⊥)) }
{
    let mut made = Vec::new(alloc);
    for rule in rules {
        match &rule.next {
            Next::One(next) => made.push(RunRule {
                context: rule.context,
                cube: &rule.cube,
                action: rule.action,
                next: *next,
            })?,
            Next::Cases(_) => return Ok(None),
        }
    }
    Ok(Some(made))
}

fn cubes_of<'a>(alloc: Global, rules: &[RunRule<'a>]) -> Result<Vec<&'a [Lit]>, AllocError>
    ensures { IfOk result (λ cubes.
        map (λ cube. cube.now) cubes.items ≡ map run_cube rules.now) }
{
    let mut cubes = Vec::new(alloc);
    for rule in rules {
        cubes.push(rule.cube)?;
    }
    Ok(cubes)
}

fn is_same_move(rule: &RunRule<'_>, other: &RunRule<'_>) -> bool
    ensures { IsTrue result → MakeSameMove (run_value rule.now) (run_value other.now) }
{
    rule.action == other.action && rule.next == other.next
}
