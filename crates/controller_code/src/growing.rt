//! Trees that grow from the rules that are left.

ghost use Rattle.controller_code.specs.FirstMoves.{
  AreKnown,
  DecidesFirst,
  MatchesQuestion,
};
ghost use Rattle.controller_code.specs.Steps.{AreKept, Decides, next_step};
ghost use Rattle.controller_code.specs.declared.steps.Move.{Move as PlainMove};
ghost use Rattle.std.specs.Prelude.{◌≡◌, IfNone, IfOk, IfSome, OnOk, Option, Some, [], slice_get};
ghost use Rattle.task_core.specs.Vectors.{Vector};

use crate::left_rules::{LeftRule, are_same, key_of, left_where};
use crate::steps::{Move, Step, Steps, Test};
use std::alloc::{AllocError, Global};
use std::collections::HashMap;
use task_core::{FluentId, Lit};

/// How many steps a tree has before the rules that are left are tested one after another.
const MOST_STEPS: usize = 100_000;

/// How many rules are looked at before that.
const MOST_RULES: usize = 1_000_000;

/// How many questions stand one after another before that: a state has no more fluents.
const MOST_QUESTIONS: usize = 256;

/// Rules, and the step from which on they are decided.
#[derive(Drop)]
pub(crate) struct Known {
    pub(crate) rules: Vec<LeftRule>,
    pub(crate) step: usize,
}

/// A tree that grows: its steps, the rules whose steps are known, and for how many more rules there
/// is room.
#[derive(Drop)]
pub(crate) struct Growth {
    pub(crate) steps: Steps,
    known: Vec<Known>,
    guesses: HashMap<u64, usize>,
    room: usize,
}

/// What is to be done where these rules are left.
pub(crate) enum Question {
    /// None of them is left.
    Nothing,
    /// The first of them asks for nothing more.
    Decided(Move),
    /// This fluent is to be asked for.
    Fluent(FluentId),
}

impl Growth {
    pub(crate) fn new(alloc: Global) -> Growth
        ensures { AreKnown result.steps.list.items result.known.items }
    {
        Growth {
            steps: Steps::new(alloc),
            known: Vec::new(alloc),
            guesses: HashMap::new(alloc),
            room: MOST_RULES,
        }
    }

    /// The step that is known of these rules, if the table guesses right.
    fn guessed(&self, rules: &[LeftRule]) -> Option<usize>
        requires { AreKnown self.now.steps.list.items self.now.known.items }
        ensures { IfSome result (λ k. DecidesFirst self.now.steps.list.items k rules.now) }
    {
        let place = self.guesses.get(&key_of(rules)).copied()?;
        let known = self.known.get(place)?;
        if are_same(&known.rules, rules) {
            Some(known.step)
        } else {
            None
        }
    }

    /// Keeps the step of rules in mind, and gives it back.
    fn remember(&mut self, rules: Vec<LeftRule>, step: usize) -> Result<usize, AllocError>
        requires known { AreKnown self.old.steps.list.items self.old.known.items }
        requires decides { DecidesFirst self.old.steps.list.items step rules.items }
        ensures kept { OnOk result (AreKept self.old.steps.list.items self.new.steps.list.items) }
        ensures known { OnOk result (AreKnown self.new.steps.list.items self.new.known.items) }
        ensures decides { IfOk result (λ k.
            DecidesFirst self.new.steps.list.items k rules.items) }
    {
        self.guesses.insert(key_of(&rules), self.known.len())?;
        self.known.push(Known { rules, step })?;
        Ok(step)
    }

    fn add(&mut self, step: Step) -> Result<usize, AllocError>
        requires known { AreKnown self.old.steps.list.items self.old.known.items }
        ensures kept { OnOk result (AreKept self.old.steps.list.items self.new.steps.list.items) }
        ensures known { OnOk result (AreKnown self.new.steps.list.items self.new.known.items) }
        ensures added { IfOk result (λ k. slice_get self.new.steps.list.items k ≡ Some step) }
    {
        self.steps.add(step)
    }

    /// The step that asks for a fluent.
    fn ask(&mut self, test: Test) -> Result<usize, AllocError>
        requires known { AreKnown self.old.steps.list.items self.old.known.items }
        ensures kept { OnOk result (AreKept self.old.steps.list.items self.new.steps.list.items) }
        ensures known { OnOk result (AreKnown self.new.steps.list.items self.new.known.items) }
        ensures decides { IfOk result (λ k. (v : Vector) (answer : Option PlainMove)
            → Decides self.old.steps.list.items v (next_step v test) answer
            → Decides self.new.steps.list.items v k answer) }
    {
        self.steps.ask(test)
    }

    /// The step from which on rules are tested one after another.
    fn test_rules(&mut self, rules: &[LeftRule]) -> Result<usize, AllocError>
        requires known { AreKnown self.old.steps.list.items self.old.known.items }
        ensures kept { OnOk result (AreKept self.old.steps.list.items self.new.steps.list.items) }
        ensures known { OnOk result (AreKnown self.new.steps.list.items self.new.known.items) }
        ensures decides { IfOk result (λ k. DecidesFirst self.new.steps.list.items k rules.now) }
    {
        self.steps.add_rules(rules)
    }

    /// Whether there is room for so many rules more, which is taken.
    fn takes(&mut self, rules: usize) -> bool
        ensures steps { self.new.steps ≡ self.old.steps }
        ensures known { self.new.known ≡ self.old.known }
    {
        let has_room = rules < self.room && self.steps.list.len() < MOST_STEPS;
        self.room = self.room.saturating_sub(rules);
        has_room
    }
}

/// The step from which on what is left of rules is decided, where so many more questions are asked.
fn grow(
    growth: &mut Growth,
    alloc: Global,
    rules: Vec<LeftRule>,
    questions: usize,
) -> Result<usize, AllocError>
    requires known { AreKnown growth.old.steps.list.items growth.old.known.items }
    ensures kept { OnOk result (AreKept growth.old.steps.list.items growth.new.steps.list.items) }
    ensures known { OnOk result (AreKnown growth.new.steps.list.items growth.new.known.items) }
    ensures decides { IfOk result (λ k. DecidesFirst growth.new.steps.list.items k rules.items) }
{
    match question_of(&rules) {
        Question::Nothing => growth.add(Step::Stop),
        Question::Decided(action) => growth.add(Step::Take(action)),
        Question::Fluent(fluent) => {
            if let Some(step) = growth.guessed(&rules) {
                return Ok(step);
            }
            if questions == 0 || !growth.takes(rules.len()) {
                return growth.test_rules(&rules);
            }
            let holding = left_where(alloc, &rules, fluent, true)?;
            let if_true = grow(growth, alloc, holding, questions - 1)?;
            let failing = left_where(alloc, &rules, fluent, false)?;
            let if_false = grow(growth, alloc, failing, questions - 1)?;
            let step = growth.ask(Test {
                fluent,
                if_true,
                if_false,
            })?;
            growth.remember(rules, step)
        }
    }
}

/// The step from which on rules are decided.
pub(crate) fn grow_rules(
    growth: &mut Growth,
    alloc: Global,
    rules: Vec<LeftRule>,
) -> Result<usize, AllocError>
    requires known { AreKnown growth.old.steps.list.items growth.old.known.items }
    ensures kept { OnOk result (AreKept growth.old.steps.list.items growth.new.steps.list.items) }
    ensures known { OnOk result (AreKnown growth.new.steps.list.items growth.new.known.items) }
    ensures decides { IfOk result (λ k. DecidesFirst growth.new.steps.list.items k rules.items) }
{
    grow(growth, alloc, rules, MOST_QUESTIONS)
}

/// What is to be done where these rules are left.
fn question_of(rules: &[LeftRule]) -> Question
    ensures { MatchesQuestion result rules.now }
{
    let Some(first) = rules.first() else {
        return Question::Nothing;
    };
    match asked_most(&first.cube, rules) {
        Some(fluent) => Question::Fluent(fluent),
        None => Question::Decided(first.action),
    }
}

/// The fluent of a cube that rules ask for most; `None` where the cube is empty.
fn asked_most(cube: &[Lit], rules: &[LeftRule]) -> Option<FluentId>
    ensures { IfNone result (cube.now ≡ []) }
{
    let first = cube.first()?;
    let mut fluent = first.fluent;
    let mut most = 0;
    for lit in cube {
        let asked = count_asking(rules, lit.fluent);
        if asked > most {
            most = asked;
            fluent = lit.fluent;
        }
    }
    Some(fluent)
}

fn count_asking(rules: &[LeftRule], fluent: FluentId) -> usize {
    let mut count = 0usize;
    for rule in rules {
        if rule.cube.iter().any(|lit| lit.fluent == fluent) {
            count = count.saturating_add(1);
        }
    }
    count
}
