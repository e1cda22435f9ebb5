//! The steps of a decision.

ghost use Rattle.controller_code.specs.FirstMoves.{DecidesFirst};
ghost use Rattle.controller_code.specs.Steps.{AreKept, Decides, next_step};
ghost use Rattle.std.specs.Prelude.{
  ◌≡◌,
  IfOk,
  IfSome,
  OnOk,
  Option,
  Some,
  [],
  if◌then◌else◌,
  slice_get,
};
ghost use Rattle.task_core.specs.Cubes.{matches};
ghost use Rattle.task_core.specs.Vectors.{Vector};
ghost use Rattle.controller_code.specs.declared.steps.Move.{Move as PlainMove};

use crate::left_rules::LeftRule;
use std::alloc::{AllocError, Global};
use std::collections::HashMap;
use task_core::{ActionId, FluentId, Lit};

/// What to do: the action to take, and the context in which to go on.
#[derive(Clone, Copy, Debug, PartialEq, Eq)]
pub struct Move {
    pub action: ActionId,
    pub next: u32,
}

/// A question about a state, and the number of the step where to go on.
#[derive(Clone, Copy, Debug, PartialEq, Eq)]
pub struct Test {
    pub fluent: FluentId,
    pub if_true: usize,
    pub if_false: usize,
}

/// A step of a decision.
#[derive(Clone, Copy, Debug, PartialEq, Eq)]
pub enum Step {
    /// No rule counts: there is nothing to do.
    Stop,
    Take(Move),
    Ask(Test),
}

/// Steps, each of them there once as far as a table of guesses knows.
#[derive(Drop)]
pub(crate) struct Steps {
    pub(crate) list: Vec<Step>,
    guesses: HashMap<u64, usize>,
}

impl Steps {
    pub(crate) fn new(alloc: Global) -> Steps
        ensures { result.list.items ≡ [] }
    {
        Steps {
            list: Vec::new(alloc),
            guesses: HashMap::new(alloc),
        }
    }

    /// The number of a step, which is added if it isn't found.
    pub(crate) fn add(&mut self, step: Step) -> Result<usize, AllocError>
        ensures kept { OnOk result (AreKept self.old.list.items self.new.list.items) }
        ensures added { IfOk result (λ k. slice_get self.new.list.items k ≡ Some step) }
    {
        let key = key_of(&step);
        if let Some(place) = self.guessed(key, &step) {
            return Ok(place);
        }
        let place = self.list.len();
        self.guesses.insert(key, place)?;
        self.list.push(step)?;
        Ok(place)
    }

    /// The number of a step, if the table guesses right.
    fn guessed(&self, key: u64, step: &Step) -> Option<usize>
        ensures { IfSome result (λ k. slice_get self.now.list.items k ≡ Some step.now) }
    {
        let place = self.guesses.get(&key).copied()?;
        if self.list.get(place).copied() == Some(*step) {
            Some(place)
        } else {
            None
        }
    }

    /// The step that asks for a fluent, or where to go on if both answers lead to one step.
    pub(crate) fn ask(&mut self, test: Test) -> Result<usize, AllocError>
        ensures kept { OnOk result (AreKept self.old.list.items self.new.list.items) }
        ensures decides { IfOk result (λ k. (v : Vector) (answer : Option PlainMove)
            → Decides self.old.list.items v (next_step v test) answer
            → Decides self.new.list.items v k answer) }
    {
        if test.if_true == test.if_false {
            return Ok(test.if_true);
        }
        self.add(Step::Ask(test))
    }

    /// The step from which on rules are tested one after another.
    pub(crate) fn add_rules(&mut self, rules: &[LeftRule]) -> Result<usize, AllocError>
        ensures kept { OnOk result (AreKept self.old.list.items self.new.list.items) }
        ensures decides { IfOk result (λ k. DecidesFirst self.new.list.items k rules.now) }
    {
        let mut rest = self.add(Step::Stop)?;
        for place in (0..rules.len()).rev() {
            rest = self.add_rule(&rules[place], rest)?;
        }
        Ok(rest)
    }

    /// The step from which on a rule is tested, before the step of the rules after it.
    fn add_rule(&mut self, rule: &LeftRule, rest: usize) -> Result<usize, AllocError>
        ensures kept { OnOk result (AreKept self.old.list.items self.new.list.items) }
        ensures decides { IfOk result (λ k. (v : Vector) (other : Option PlainMove)
            → Decides self.old.list.items v rest other
            → Decides self.new.list.items v k
            (if matches rule.now.cube.items v then Some rule.now.action else other)) }
    {
        let mut all = self.add(Step::Take(rule.action))?;
        for place in (0..rule.cube.len()).rev() {
            all = self.add(Step::Ask(test_of(rule.cube[place], all, rest)))?;
        }
        Ok(all)
    }
}

/// The question whether a literal holds.
fn test_of(lit: Lit, holds: usize, fails: usize) -> Test
    ensures fluent { result.fluent ≡ lit.fluent }
    ensures if_true { result.if_true ≡ (if lit.positive then holds else fails) }
    ensures if_false { result.if_false ≡ (if lit.positive then fails else holds) }
{
    if lit.positive {
        Test {
            fluent: lit.fluent,
            if_true: holds,
            if_false: fails,
        }
    } else {
        Test {
            fluent: lit.fluent,
            if_true: fails,
            if_false: holds,
        }
    }
}

/// A number that is mostly another for another step.
fn key_of(step: &Step) -> u64 {
    match step {
        Step::Stop => 0,
        Step::Take(chosen) => mix(1, mix(u64::from(chosen.action.0), u64::from(chosen.next))),
        Step::Ask(test) => mix(
            u64::from(test.fluent.0),
            mix(test.if_true as u64, test.if_false as u64),
        ),
    }
}

/// Two numbers as one that is mostly another for others.
pub(crate) fn mix(one: u64, other: u64) -> u64 {
    let sum = one
        .wrapping_mul(0x9E37_79B9_7F4A_7C15)
        .wrapping_add(other)
        .wrapping_mul(0xFF51_AFD7_ED55_8CCD);
    sum ^ sum >> 32
}
