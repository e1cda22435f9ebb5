//! Rules of a table with fewer literals, and fewer of them, for controllers whose states are too many to
//! be listed. Nothing is promised of them: they are to be judged before they are used.
//!
//! A literal goes where the states that the rule then matches besides are outside the goal and match no
//! rule with another action, or have two fluents that are never true at once. So the rules still take
//! the same action in each state that is reached.
#![tactic(auto)]

use mutex_pairs::Exclusions;
use plan_rules::Rule;
use search_space::{Part, choices_of, cube_of, is_marked, moves_of, part_of, small};
use std::alloc::{AllocError, Global};
use task_core::Task;

/// How often two partial states are compared at most. Then rules stay as they are.
const MOST_LOOKS: u64 = 1 << 27;

/// The rules of a table for a task with fewer literals, and without those that others cover. In a state
/// in which several rules match the first counts.
pub fn shorter_rules(alloc: Global, task: &Task, rules: &[Rule]) -> Result<Vec<Rule>, AllocError> {
    let mut shortening = Shortening::new(alloc, task, rules)?;
    for number in 0..rules.len() {
        shortening.shorten(number);
    }
    shortening.kept_rules(alloc, rules)
}

/// The rules as partial states with their actions, and where none is to match.
#[derive(Drop)]
struct Shortening {
    exclusions: Exclusions,
    goal: Vec<Part>,
    parts: Vec<Part>,
    actions: Vec<u32>,
    looks: u64,
}

impl Shortening {
    fn new(alloc: Global, task: &Task, rules: &[Rule]) -> Result<Shortening, AllocError> {
        let fluents = small(task.fluents.len()).min(256);
        let moves = moves_of(alloc, task)?;
        let mut shortening = Shortening {
            exclusions: Exclusions::find(alloc, fluents, &task.init, &moves)?,
            goal: Vec::new(alloc),
            parts: Vec::new(alloc),
            actions: Vec::new(alloc),
            looks: 0,
        };
        if let Some(goal) = &task.goal {
            shortening.goal = choices_of(alloc, goal, true)?;
        }
        for rule in rules {
            shortening.parts.push(part_of(&rule.cube))?;
            shortening.actions.push(rule.action.0)?;
        }
        Ok(shortening)
    }

    /// Takes literals from a rule that it doesn't need: first those of fluents that are false, then the
    /// others.
    fn shorten(&mut self, number: usize) {
        let Some(part) = self.parts.get(number).copied() else {
            return;
        };
        let mut short = part;
        for value in [false, true] {
            for fluent in 0..256u32 {
                if short.get(fluent) == Some(value) && self.may_go(&short, number, fluent) {
                    short.drop_fluent(fluent);
                }
            }
        }
        if let Some(own) = self.parts.get_mut(number) {
            *own = short;
        }
    }

    /// Whether the states with another value of a fluent may be matched, too.
    fn may_go(&mut self, part: &Part, number: usize, fluent: u32) -> bool {
        let mut other = *part;
        other.add(fluent, !part.value.get(fluent));
        if !self.exclusions.are_possible(&other.value) {
            return true;
        }
        self.looks = self.looks.saturating_add(self.parts.len() as u64);
        self.looks < MOST_LOOKS && self.is_free(&other, number)
    }

    /// Whether the states with these values are outside the goal and match no rule with another action.
    fn is_free(&self, part: &Part, number: usize) -> bool {
        let whole = self.exclusions.completed(part);
        for other in &self.goal {
            if self.meets(&whole, other) {
                return false;
            }
        }
        let own = self.actions.get(number);
        for (place, other) in self.parts.iter().enumerate() {
            if self.actions.get(place) != own && self.meets(&whole, other) {
                return false;
            }
        }
        true
    }

    /// Whether some state may have the values of both, of which the first is complete.
    fn meets(&self, whole: &Part, other: &Part) -> bool {
        whole.agrees(other) && self.exclusions.completed(other).agrees(whole)
    }

    /// The rules that no other one with the same action covers.
    fn kept_rules(&self, alloc: Global, rules: &[Rule]) -> Result<Vec<Rule>, AllocError> {
        let mut kept = Vec::new(alloc);
        let mut gone = vec![in alloc; false; rules.len()]?;
        for (number, rule) in rules.iter().enumerate() {
            let is_covered = self.is_covered(number, &gone);
            if let Some(is_gone) = gone.get_mut(number) {
                *is_gone = is_covered;
            }
            if let Some(part) = self.parts.get(number) {
                if !is_covered {
                    let cube = cube_of(alloc, part)?;
                    let action = rule.action;
                    kept.push(Rule { cube, action })?;
                }
            }
        }
        Ok(kept)
    }

    /// Whether another rule with the same action that isn't gone matches wherever a rule does.
    fn is_covered(&self, number: usize, gone: &[bool]) -> bool {
        let Some(part) = self.parts.get(number) else {
            return false;
        };
        let whole = self.exclusions.completed(part);
        for (place, other) in self.parts.iter().enumerate() {
            if place != number
                && !is_marked(gone, small(place))
                && self.actions.get(place) == self.actions.get(number)
                && whole.entails(other)
            {
                return true;
            }
        }
        false
    }
}
