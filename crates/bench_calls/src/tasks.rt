//! A large task, put into sets.
ghost use Rattle.std.specs.Prelude.{◌<◌};
ghost use Rattle.encode_task.specs.Made.{MadeOf};

use crate::random::Random;
use anyhow::{Result, bail};
use encode_task::{Enc, encode};
use std::alloc::{AllocError, Global};
use std::fmt;
use std::rc::RcStr;
use task_core::{
    ActionId, Change, Cond, FluentId, GroundAction, InitSpec, Lit, Outcome, State, Task,
};

/// How many fluents the task has.
const FLUENTS: u32 = 256;

/// How many literals each precondition has, and each outcome; they are of different fluents.
const LITERALS: u32 = 4;

/// The most nodes in the table of the sets.
const LIMIT: u32 = 4_194_304;

/// How many actions and outcomes a task has.
#[derive(Clone, Copy)]
pub struct TaskCounts {
    actions: u32,
    outcomes: u32,
}

impl fmt::Display for TaskCounts {
    fn fmt<W: fmt::Write>(&self, f: &mut fmt::Formatter<W>) -> fmt::Result {
        write!(f, "{} actions, {} outcomes", self.actions, self.outcomes)
    }
}

/// Makes a task with 256 fluents and `count` actions of one outcome each.
pub fn make(alloc: Global, count: u32) -> Result<TaskCounts> {
    let Some(task) = task(alloc, count)? else {
        bail!("this makes no task");
    };
    let mut outcomes = 0u32;
    for action in &task.actions {
        outcomes = outcomes.saturating_add(action.outcomes.len() as u32);
    }
    Ok(TaskCounts {
        actions: task.actions.len() as u32,
        outcomes,
    })
}

/// Makes the same task and puts it into sets.
pub fn put_in_sets(alloc: Global, count: u32) -> Result<TaskCounts> {
    let Some(task) = task(alloc, count)? else {
        bail!("this makes no task");
    };
    let enc = encode(alloc, &task, LIMIT)?;
    Ok(TaskCounts {
        actions: task.actions.len() as u32,
        outcomes: outcomes_in_sets(&task, &enc),
    })
}

fn outcomes_in_sets(task: &Task, enc: &Enc) -> u32
    requires { MadeOf task.now enc.now }
{
    let mut outcomes = 0u32;
    for a in 0..task.actions.len() as u32 {
        outcomes = outcomes.saturating_add(enc.outcomes(ActionId(a)));
    }
    outcomes
}

fn task(alloc: Global, count: u32) -> Result<Option<Task>, AllocError> {
    let mut random = Random::new();
    let mut fluents = Vec::new(alloc);
    for f in 0..FLUENTS {
        fluents.push(name(alloc, "f", f)?)?;
    }
    let mut actions = Vec::new(alloc);
    for a in 0..count {
        actions.push(action(alloc, &mut random, a)?)?;
    }
    let init = InitSpec {
        facts: State::none(),
        entries: Vec::new(alloc),
    };
    let goal = Some(Cond::Is(FluentId(0)));
    Ok(Task::try_new(fluents, actions, init, goal, Cond::Yes))
}

fn name(alloc: Global, word: &str, number: u32) -> Result<Vec<RcStr>, AllocError> {
    let mut words = Vec::new(alloc);
    words.push(RcStr::from_string(format!(in alloc; "{word}{number}")?)?)?;
    Ok(words)
}

fn action(alloc: Global, random: &mut Random, number: u32) -> Result<GroundAction, AllocError> {
    let mut parts = Vec::new(alloc);
    let mut changes = Vec::new(alloc);
    for place in 0..LITERALS {
        let wanted = literal(random, place);
        parts.push(condition(alloc, wanted)?)?;
        let mut lits = Vec::new(alloc);
        lits.push(literal(random, place))?;
        changes.push(Change {
            cond: Cond::Yes,
            lits,
        })?;
    }
    let mut outcomes = Vec::new(alloc);
    outcomes.push(Outcome { changes })?;
    Ok(GroundAction {
        name: name(alloc, "a", number)?,
        exec: Cond::All(parts),
        outcomes,
    })
}

/// A random literal of a fluent from the part of the fluents at a place.
fn literal(random: &mut Random, place: u32) -> Lit
    requires { place < 4 }
{
    let part = FLUENTS / LITERALS;
    Lit {
        fluent: FluentId(place * part + random.below(part)),
        positive: random.below(2) == 1,
    }
}

fn condition(alloc: Global, lit: Lit) -> Result<Cond, AllocError> {
    if lit.positive {
        Ok(Cond::Is(lit.fluent))
    } else {
        Ok(Cond::Not(Box::new(alloc, Cond::Is(lit.fluent))?))
    }
}
