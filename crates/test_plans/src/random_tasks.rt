//! Small tasks made from numbers, for tests.
ghost use Rattle.std.specs.Prelude.{◌<◌, ◌≤◌};
ghost use Rattle.task_core.specs.States.{IsWithin};

use std::alloc::{AllocError, Global};
use std::rc::RcStr;
use task_core::{
    Alternative, Change, Cond, FluentId, GroundAction, InitSpec, Lit, Outcome, State, Task,
};

/// Where the numbers of a task come from.
#[derive(Drop)]
struct Source {
    seed: u32,
    fluents: u32,
}

impl Source {
    fn below(&mut self, end: u32) -> u32
        requires { 0 < end }
        ensures { result < end }
    {
        self.seed = self
            .seed
            .wrapping_mul(1_664_525)
            .wrapping_add(1_013_904_223);
        (self.seed >> 8) % end
    }

    fn fluent(&mut self) -> FluentId {
        let end = self.fluents.max(1);
        FluentId(self.below(end))
    }

    fn lit(&mut self) -> Lit {
        Lit {
            fluent: self.fluent(),
            positive: self.below(2) == 0,
        }
    }
}

/// A condition in which conditions stand at most `depth` deep in one another.
#[cycle(cond)]
fn cond(alloc: Global, source: &mut Source, depth: u32) -> Result<Cond, AllocError> {
    if depth == 0 {
        return Ok(Cond::Is(source.fluent()));
    }
    match source.below(7) {
        0 => Ok(Cond::Yes),
        1 => Ok(Cond::No),
        2 | 3 => {
            let part = cond(alloc, source, depth - 1)?;
            Ok(Cond::Not(Box::new(alloc, part)?))
        }
        4 => Ok(Cond::All(conds(alloc, source, depth - 1)?)),
        5 => Ok(Cond::Any(conds(alloc, source, depth - 1)?)),
        _ => Ok(Cond::Is(source.fluent())),
    }
}

#[cycle(cond)]
fn conds(alloc: Global, source: &mut Source, depth: u32) -> Result<Vec<Cond>, AllocError> {
    let mut parts = Vec::new(alloc);
    for _ in 0..source.below(4) {
        parts.push(cond(alloc, source, depth)?)?;
    }
    Ok(parts)
}

fn outcome(alloc: Global, source: &mut Source) -> Result<Outcome, AllocError> {
    let mut changes = Vec::new(alloc);
    for _ in 0..source.below(5) {
        let cond = cond(alloc, source, 2)?;
        let mut lits = Vec::new(alloc);
        lits.push(source.lit())?;
        changes.push(Change { cond, lits })?;
    }
    Ok(Outcome { changes })
}

fn action(alloc: Global, source: &mut Source, word: &str) -> Result<GroundAction, AllocError> {
    let exec = cond(alloc, source, 3)?;
    let mut outcomes = Vec::new(alloc);
    for _ in 0..1 + source.below(4) {
        outcomes.push(outcome(alloc, source)?)?;
    }
    Ok(GroundAction {
        name: name(alloc, word)?,
        exec,
        outcomes,
    })
}

fn entry(alloc: Global, source: &mut Source) -> Result<Vec<Alternative>, AllocError> {
    let mut entry = Vec::new(alloc);
    for _ in 0..1 + source.below(3) {
        let mut lits = Vec::new(alloc);
        for _ in 0..source.below(4) {
            lits.push(source.lit())?;
        }
        entry.push(Alternative { lits })?;
    }
    Ok(entry)
}

fn name(alloc: Global, word: &str) -> Result<Vec<RcStr>, AllocError> {
    let mut words = Vec::new(alloc);
    words.push(RcStr::from_str(alloc, word)?)?;
    Ok(words)
}

/// The task of a seed: 1 to 5 fluents, two actions with 1 to 4 outcomes, up to two uncertain
/// entries, a goal in three of four, and an invariant in one of two.
pub fn task(alloc: Global, seed: u32) -> Result<Option<Task>, AllocError> {
    let mut source = Source {
        seed,
        fluents: 1 + seed % 5,
    };
    let mut fluents = Vec::new(alloc);
    for word in ["p", "q", "r", "s", "t"] {
        if fluents.len() < source.fluents as usize {
            fluents.push(name(alloc, word)?)?;
        }
    }
    let mut actions = Vec::new(alloc);
    for word in ["a", "b"] {
        actions.push(action(alloc, &mut source, word)?)?;
    }
    let mut entries = Vec::new(alloc);
    for _ in 0..source.below(3) {
        entries.push(entry(alloc, &mut source)?)?;
    }
    let facts = state(source.below(32), source.fluents % 8);
    let goal = if source.below(4) == 0 {
        None
    } else {
        Some(cond(alloc, &mut source, 3)?)
    };
    let init = InitSpec { facts, entries };
    let invariant = if seed % 2 == 0 {
        Cond::Yes
    } else {
        cond(alloc, &mut source, 2)?
    };
    Ok(Task::try_new(fluents, actions, init, goal, invariant))
}

/// The state whose first fluents have the values of the last bits of a number.
pub fn state(bits: u32, fluents: u32) -> State
    requires { fluents ≤ 32 }
    ensures { IsWithin fluents result }
{
    let mut state = State::none();
    for f in 0..fluents {
        state = state.with(FluentId(f), bits >> f & 1 == 1);
    }
    state
}
