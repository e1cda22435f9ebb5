//! The state with each number against the list of all states, and which tasks need no list.

use initial_number::{Numbered, numbered_initial};
use std::alloc::{AllocError, Global};
use std::process::Abort;
use std::rc::RcStr;
use std::test::Fail;
use task_core::{Alternative, Cond, FluentId, InitSpec, Lit, State, Task, init_states};

/// The limit of the tests.
const MOST: usize = 24;

/// A letter as a literal: a capital adds its fluent, a small letter deletes it.
fn lit(letter: u8) -> Lit {
    Lit {
        fluent: FluentId(u32::from(letter & 7)),
        positive: letter.is_ascii_uppercase(),
    }
}

/// Entries by a text: `;` stands between them, `|` between the alternatives of one.
fn entries(alloc: Global, text: &str) -> Result<Vec<Vec<Alternative>>, AllocError> {
    let mut entries = Vec::new(alloc);
    for entry in text.split(';') {
        entries.push(alternatives(alloc, entry)?)?;
    }
    Ok(entries)
}

fn alternatives(alloc: Global, text: &str) -> Result<Vec<Alternative>, AllocError> {
    let mut alternatives = Vec::new(alloc);
    for part in text.split('|') {
        let mut lits = Vec::new(alloc);
        for letter in part.bytes() {
            lits.push(lit(letter))?;
        }
        alternatives.push(Alternative { lits })?;
    }
    Ok(alternatives)
}

fn fluents(alloc: Global) -> Result<Vec<Vec<RcStr>>, AllocError> {
    let mut names = Vec::new(alloc);
    for word in ["h", "a", "b", "c", "d", "e", "f", "g"] {
        let mut name = Vec::new(alloc);
        name.push(RcStr::from_str(alloc, word)?)?;
        names.push(name)?;
    }
    Ok(names)
}

/// A task with eight fluents of which `a` is a fact, these entries and an invariant.
fn task(alloc: Global, text: &str, invariant: Cond) -> Result<Task, Fail> {
    let init = InitSpec {
        facts: State::none().with(FluentId(1), true),
        entries: entries(alloc, text)?,
    };
    let task = Task::try_new(fluents(alloc)?, Vec::new(alloc), init, None, invariant);
    Ok(task.ok_or("no task")?)
}

fn named(states: &[State], number: usize) -> Numbered {
    match states.get(number) {
        Some(state) => Numbered::Found(*state),
        None => {
            if states.is_empty() {
                Numbered::NoInitial
            } else {
                Numbered::Beyond
            }
        }
    }
}

/// Each number names what it names in the list.
fn agrees(rt: &impl Abort, alloc: Global, text: &str, invariant: Cond) -> Result<(), Fail> {
    let task = task(alloc, text, invariant)?;
    let listed = init_states(alloc, &task, MOST);
    for number in 0..MOST + 2 {
        let expected = match &listed {
            Ok(states) => Ok(named(states, number)),
            Err(err) => Err(*err),
        };
        let found = numbered_initial(alloc, &task, number, MOST);
        assert_eq!(rt; found, expected, "{text} {number}");
    }
    Ok(())
}

#[test]
fn agrees_with_the_list(rt: HostRuntime) -> Result<(), Fail> {
    let independent = "A|a b|B B|C| A|a;B|b;C|c C|c;B|b;A|a AB|a;C|D|E;F|f Aa|a B|C|D;E|F|G;A|a";
    let dependent = "A|A A|Aa B|C;D|b A|a;A|B A|a;B|b;C|c;D|d;E|e B|C;BC|bc|Bc";
    for texts in [independent, dependent] {
        for text in texts.split(' ') {
            agrees(&rt, rt.alloc(), text, Cond::Yes)?;
        }
    }
    Ok(())
}

#[test]
fn agrees_where_an_invariant_leaves_some(rt: HostRuntime) -> Result<(), Fail> {
    let alloc = rt.alloc();
    agrees(&rt, alloc, "A|a;B|b;C|c", Cond::Is(FluentId(2)))?;
    agrees(&rt, alloc, "A|a", Cond::No)?;
    agrees(&rt, alloc, "A|a;B|b", Cond::All(Vec::new(alloc)))
}
