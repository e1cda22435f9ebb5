//! Goals that are until-chains, with their stages and what they keep, or patrol goals, with their
//! visits, and goals that are neither.

use ctl_syntax::{ContextGoal, Ctl, UntilChain, as_context_goal};
use std::alloc::Global;
use std::test::Fail;
use task_core::{Cond, FluentId};

/// A goal, written after its parts: `p` and `q` are fluents, `G` stands for `ag`, `F` for `af`, `N`
/// for `not`, `U` for `au` of the two goals before it, and `&` takes these together.
fn goal(alloc: Global, text: &str) -> Result<Ctl, Fail> {
    let mut parts = Vec::new(alloc);
    for letter in text.bytes() {
        let made = next_goal(alloc, &mut parts, letter)?;
        parts.push(made)?;
    }
    Ok(parts.pop().ok_or("there is no goal")?)
}

fn next_goal(alloc: Global, parts: &mut Vec<Ctl>, letter: u8) -> Result<Ctl, Fail> {
    match letter {
        b'p' => Ok(Ctl::Plain(Cond::Is(FluentId(0)))),
        b'q' => Ok(Ctl::Plain(Cond::Is(FluentId(1)))),
        b'G' => Ok(Ctl::Ag(Box::new(alloc, last(parts)?)?)),
        b'F' => Ok(Ctl::Af(Box::new(alloc, last(parts)?)?)),
        b'N' => Ok(Ctl::Not(Box::new(alloc, last(parts)?)?)),
        b'U' => {
            let right = Box::new(alloc, last(parts)?)?;
            let left = Box::new(alloc, last(parts)?)?;
            Ok(Ctl::Au(left, right))
        }
        _ => {
            let right = last(parts)?;
            let left = last(parts)?;
            Ok(Ctl::All(vec![in alloc; left, right]?))
        }
    }
}

/// The last goal, which is taken away.
fn last(parts: &mut Vec<Ctl>) -> Result<Ctl, Fail> {
    Ok(parts.pop().ok_or("a part is missing")?)
}

/// The letter of a condition; `?` for one that is no fluent.
fn letter(cond: &Cond) -> char {
    match cond {
        Cond::Is(FluentId(0)) => 'p',
        Cond::Is(_) => 'q',
        _ => '?',
    }
}

/// Adds the letters of a condition's parts, and a mark at their end.
fn show(text: &mut String, cond: &Cond, end: char) -> Result<(), Fail> {
    match cond {
        Cond::All(parts) => {
            for part in parts {
                text.push(letter(part))?;
            }
        }
        _ => text.push(letter(cond))?,
    }
    Ok(text.push(end)?)
}

/// Adds the conditions of an until-chain: each stage and a comma, before it its guard and a `>`, if it
/// asks for anything; then what is kept and a full stop.
fn show_stages(text: &mut String, chain: &UntilChain) -> Result<(), Fail> {
    for stage in &chain.stages {
        match &stage.guard {
            Cond::All(_) => {}
            guard => show(text, guard, '>')?,
        }
        show(text, &stage.target, ',')?;
    }
    show(text, &chain.keep, '.')
}

/// The conditions of an until-chain, or each visit of a patrol goal and a semicolon; `none`.
fn shown(alloc: Global, found: &Option<ContextGoal>) -> Result<String, Fail> {
    let mut text = String::new(alloc);
    match found {
        Some(ContextGoal::Until(chain)) => show_stages(&mut text, chain)?,
        Some(ContextGoal::Patrol(visits)) => {
            for visit in visits {
                show(&mut text, visit, ';')?;
            }
        }
        None => text.push_str("none")?,
    }
    Ok(text)
}

#[test]
fn tells_goals_apart(rt: HostRuntime) -> Result<(), Fail> {
    let alloc = rt.alloc();
    let goals = [
        ("pG", "p."),
        ("pF", "p,."),
        ("pqF&F", "p,q,."),
        ("pqG&F", "p,q."),
        ("pqpG&F&F", "p,q,p."),
        ("pqU", "p>q,."),
        ("ppqG&U", "p>p,q."),
        ("pFG", "p;"),
        ("pFqF&G", "p;q;"),
        ("pq&F", "none"),
        ("pGqF&F", "none"),
        ("p", "none"),
        ("pFN", "none"),
        ("pFqU", "none"),
        ("pqG&G", "none"),
    ];
    for (text, wanted) in goals {
        let found = as_context_goal(alloc, &goal(alloc, text)?)?;
        assert_eq!(rt; shown(alloc, &found)?.as_str(), wanted, "of {text}");
    }
    Ok(())
}
