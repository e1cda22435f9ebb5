//! Which goals are false after which steps of a run.

ghost use Rattle.std.specs.Prelude.{◌≡◌, ◌+◌, ◌<◌, ◌^◌, ◌++◌, ◌∷◌, [], IfOk, OnOk, length, map, ℕ};
ghost use Rattle.ctl_syntax.specs.Values.{ctl_value};
ghost use Rattle.goal_witness.specs.Lines.{
  along_lines,
  false_along as along_of,
  line_value,
  lines_from,
};
ghost use Rattle.goal_witness.specs.Links.{back_steps, how_value, links_value, stem_steps, step_count as count_of};

use crate::links::{How, Link};
use ctl_syntax::Ctl;
use std::alloc::{AllocError, Global};

/// A goal that is false in the states after so many steps up to so many.
#[derive(Clone, Copy)]
pub struct Line<'a> {
    pub from: usize,
    pub last: usize,
    pub goal: &'a Ctl,
}

/// What the parts of a witness say: where each is false, and the part that is false all along its steps,
/// where one is.
pub fn lines_of<'a>(alloc: Global, links: &[Link<'a>]) -> Result<Vec<Line<'a>>, AllocError>
    requires { (n : ℕ) → length (stem_steps (links_value n links.now))
        + length (back_steps (links_value n links.now)) < 2 ^ 64 }
    ensures { (n : ℕ) → IfOk result (λ lines.
        map line_value lines.items ≡ lines_from 0 (links_value n links.now)) }
{
    let mut lines = Vec::new(alloc);
    let mut from = 0;
    for link in links {
        let more = step_count(&link.how);
        push_link(&mut lines, from, more, link.part)?;
        from += more;
    }
    Ok(lines)
}

/// How many steps a part has.
fn step_count(how: &How) -> usize
    requires { (n : ℕ) → count_of (how_value n how.now) < 2 ^ 64 }
    ensures { (n : ℕ) → result ≡ count_of (how_value n how.now) }
{
    match how {
        How::False => 0,
        How::Way(steps) => steps.len(),
        How::Lasso(stem, back) => stem.len() + back.len(),
    }
}

/// Adds what a part says that has so many steps.
fn push_link<'a>(
    lines: &mut Vec<Line<'a>>,
    from: usize,
    more: usize,
    goal: &'a Ctl,
) -> Result<(), AllocError>
    requires { from + more < 2 ^ 64 }
    ensures { OnOk result (map line_value lines.new.items ≡ map line_value lines.old.items
        ++ (record { from = from; last = from; goal = ctl_value goal.now })
        ∷ along_lines from more (along_of (ctl_value goal.now))) }
{
    lines.push(Line {
        from,
        last: from,
        goal,
    })?;
    match goal {
        Ctl::Af(part) => push_along(lines, from, from + more, part),
        Ctl::Au(_, part) => push_along(lines, from, from + more, part),
        Ctl::Aw(_, part) => push_along(lines, from, from + more, part),
        _ => Ok(()),
    }
}

/// Adds that a goal is false after so many steps up to so many.
fn push_along<'a>(
    lines: &mut Vec<Line<'a>>,
    from: usize,
    last: usize,
    goal: &'a Ctl,
) -> Result<(), AllocError>
    ensures { OnOk result (map line_value lines.new.items ≡ map line_value lines.old.items
        ++ (record { from = from; last = last; goal = ctl_value goal.now }) ∷ []) }
{
    lines.push(Line { from, last, goal })?;
    Ok(())
}
