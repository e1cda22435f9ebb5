//! The text of goals, and of where they are false on a run.

ghost use Rattle.std.specs.Prelude.{◌≡◌, ◌++◌, OnOk, map, string_bytes};
ghost use Rattle.ctl_syntax.specs.Goals.{goal_row};
ghost use Rattle.ctl_syntax.specs.Values.{ctl_value};
ghost use Rattle.task_core.specs.Names.{name_bytes};
ghost use Rattle.goal_witness.specs.Lines.{line_value};
ghost use Rattle.goal_witness.specs.Texts.{
  false_line,
  false_lines,
  first_part,
  goal_text,
  one_part,
  parts_text,
  states_text,
};

use crate::lines::Line;
use ctl_syntax::Ctl;
use plan_rules::push_number;
use state_text::push_condition;
use std::alloc::AllocError;
use std::rc::RcStr;

/// Appends a new line, indented, for each goal that is false after some steps.
pub fn push_lines(
    out: &mut String,
    fluents: &[Vec<RcStr>],
    lines: &[Line<'_>],
) -> Result<(), AllocError>
    ensures { OnOk result (string_bytes out.new ≡ string_bytes out.old
        ++ false_lines (map name_bytes fluents.now) (map line_value lines.now)) }
{
    for line in lines {
        push_line(out, fluents, line)?;
    }
    Ok(())
}

/// Appends a new line, indented, of a goal that is false after some steps.
fn push_line(out: &mut String, fluents: &[Vec<RcStr>], line: &Line<'_>) -> Result<(), AllocError>
    ensures { OnOk result (string_bytes out.new ≡ string_bytes out.old
        ++ false_line (map name_bytes fluents.now) (line_value line.now)) }
{
    out.push('\n')?;
    out.push_str("  ")?;
    push_states(out, line.from, line.last)?;
    out.push_str(": ")?;
    push_goal(out, fluents, line.goal)?;
    out.push_str(" is false")
}

/// Appends the steps after which a state is.
fn push_states(out: &mut String, from: usize, last: usize) -> Result<(), AllocError>
    ensures { OnOk result (string_bytes out.new ≡ string_bytes out.old ++ states_text from last) }
{
    if from == last {
        out.push_str("after step ")?;
        return push_number(out, from);
    }
    out.push_str("after steps ")?;
    push_number(out, from)?;
    out.push_str(" to ")?;
    push_number(out, last)
}

/// Appends goals, each after a space.
#[cycle(printing)]
fn push_goals(out: &mut String, fluents: &[Vec<RcStr>], goals: &[Ctl]) -> Result<(), AllocError>
    ensures { OnOk result (string_bytes out.new ≡ string_bytes out.old
        ++ parts_text (map name_bytes fluents.now) (goal_row (map ctl_value goals.now))) }
{
    for goal in goals {
        out.push(' ')?;
        push_goal(out, fluents, goal)?;
    }
    Ok(())
}

/// Appends a form with one part.
#[cycle(printing)]
fn push_one(
    out: &mut String,
    fluents: &[Vec<RcStr>],
    word: &str,
    part: &Ctl,
) -> Result<(), AllocError>
    ensures { OnOk result (string_bytes out.new ≡ string_bytes out.old
        ++ one_part word.now (goal_text (map name_bytes fluents.now) (ctl_value part.now))) }
{
    out.push_str(word)?;
    push_goal(out, fluents, part)?;
    out.push(')')
}

/// Appends the first of the two parts of a form.
#[cycle(printing)]
fn push_first(
    out: &mut String,
    fluents: &[Vec<RcStr>],
    word: &str,
    part: &Ctl,
) -> Result<(), AllocError>
    ensures { OnOk result (string_bytes out.new ≡ string_bytes out.old
        ++ first_part word.now (goal_text (map name_bytes fluents.now) (ctl_value part.now))) }
{
    out.push_str(word)?;
    push_goal(out, fluents, part)?;
    out.push(' ')
}

/// Appends a goal, as it stands in a problem.
#[cycle(printing)]
pub fn push_goal(out: &mut String, fluents: &[Vec<RcStr>], goal: &Ctl) -> Result<(), AllocError>
    ensures { OnOk result (string_bytes out.new ≡ string_bytes out.old
        ++ goal_text (map name_bytes fluents.now) (ctl_value goal.now)) }
{
    match goal {
        Ctl::Plain(cond) => push_condition(out, fluents, cond),
        Ctl::Not(part) => push_one(out, fluents, "(not ", part),
        Ctl::All(parts) => {
            out.push_str("(and")?;
            push_goals(out, fluents, parts)?;
            out.push(')')
        }
        Ctl::Any(parts) => {
            out.push_str("(or")?;
            push_goals(out, fluents, parts)?;
            out.push(')')
        }
        Ctl::Imply(left, right) => {
            push_first(out, fluents, "(imply ", left)?;
            push_goal(out, fluents, right)?;
            out.push(')')
        }
        Ctl::Ax(part) => push_one(out, fluents, "(ax ", part),
        Ctl::Ex(part) => push_one(out, fluents, "(ex ", part),
        Ctl::Af(part) => push_one(out, fluents, "(af ", part),
        Ctl::Ef(part) => push_one(out, fluents, "(ef ", part),
        Ctl::Ag(part) => push_one(out, fluents, "(ag ", part),
        Ctl::Eg(part) => push_one(out, fluents, "(eg ", part),
        Ctl::Au(left, right) => {
            push_first(out, fluents, "(au ", left)?;
            push_goal(out, fluents, right)?;
            out.push(')')
        }
        Ctl::Eu(left, right) => {
            push_first(out, fluents, "(eu ", left)?;
            push_goal(out, fluents, right)?;
            out.push(')')
        }
        Ctl::Aw(left, right) => {
            push_first(out, fluents, "(aw ", left)?;
            push_goal(out, fluents, right)?;
            out.push(')')
        }
        Ctl::Ew(left, right) => {
            push_first(out, fluents, "(ew ", left)?;
            push_goal(out, fluents, right)?;
            out.push(')')
        }
    }
}
