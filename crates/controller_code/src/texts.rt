//! The text of a program.

ghost use Rattle.controller_code.specs.CodeNames.{is_code_name as is_named};
ghost use Rattle.controller_code.specs.FirstMoves.{contexts_of};
ghost use Rattle.controller_code.specs.Texts.{
  common_text,
  frame_byte,
  name_line,
  named,
  question_mark,
  rules_text as text_of_rules,
  steps_text as text_of_steps,
  string_byte,
};
ghost use Rattle.plan_rules.specs.Rules.{plain_of};
ghost use Rattle.plan_rules.specs.Texts.{atom_text};
ghost use Rattle.std.specs.List.{flat_map};
ghost use Rattle.std.specs.Prelude.{◌≡◌, ◌++◌, IfOk, IsTrue, OnOk, map, string_bytes};
ghost use Rattle.std.specs.Rc.{rc_str_bytes};
ghost use Rattle.task_core.specs.Names.{name_bytes, name_of};

use crate::frames::{
    actions_head, contexts_head, fluents_head, functions, goal_head, outcomes_head, rules_head,
    rules_tail, starts_head, steps_head, steps_tail,
};
use crate::numbers::{push_number, push_text};
use crate::rows;
use crate::trees::Tree;
use plan_rules::{Plan, push_name};
use std::alloc::{AllocError, Global};
use std::rc::RcStr;
use task_core::{GroundAction, Task};

/// A programming language.
#[derive(Clone, Copy, Debug, PartialEq, Eq)]
pub enum Language {
    C,
    Rust,
    Python,
}

/// The program of this name that decides by a plan's rules.
pub fn rules_text(
    alloc: Global,
    language: Language,
    name: &str,
    task: &Task,
    plan: &Plan,
) -> Result<Vec<u8>, AllocError>
    requires name { IsTrue (is_named name.now) }
    ensures text { IfOk result (λ text. text.items
        ≡ text_of_rules language name.now task.now (plain_of plan.now)) }
{
    let mut out = Vec::new(alloc);
    push_common(&mut out, alloc, language, name, task, plan)?;
    push_frame(&mut out, name, rules_head(language))?;
    rows::push_rules(&mut out, alloc, plan)?;
    push_frame(&mut out, name, rules_tail(language))?;
    Ok(out)
}

/// The program of this name that decides by the steps of a tree.
pub fn steps_text(
    alloc: Global,
    language: Language,
    name: &str,
    task: &Task,
    plan: &Plan,
    tree: &Tree,
) -> Result<Vec<u8>, AllocError>
    requires name { IsTrue (is_named name.now) }
    ensures text { IfOk result (λ text. text.items
        ≡ text_of_steps language name.now task.now (plain_of plan.now) tree.now) }
{
    let mut out = Vec::new(alloc);
    push_common(&mut out, alloc, language, name, task, plan)?;
    push_frame(&mut out, name, steps_head(language))?;
    rows::push_steps(&mut out, &tree.steps)?;
    push_frame(&mut out, name, starts_head(language))?;
    rows::push_starts(&mut out, &tree.starts)?;
    push_frame(&mut out, name, steps_tail(language))?;
    Ok(out)
}

/// Appends what both forms of a program have.
fn push_common(
    out: &mut Vec<u8>,
    alloc: Global,
    language: Language,
    name: &str,
    task: &Task,
    plan: &Plan,
) -> Result<(), AllocError>
    ensures { OnOk result (out.new.items ≡ out.old.items
        ++ common_text language name.now task.now (plain_of plan.now)) }
{
    push_frame(out, name, fluents_head(language))?;
    push_fluents(out, alloc, language, &task.fluents)?;
    push_frame(out, name, actions_head(language))?;
    push_actions(out, alloc, language, &task.actions)?;
    push_frame(out, name, contexts_head(language))?;
    push_number(out, contexts_in(plan))?;
    push_frame(out, name, goal_head(language))?;
    rows::push_goal(out, alloc, task, plan)?;
    push_frame(out, name, outcomes_head(language))?;
    rows::push_actions(out, alloc, &task.actions)?;
    push_frame(out, name, functions(language))
}

fn contexts_in(plan: &Plan) -> u32
    ensures { result ≡ contexts_of (plain_of plan.now) }
{
    match plan {
        Plan::Table(_) => 1,
        Plan::Auto(automaton) => automaton.contexts,
    }
}

/// Appends a fixed text, with the program's name in place of `@`.
fn push_frame(out: &mut Vec<u8>, name: &str, frame: &str) -> Result<(), AllocError>
    ensures { OnOk result (out.new.items ≡ out.old.items ++ named name.now frame.now) }
{
    for byte in frame.as_bytes() {
        push_frame_byte(out, name, *byte)?;
    }
    Ok(())
}

/// Appends a byte of a fixed text.
fn push_frame_byte(out: &mut Vec<u8>, name: &str, byte: u8) -> Result<(), AllocError>
    ensures { OnOk result (out.new.items ≡ out.old.items ++ frame_byte name.now byte) }
{
    if byte == b'@' {
        push_text(out, name)
    } else {
        out.push(byte)?;
        Ok(())
    }
}

/// Appends the names of fluents.
fn push_fluents(
    out: &mut Vec<u8>,
    alloc: Global,
    language: Language,
    fluents: &[Vec<RcStr>],
) -> Result<(), AllocError>
    ensures { OnOk result (out.new.items ≡ out.old.items
        ++ flat_map (name_line language) (map name_bytes fluents.now)) }
{
    for fluent in fluents {
        push_name_line(out, alloc, language, fluent)?;
    }
    Ok(())
}

/// Appends the names of actions.
fn push_actions(
    out: &mut Vec<u8>,
    alloc: Global,
    language: Language,
    actions: &[GroundAction],
) -> Result<(), AllocError>
    ensures { OnOk result (out.new.items ≡ out.old.items
        ++ flat_map (name_line language) (map name_of actions.now)) }
{
    for action in actions {
        push_name_line(out, alloc, language, &action.name)?;
    }
    Ok(())
}

fn push_name_line(
    out: &mut Vec<u8>,
    alloc: Global,
    language: Language,
    words: &[RcStr],
) -> Result<(), AllocError>
    ensures { OnOk result (out.new.items ≡ out.old.items
        ++ name_line language (map rc_str_bytes words.now)) }
{
    let mut name = String::new(alloc);
    push_name(&mut name, words)?;
    push_text(out, "    \"")?;
    push_string(out, language, name.as_bytes())?;
    push_text(out, "\",\n")
}

/// Appends bytes as they stand in a string.
fn push_string(out: &mut Vec<u8>, language: Language, bytes: &[u8]) -> Result<(), AllocError>
    ensures { OnOk result (out.new.items ≡ out.old.items
        ++ flat_map (string_byte language) bytes.now) }
{
    for byte in bytes {
        push_string_byte(out, language, *byte)?;
    }
    Ok(())
}

/// Appends a byte as it stands in a string.
fn push_string_byte(out: &mut Vec<u8>, language: Language, byte: u8) -> Result<(), AllocError>
    ensures { OnOk result (out.new.items ≡ out.old.items ++ string_byte language byte) }
{
    match byte {
        b'"' => push_text(out, "\\\""),
        b'\\' => push_text(out, "\\\\"),
        b'?' => push_text(out, mark(language)),
        _ => {
            out.push(byte)?;
            Ok(())
        }
    }
}

/// A question mark as it stands in a string.
fn mark(language: Language) -> &'static str
    ensures { result.now ≡ question_mark language }
{
    match language {
        Language::C => "\\?",
        Language::Rust => "?",
        Language::Python => "?",
    }
}
