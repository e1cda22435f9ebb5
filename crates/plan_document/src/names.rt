//! Names as JSON.

ghost use Rattle.plan_document.specs.Names.{name_data, names_data};
ghost use Rattle.plan_rules.specs.Texts.{atom_text};
ghost use Rattle.serde_json.specs.View.{view};
ghost use Rattle.std.specs.Prelude.{◌≡◌, IfOk, map, string_bytes};
ghost use Rattle.std.specs.Rc.{rc_str_bytes};
ghost use Rattle.task_core.specs.Names.{name_bytes, name_of};

use plan_rules::push_name;
use serde_json::Value;
use std::alloc::{AllocError, Global};
use std::rc::RcStr;
use task_core::GroundAction;

/// A name as in the text of a plan: `(at a)`.
pub(crate) fn name_text(alloc: Global, words: &[RcStr]) -> Result<String, AllocError>
    ensures { IfOk result (λ text. string_bytes text ≡ atom_text (map rc_str_bytes words.now)) }
{
    let mut text = String::new(alloc);
    push_name(&mut text, words)?;
    Ok(text)
}

/// A name as a string.
pub fn name_value(alloc: Global, words: &[RcStr]) -> Result<Value, AllocError>
    ensures { IfOk result (λ value. view value ≡ name_data (map rc_str_bytes words.now)) }
{
    let text = name_text(alloc, words)?;
    Ok(Value::from(text))
}

/// The names of fluents as an array.
pub fn fluent_array(alloc: Global, fluents: &[Vec<RcStr>]) -> Result<Value, AllocError>
    ensures { IfOk result (λ value. view value ≡ names_data (map name_bytes fluents.now)) }
{
    let mut names = Vec::new(alloc);
    for fluent in fluents {
        names.push(name_value(alloc, fluent)?)?;
    }
    Ok(Value::from(names))
}

/// The names of actions as an array.
pub fn action_array(alloc: Global, actions: &[GroundAction]) -> Result<Value, AllocError>
    ensures { IfOk result (λ value. view value ≡ names_data (map name_of actions.now)) }
{
    let mut names = Vec::new(alloc);
    for action in actions {
        names.push(name_value(alloc, &action.name)?)?;
    }
    Ok(Value::from(names))
}
