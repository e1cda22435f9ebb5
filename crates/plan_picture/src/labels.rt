//! Names as they stand within quotes, each made once.

ghost use Rattle.plan_picture.specs.Labels.{bytes_of};
ghost use Rattle.plan_picture.specs.Texts.{
  has_long_name as has_a_long_name,
  is_long_name,
  label_at as label_of_number,
  most_in_name,
  name_label,
  needs_backslash,
  quoted,
  quoted_byte,
};
ghost use Rattle.plan_rules.specs.Texts.{atom_text, name_at};
ghost use Rattle.std.specs.List.{list_any};
ghost use Rattle.std.specs.Prelude.{
  ◌≡◌,
  ◌++◌,
  IfOk,
  IsErrOf,
  OnOk,
  false,
  length,
  map,
  nat_lt,
  true,
};
ghost use Rattle.std.specs.Rc.{rc_str_bytes};
ghost use Rattle.task_core.specs.Names.{name_bytes, name_of};
ghost use Rattle.task_core.specs.Tasks.{action_names, fluent_names};

use crate::text::TextErr;
use plan_rules::push_name;
use std::alloc::{AllocError, Global};
use std::rc::RcStr;
use task_core::{ActionId, GroundAction, Task};

/// How many bytes a name may have within quotes.
const MAX_NAME: usize = 4_096;

/// The labels of a task's fluents and actions: their names as they stand within quotes.
#[derive(Drop)]
pub(crate) struct Labels {
    pub(crate) fluents: Vec<Vec<u8>>,
    pub(crate) actions: Vec<Vec<u8>>,
}

/// The labels of a task; `TooLong` exactly where a name has more than 4,096 bytes.
pub(crate) fn labels_of(alloc: Global, task: &Task) -> Result<Labels, TextErr>
    ensures fluents { IfOk result (λ labels.
        bytes_of labels.fluents.items ≡ map name_label (fluent_names task.now)) }
    ensures actions { IfOk result (λ labels.
        bytes_of labels.actions.items ≡ map name_label (action_names task.now)) }
    ensures short { OnOk result
        (has_a_long_name (fluent_names task.now) (action_names task.now) ≡ false) }
    ensures long { IsErrOf result TextErr.TooLong
        → has_a_long_name (fluent_names task.now) (action_names task.now) ≡ true }
{
    let fluents = fluent_labels(alloc, &task.fluents)?;
    let actions = action_labels(alloc, &task.actions)?;
    Ok(Labels { fluents, actions })
}

#[tactic(auto, using(crate::proofs::Anys::any_at))]
fn fluent_labels(alloc: Global, fluents: &[Vec<RcStr>]) -> Result<Vec<Vec<u8>>, TextErr>
    ensures labels { IfOk result
        (λ labels. bytes_of labels.items ≡ map name_label (map name_bytes fluents.now)) }
    ensures short { OnOk result (list_any is_long_name (map name_bytes fluents.now) ≡ false) }
    ensures long { IsErrOf result TextErr.TooLong
        → list_any is_long_name (map name_bytes fluents.now) ≡ true }
{
    let mut labels = Vec::new(alloc);
    for fluent in fluents {
        match short_label(alloc, fluent) {
            Ok(label) => labels.push(label)?,
            Err(error) => return Err(error),
        }
    }
    Ok(labels)
}

#[tactic(auto, using(crate::proofs::Anys::any_at))]
fn action_labels(alloc: Global, actions: &[GroundAction]) -> Result<Vec<Vec<u8>>, TextErr>
    ensures labels { IfOk result
        (λ labels. bytes_of labels.items ≡ map name_label (map name_of actions.now)) }
    ensures short { OnOk result (list_any is_long_name (map name_of actions.now) ≡ false) }
    ensures long { IsErrOf result TextErr.TooLong
        → list_any is_long_name (map name_of actions.now) ≡ true }
{
    let mut labels = Vec::new(alloc);
    for action in actions {
        match short_label(alloc, &action.name) {
            Ok(label) => labels.push(label)?,
            Err(error) => return Err(error),
        }
    }
    Ok(labels)
}

/// The label of a name; `TooLong` exactly where it has more than 4,096 bytes.
fn short_label(alloc: Global, words: &[RcStr]) -> Result<Vec<u8>, TextErr>
    ensures label { IfOk result (λ label. label.items ≡ name_label (map rc_str_bytes words.now)) }
    ensures short { OnOk result (is_long_name (map rc_str_bytes words.now) ≡ false) }
    ensures long { IsErrOf result TextErr.TooLong
        → is_long_name (map rc_str_bytes words.now) ≡ true }
{
    let mut label = Vec::new(alloc);
    push_label(alloc, &mut label, words)?;
    if is_long(&label) {
        return Err(TextErr::TooLong);
    }
    Ok(label)
}

fn is_long(label: &[u8]) -> bool
    ensures { result ≡ nat_lt most_in_name (length label.now) }
{
    label.len() > MAX_NAME
}

/// The label of a number; the empty one past the last.
pub(crate) fn label_at(labels: &[Vec<u8>], number: u32) -> &[u8]
    ensures { result.now ≡ label_of_number (bytes_of labels.now) number }
{
    match labels.get(number as usize) {
        Some(label) => label,
        None => &[],
    }
}

/// Whether a byte has a backslash before it within quotes.
fn is_escaped(byte: u8) -> bool
    ensures { result ≡ needs_backslash byte }
{
    byte == b'"' || byte == b'\\'
}

/// Appends a byte within quotes.
fn push_byte(out: &mut Vec<u8>, byte: u8) -> Result<(), AllocError>
    ensures { OnOk result (out.new.items ≡ out.old.items ++ quoted_byte byte) }
{
    if is_escaped(byte) {
        out.extend_from_slice(&[b'\\', byte])?;
        return Ok(());
    }
    out.push(byte)?;
    Ok(())
}

/// Appends bytes within quotes.
fn push_bytes(out: &mut Vec<u8>, bytes: &[u8]) -> Result<(), AllocError>
    ensures { OnOk result (out.new.items ≡ out.old.items ++ quoted bytes.now) }
{
    for byte in bytes {
        push_byte(out, *byte)?;
    }
    Ok(())
}

/// Appends a name within quotes.
pub fn push_label(alloc: Global, out: &mut Vec<u8>, words: &[RcStr]) -> Result<(), AllocError>
    ensures { OnOk result (out.new.items
        ≡ out.old.items ++ quoted (atom_text (map rc_str_bytes words.now))) }
{
    let mut name = String::new(alloc);
    push_name(&mut name, words)?;
    push_bytes(out, name.as_bytes())
}

/// The name of an action; the empty one past the last.
pub fn action_name(task: &Task, action: ActionId) -> &[RcStr]
    ensures { map rc_str_bytes result.now ≡ name_at (action_names task.now) action.0 }
{
    match task.actions.get(action.0 as usize) {
        Some(action) => &action.name,
        None => &[],
    }
}
