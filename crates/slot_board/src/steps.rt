//! The steps of a search that change something, and which actions are spent: those that add nothing
//! any more.

ghost use Rattle.std.specs.Prelude.{◌≡◌, ◌++◌, ℕ, ◌<◌, [], ◌∷◌, IfErr, IfOk, OnOk, length, false};
ghost use Rattle.std.specs.Prelude.{slice_index_or, slice_set};

use dd_sets::SetErr;
use std::alloc::Global;
use task_core::ActionId;

/// A step of a search that changed something.
#[derive(Debug, Drop)]
pub enum Step {
    /// What an action leads into this layer was joined to the next one.
    Grow(ActionId),
    /// The next layer took the place of this one.
    Advance,
}

/// Notes a step behind the others.
pub fn note(steps: &mut Vec<Step>, step: Step) -> Result<(), SetErr>
    ensures noted { OnOk result (steps.new.items ≡ steps.old.items ++ step ∷ []) }
    ensures never_full { IfErr result (λ e. e ≡ SetErr.Memory) }
{
    match steps.push(step) {
        Ok(()) => Ok(()),
        Err(_) => Err(SetErr::Memory),
    }
}

/// So many actions, none of which is spent.
pub fn none_spent(alloc: Global, actions: u32) -> Result<Vec<bool>, SetErr>
    ensures long { IfOk result (λ spent. length spent.items ≡ actions) }
    ensures none { IfOk result (λ spent. (a : ℕ) → a < actions
        → slice_index_or spent.items a false ≡ false) }
    ensures never_full { IfErr result (λ e. e ≡ SetErr.Memory) }
{
    let spent = vec![in alloc; false; actions as usize]?;
    Ok(spent)
}

/// Whether an action is noted as spent.
pub fn is_spent(spent: &[bool], a: ActionId) -> bool
    requires { a.0 < length spent.now }
    ensures { result ≡ slice_index_or spent.now a.0 false }
{
    spent[a.0 as usize]
}

/// Notes whether an action is spent.
pub fn note_spent(spent: &mut Vec<bool>, a: ActionId, is: bool)
    requires { a.0 < length spent.old.items }
    ensures { spent.new.items ≡ slice_set spent.old.items a.0 is }
{
    spent[a.0 as usize] = is;
}
