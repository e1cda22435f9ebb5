//! A search over the sets of a task, in two tries at most.

ghost use Rattle.command_base.specs.Words.{IsNodeLimit};
ghost use Rattle.dd_sets.specs.LiveSets.{IsSets};
ghost use Rattle.dd_sets.specs.Orders.{IsOwnOrder};
ghost use Rattle.encode_task.specs.Made.{MadeOf};
ghost use Rattle.encode_task.specs.Slots.{Encoded};
ghost use Rattle.std.specs.Prelude.{
  ◌≡◌,
  ◌≢◌,
  [],
  IfNone,
  IfOk,
  IfSome,
  IsErrOf,
  length,
  ℕ,
};
ghost use Rattle.task_core.specs.Tasks.{fluent_count, initial_states};
ghost use Rattle.task_core.specs.declared.tasks.Task.{Task as TaskOf};
ghost use Rattle.task_sets.specs.FullTables.{IsFullTry};

use crate::initial_sets::has_no_initial;
use crate::ordered_sets::chosen_order;
use dd_sets::{Order, SetErr};
use encode_task::{Enc, encode, encode_in_order};
use std::alloc::Global;
use task_core::Task;

/// A search over the sets of a task.
///
/// What it finds must not depend on the order of the variables, since it may be made in either of two.
/// `nodes` is the limit of the table that is asked for, and `fits` what a search asks of the task.
/// `finds` says what it found, and `lacks_room` of the table before and after a search why there was no
/// room in it.
pub trait SetSearch {
    /// What is found.
    type Found: Drop;

    ghost nodes: { Self → ℕ };

    ghost fits: { Self → TaskOf → Type 0 };

    ghost finds: { Self → TaskOf → Self.Found → Type 0 };

    ghost lacks_room: { Self → TaskOf → Encoded → Encoded → Type 0 };

    /// The most nodes of the table.
    fn nodes(&self) -> u32
        ensures { result ≡ nodes self.now };

    /// Searches in the table for so many nodes in which the sets of the task stand.
    fn find(&self, alloc: Global, task: &Task, enc: &mut Enc) -> Result<Self::Found, SetErr>
        requires made { MadeOf task.now enc.old }
        requires limit { enc.old.sets.limit ≡ nodes self.now }
        requires fits { fits self.now task.now }
        ensures found { IfOk result (finds self.now task.now) }
        ensures full { IsErrOf result SetErr.Full
            → lacks_room self.now task.now enc.old enc.new };
}

/// Searches for a task from nothing, in a table for as many nodes as are asked for: over variables in
/// an order that is chosen for the task, where that is another than the fluents' own, and if that
/// fails, once more over the fluents in their own order. A refusal is that of the last try. `None`
/// where there is no initial state: then nothing is searched.
pub fn search_in_tries<S: SetSearch>(
    alloc: Global,
    task: &Task,
    wanted: &S,
) -> Result<Option<S::Found>, SetErr>
    requires room { IsNodeLimit (S.nodes wanted.now) }
    requires fits { S.fits wanted.now task.now }
    ensures found { IfOk result (λ found. IfSome found (S.finds wanted.now task.now)) }
    ensures some { IfOk result (λ found. IfSome found (λ _. initial_states task.now ≢ [])) }
    ensures none { IfOk result (λ found. IfNone found (initial_states task.now ≡ [])) }
    ensures full { IsErrOf result SetErr.Full → IsFullTry (S.nodes wanted.now) task.now
        (S.lacks_room wanted.now task.now) }
{
    match chosen_order(alloc, task) {
        Ok(Some(order)) => match search_in_order(alloc, task, order, wanted) {
            Ok(found) => Ok(found),
            Err(_) => search_plainly(alloc, task, wanted),
        },
        Ok(None) | Err(_) => search_plainly(alloc, task, wanted),
    }
}

/// The first try: over variables in another order than the fluents' own. Nothing is said of why it
/// fails.
fn search_in_order<S: SetSearch>(
    alloc: Global,
    task: &Task,
    order: Order,
    wanted: &S,
) -> Result<Option<S::Found>, SetErr>
    requires room { IsNodeLimit (S.nodes wanted.now) }
    requires fits { S.fits wanted.now task.now }
    requires of_task { length order.fluents ≡ fluent_count task.now }
    requires another { ¬ IsOwnOrder order.fluents }
    ensures found { IfOk result (λ found. IfSome found (S.finds wanted.now task.now)) }
    ensures some { IfOk result (λ found. IfSome found (λ _. initial_states task.now ≢ [])) }
    ensures none { IfOk result (λ found. IfNone found (initial_states task.now ≡ [])) }
{
    let mut enc = encode_in_order(alloc, task, order, wanted.nodes())?;
    search_from_initial(alloc, task, &mut enc, wanted)
}

/// The last try: over the fluents in their own order.
fn search_plainly<S: SetSearch>(
    alloc: Global,
    task: &Task,
    wanted: &S,
) -> Result<Option<S::Found>, SetErr>
    requires room { IsNodeLimit (S.nodes wanted.now) }
    requires fits { S.fits wanted.now task.now }
    ensures found { IfOk result (λ found. IfSome found (S.finds wanted.now task.now)) }
    ensures some { IfOk result (λ found. IfSome found (λ _. initial_states task.now ≢ [])) }
    ensures none { IfOk result (λ found. IfNone found (initial_states task.now ≡ [])) }
    ensures full { IsErrOf result SetErr.Full → IsFullTry (S.nodes wanted.now) task.now
        (S.lacks_room wanted.now task.now) }
{
    let mut enc = encode(alloc, task, wanted.nodes())?;
    search_from_initial(alloc, task, &mut enc, wanted)
}

/// Searches over the sets of a task, if it has an initial state.
fn search_from_initial<S: SetSearch>(
    alloc: Global,
    task: &Task,
    enc: &mut Enc,
    wanted: &S,
) -> Result<Option<S::Found>, SetErr>
    requires made { MadeOf task.now enc.old }
    requires limit { enc.old.sets.limit ≡ S.nodes wanted.now }
    requires fits { S.fits wanted.now task.now }
    ensures found { IfOk result (λ found. IfSome found (S.finds wanted.now task.now)) }
    ensures some { IfOk result (λ found. IfSome found (λ _. initial_states task.now ≢ [])) }
    ensures none { IfOk result (λ found. IfNone found (initial_states task.now ≡ [])) }
    ensures begun { IsErrOf result SetErr.Full → initial_states task.now ≢ [] }
    ensures full { IsErrOf result SetErr.Full
        → S.lacks_room wanted.now task.now enc.old enc.new }
    ensures sound { IsSets enc.new.sets }
{
    if has_no_initial(task, enc) {
        enc.sets().sound();
        return Ok(None);
    }
    let found = wanted.find(alloc, task, enc);
    enc.sets().sound();
    Ok(Some(found?))
}
