//! The search for the plan of a class, or for the certificate that there is none.

ghost use Rattle.command_base.specs.Words.{IsNodeLimit};
ghost use Rattle.dd_sets.specs.Frames.{Owns};
ghost use Rattle.dd_sets.specs.Rooms.{NoRoom};
ghost use Rattle.encode_task.specs.Made.{MadeOf};
ghost use Rattle.plan_command.specs.Enough.{BoundsSets, IsTightForClass};
ghost use Rattle.plan_command.specs.FoundPlans.{
  HasSolution,
  IsCertified,
  IsSearched,
  IsSought,
  IsSoughtFrom,
};
ghost use Rattle.std.specs.Prelude.{◌≡◌, ◌+◌, ◌*◌, [], IsErrOf, IsSome, false, true, ℕ};
ghost use Rattle.task_core.specs.Tasks.{action_count, initial_states, system_of};
ghost use Rattle.task_sets.specs.FullTables.{IsTightToEncode};

use cyclic_plan::{cert_cyclic, plan_cyclic};
use dd_sets::{SetErr, no_room_is_small, no_room_is_tight, no_room_of_fewer, tight_is_monotone};
use encode_task::{Enc, kept_sets_bound_nodes};
use plan_certs::Certificate;
use plan_rules::{Class, TablePlan};
use plan_theory::{Found, printed_plan_is_shortest};
use reach_plan::{cert_strong, cert_weak, plan_strong, plan_weak};
use std::alloc::Global;
use task_core::{Task, tasks_have_systems};
use task_sets::{SetSearch, search_in_tries};

/// What is found where the certificate that there is no plan is wanted, too, or isn't.
#[derive(Drop)]
pub(crate) enum Sought {
    /// A plan.
    Table(TablePlan),
    /// There is none, and no certificate is wanted.
    Missing,
    /// There is none, which this shows.
    Certified(Certificate),
}

/// The search for the plan of a class in a table for so many nodes, and for the certificate that there
/// is none, if that is wanted.
#[derive(Clone, Copy)]
pub(crate) struct ClassSearch {
    pub(crate) class: Class,
    pub(crate) certified: bool,
    pub(crate) nodes: u32,
}

impl SetSearch for ClassSearch {
    ghost use Rattle.plan_command.specs.Enough.{LacksClassRoom};
    ghost use Rattle.plan_command.specs.FoundPlans.{IsSought};
    ghost use Rattle.std.specs.Prelude.{IsSome, Ok};

    type Found = Sought;

    ghost nodes = { λ self. self.nodes };

    ghost fits = { λ self task. IsSome task.goal };

    ghost finds = { λ self task found. IsSought self.certified self.class task (Ok found) };

    ghost lacks_room = { λ self task. LacksClassRoom self.class task };

    fn nodes(&self) -> u32 {
        self.nodes
    }

    fn find(&self, alloc: Global, task: &Task, enc: &mut Enc) -> Result<Sought, SetErr> {
        find_sought(alloc, self.class, self.certified, task, enc)
    }
}

/// What is found for a task; `None` where there is no initial state. It is the same over variables in
/// any order.
pub(crate) fn search_task(
    alloc: Global,
    wanted: &ClassSearch,
    task: &Task,
) -> Result<Option<Sought>, SetErr>
    requires room { IsNodeLimit wanted.now.nodes }
    requires goal { IsSome task.now.goal }
    ensures found { IsSoughtFrom wanted.now.certified wanted.now.class task.now result }
    ensures full { IsErrOf result SetErr.Full
        → IsTightForClass wanted.now.class wanted.now.nodes task.now }
    ensures not_begun { IsErrOf result SetErr.Full → initial_states task.now ≡ []
        → IsTightToEncode wanted.now.nodes task.now }
{
    // These do nothing: that few nodes are too few for more sets, and for sets of their sizes, rests
    // on what they promise.
    tight_is_monotone();
    no_room_is_tight();
    no_room_is_small();
    kept_sets_bound_nodes();
    search_in_tries(alloc, task, wanted)
}

/// The plan for a task, over its sets, or that there is none, with the certificate where it is wanted.
fn find_sought(
    alloc: Global,
    class: Class,
    certified: bool,
    task: &Task,
    enc: &mut Enc,
) -> Result<Sought, SetErr>
    requires made { MadeOf task.now enc.old }
    requires goal { IsSome task.now.goal }
    ensures found { IsSought certified class task.now result }
    ensures full { IsErrOf result SetErr.Full → (w : ℕ) → BoundsSets class task.now w
        → NoRoom w (3 * action_count task.now + 32) 16 enc.old.sets enc.new.sets }
    ensures still_made { MadeOf task.now enc.new }
    ensures slots { Owns enc.old.sets enc.new.sets [] }
{
    if certified {
        find_certified(alloc, class, task, enc)
    } else {
        find_uncertified(alloc, class, task, enc)
    }
}

/// The plan for a task, over its sets, or that there is none.
fn find_uncertified(
    alloc: Global,
    class: Class,
    task: &Task,
    enc: &mut Enc,
) -> Result<Sought, SetErr>
    requires made { MadeOf task.now enc.old }
    requires goal { IsSome task.now.goal }
    ensures found { IsSought false class task.now result }
    ensures full { IsErrOf result SetErr.Full → (w : ℕ) → BoundsSets class task.now w
        → NoRoom w (3 * action_count task.now + 32) 16 enc.old.sets enc.new.sets }
    ensures still_made { MadeOf task.now enc.new }
    ensures slots { Owns enc.old.sets enc.new.sets [] }
{
    match find_plan(alloc, class, task, enc)? {
        Found::Plan(plan) => Ok(Sought::Table(plan)),
        Found::NoPlan => Ok(Sought::Missing),
    }
}

/// The certificate that there is no plan for a task, over its sets; or else the plan, which is looked
/// for once it is known that there is one.
fn find_certified(alloc: Global, class: Class, task: &Task, enc: &mut Enc) -> Result<Sought, SetErr>
    requires made { MadeOf task.now enc.old }
    requires goal { IsSome task.now.goal }
    ensures found { IsSought true class task.now result }
    ensures full { IsErrOf result SetErr.Full → (w : ℕ) → BoundsSets class task.now w
        → NoRoom w (3 * action_count task.now + 32) 16 enc.old.sets enc.new.sets }
    ensures still_made { MadeOf task.now enc.new }
    ensures slots { Owns enc.old.sets enc.new.sets [] }
{
    match find_certificate(alloc, class, task, enc)? {
        Some(certificate) => Ok(Sought::Certified(certificate)),
        None => find_existing(alloc, class, task, enc),
    }
}

/// The plan for a task that has one, over its sets.
fn find_existing(alloc: Global, class: Class, task: &Task, enc: &mut Enc) -> Result<Sought, SetErr>
    requires made { MadeOf task.now enc.old }
    requires goal { IsSome task.now.goal }
    requires some { HasSolution class (system_of task.now) }
    ensures found { IsSought true class task.now result }
    ensures full { IsErrOf result SetErr.Full → (w : ℕ) → BoundsSets class task.now w
        → NoRoom w (3 * action_count task.now + 32) 16 enc.old.sets enc.new.sets }
    ensures still_made { MadeOf task.now enc.new }
    ensures slots { Owns enc.old.sets enc.new.sets [] }
{
    match find_plan(alloc, class, task, enc)? {
        Found::Plan(table) => Ok(Sought::Table(table)),
        Found::NoPlan => unreachable!(),
    }
}

/// The certificate that there is no plan for a task, over its sets, which stay the sets of the task;
/// or `None` where there is a plan.
fn find_certificate(
    alloc: Global,
    class: Class,
    task: &Task,
    enc: &mut Enc,
) -> Result<Option<Certificate>, SetErr>
    requires made { MadeOf task.now enc.old }
    requires goal { IsSome task.now.goal }
    ensures found { IsCertified class task.now result }
    ensures full { IsErrOf result SetErr.Full → (w : ℕ) → BoundsSets class task.now w
        → NoRoom w (3 * action_count task.now + 32) 16 enc.old.sets enc.new.sets }
    ensures still_made { MadeOf task.now enc.new }
    ensures slots { Owns enc.old.sets enc.new.sets [] }
{
    // This does nothing: that there was no room with more slots, too, rests on what it promises.
    no_room_of_fewer();
    match class {
        Class::Weak => cert_weak(alloc, task, enc),
        Class::Strong => cert_strong(alloc, task, enc),
        Class::Cyclic => cert_cyclic(alloc, task, enc),
    }
}

/// The plan for a task, over its sets, which stay the sets of the task.
pub fn find_plan(alloc: Global, class: Class, task: &Task, enc: &mut Enc) -> Result<Found, SetErr>
    requires made { MadeOf task.now enc.old }
    requires goal { IsSome task.now.goal }
    ensures found { IsSearched class task.now result }
    ensures full { IsErrOf result SetErr.Full → (w : ℕ) → BoundsSets class task.now w
        → NoRoom w (3 * action_count task.now + 32) 16 enc.old.sets enc.new.sets }
    ensures still_made { MadeOf task.now enc.new }
    ensures slots { Owns enc.old.sets enc.new.sets [] }
{
    // This does nothing: that there was no room with more slots, too, rests on what it promises.
    no_room_of_fewer();
    match class {
        Class::Weak => weak_plan(alloc, task, enc),
        Class::Strong => strong_plan(alloc, task, enc),
        Class::Cyclic => strong_cyclic_plan(alloc, task, enc),
    }
}

/// The weak plan for a task, which is a shortest one.
fn weak_plan(alloc: Global, task: &Task, enc: &mut Enc) -> Result<Found, SetErr>
    requires made { MadeOf task.now enc.old }
    requires goal { IsSome task.now.goal }
    ensures found { IsSearched Class.Weak task.now result }
    ensures full { IsErrOf result SetErr.Full → (w : ℕ) → BoundsSets Class.Weak task.now w
        → NoRoom w (action_count task.now + 24) 16 enc.old.sets enc.new.sets }
    ensures still_made { MadeOf task.now enc.new }
    ensures slots { Owns enc.old.sets enc.new.sets [] }
{
    // These do nothing: that no solution is shorter rests on what they promise.
    tasks_have_systems(task);
    printed_plan_is_shortest();
    plan_weak(alloc, task, enc)
}

/// The strong plan for a task, which is a shortest one.
fn strong_plan(alloc: Global, task: &Task, enc: &mut Enc) -> Result<Found, SetErr>
    requires made { MadeOf task.now enc.old }
    requires goal { IsSome task.now.goal }
    ensures found { IsSearched Class.Strong task.now result }
    ensures full { IsErrOf result SetErr.Full → (w : ℕ) → BoundsSets Class.Strong task.now w
        → NoRoom w (action_count task.now + 24) 16 enc.old.sets enc.new.sets }
    ensures still_made { MadeOf task.now enc.new }
    ensures slots { Owns enc.old.sets enc.new.sets [] }
{
    // These do nothing: that no solution is shorter rests on what they promise.
    tasks_have_systems(task);
    printed_plan_is_shortest();
    plan_strong(alloc, task, enc)
}

/// The strong cyclic plan for a task. Nothing is said of its length.
fn strong_cyclic_plan(alloc: Global, task: &Task, enc: &mut Enc) -> Result<Found, SetErr>
    requires made { MadeOf task.now enc.old }
    requires goal { IsSome task.now.goal }
    ensures found { IsSearched Class.Cyclic task.now result }
    ensures full { IsErrOf result SetErr.Full → (w : ℕ) → BoundsSets Class.Cyclic task.now w
        → NoRoom w (3 * action_count task.now + 32) 16 enc.old.sets enc.new.sets }
    ensures still_made { MadeOf task.now enc.new }
    ensures slots { Owns enc.old.sets enc.new.sets [] }
{
    plan_cyclic(alloc, task, enc)
}
