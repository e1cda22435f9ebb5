//! The weak and the strong planner, on sets of states.

ghost use Rattle.std.specs.Prelude.{◌≡◌, ℕ, ◌+◌, [], IfOk, IsErrOf, IsSome};
ghost use Rattle.dd_sets.specs.Frames.{Owns};
ghost use Rattle.dd_sets.specs.Rooms.{NoRoom};
ghost use Rattle.encode_task.specs.Made.{MadeOf};
ghost use Rattle.task_core.specs.Tasks.{action_count};
ghost use Rattle.task_core.specs.declared.classes.Class.TheVariants.{Strong, Weak};
ghost use Rattle.task_core.specs.declared.tasks.Task.{Task};
ghost use Rattle.plan_theory.specs.Classes.{IsFoundByLayers};
ghost use Rattle.plan_theory.specs.Found.{IsPlannersAnswer};
ghost use Rattle.reach_plan.specs.WorkingSets.{BoundsReachSets};

use crate::set_rules::write_rules;
use crate::takers::{Takers, find_takers};
use dd_sets::SetErr;
use encode_task::{Enc, made_is_kept};
use plan_rules::{Class, TablePlan};
use plan_theory::Found;
use std::alloc::Global;
use task_core::Task;

/// A weak plan for a task, or that there is none: no state-action table, not even one with several
/// actions for a state, is a weak solution.
///
/// It goes back from the goal layer by layer, each with the states from which some action has some
/// outcome in the layer before, until a layer holds every initial state (Cimatti, Pistore, Roveri
/// and Traverso 2003). Each state of a layer takes the least-numbered action that may lead into the
/// layer before it; a state in which the goal holds takes none. What each action takes is found in
/// a second pass, where there is a plan. On every exit the slots of entry are live, with their
/// sets, and no others; at most as many slots more as there are actions and 24 are live in between,
/// each with a set that is small by any width by which the working sets are, but for 16 at most.
/// `Full` says that the table holds as many nodes as it may and its limit is tight for the sets of
/// such slots, and `Memory` that memory ran out.
pub fn plan_weak(alloc: Global, task: &Task, enc: &mut Enc) -> Result<Found, SetErr>
    requires made { MadeOf task.now enc.old }
    requires goal { IsSome task.now.goal }
    ensures answer { IfOk result (IsPlannersAnswer Weak task.now) }
    ensures full { IsErrOf result SetErr.Full → (width : ℕ) → BoundsReachSets width Weak task.now
        → NoRoom width (action_count task.now + 24) 16 enc.old.sets enc.new.sets }
    ensures slots { Owns enc.old.sets enc.new.sets [] }
    ensures same_slots { enc.new ≡ record enc.old { sets = enc.new.sets } }
    ensures made { (task : Task) → MadeOf task enc.old → MadeOf task enc.new }
{
    plan(alloc, task, enc, Class::Weak)
}

/// A strong plan for a task, or that there is none: no state-action table, not even one with
/// several actions for a state, is a strong solution.
///
/// It goes back from the goal layer by layer, each with the states from which some action has every
/// outcome in the layer before, until a layer holds every initial state (Cimatti, Pistore, Roveri
/// and Traverso 2003). Each state of a layer takes the least-numbered action that must lead into
/// the layer before it; a state in which the goal holds takes none. What each action takes is found
/// in a second pass, where there is a plan. On every exit the slots of entry are live, with their
/// sets, and no others; at most as many slots more as there are actions and 24 are live in between,
/// each with a set that is small by any width by which the working sets are, but for 16 at most.
/// `Full` says that the table holds as many nodes as it may and its limit is tight for the sets of
/// such slots, and `Memory` that memory ran out.
pub fn plan_strong(alloc: Global, task: &Task, enc: &mut Enc) -> Result<Found, SetErr>
    requires made { MadeOf task.now enc.old }
    requires goal { IsSome task.now.goal }
    ensures answer { IfOk result (IsPlannersAnswer Strong task.now) }
    ensures full { IsErrOf result SetErr.Full → (width : ℕ) → BoundsReachSets width Strong task.now
        → NoRoom width (action_count task.now + 24) 16 enc.old.sets enc.new.sets }
    ensures slots { Owns enc.old.sets enc.new.sets [] }
    ensures same_slots { enc.new ≡ record enc.old { sets = enc.new.sets } }
    ensures made { (task : Task) → MadeOf task enc.old → MadeOf task enc.new }
{
    plan(alloc, task, enc, Class::Strong)
}

/// The plan of a class, weak or strong, or that there is none.
fn plan(alloc: Global, task: &Task, enc: &mut Enc, class: Class) -> Result<Found, SetErr>
    requires class { IsFoundByLayers class }
    requires made { MadeOf task.now enc.old }
    requires goal { IsSome task.now.goal }
    ensures answer { IfOk result (IsPlannersAnswer class task.now) }
    ensures full { IsErrOf result SetErr.Full → (width : ℕ) → BoundsReachSets width class task.now
        → NoRoom width (action_count task.now + 24) 16 enc.old.sets enc.new.sets }
    ensures slots { Owns enc.old.sets enc.new.sets [] }
    ensures same_slots { enc.new ≡ record enc.old { sets = enc.new.sets } }
    ensures made { (task : Task) → MadeOf task enc.old → MadeOf task enc.new }
{
    made_is_kept();
    match find_takers(alloc, task, enc, class)? {
        Takers::NoPlan => Ok(Found::NoPlan),
        Takers::Board(board) => {
            let rules = write_rules(alloc, enc, board, task.actions.len() as u32)?;
            Ok(Found::Plan(TablePlan { class, rules }))
        },
    }
}
