//! Certificates that there is no weak or no strong plan: the states in no layer, which no plan of the
//! class leads out of.

ghost use Rattle.std.specs.Prelude.{◌≡◌, ℕ, ◌+◌, [], ◌∷◌, Contains, IfErr, IfOk, IsErrOf, IsSome};
ghost use Rattle.std.specs.Prelude.{IfNone, IfSome, length, map};
ghost use Rattle.dd_sets.specs.Frames.{Owns};
ghost use Rattle.dd_sets.specs.Rooms.{NoRoom};
ghost use Rattle.encode_task.specs.Made.{MadeOf};
ghost use Rattle.plan_certs.specs.Named.{IsCertificateOf, cube_of, plain_certificate};
ghost use Rattle.plan_certs.specs.Printed.{IsPrinted};
ghost use Rattle.preimage.specs.Preimages.{OfSomeTask};
ghost use Rattle.slot_board.specs.Board.{Ends, HasNothing, Left, Start};
ghost use Rattle.task_core.specs.Solutions.{HasNoSolution};
ghost use Rattle.task_core.specs.Tasks.{action_count, fluent_count, system_of};
ghost use Rattle.task_core.specs.declared.classes.Class.{Class as ClassOf};
ghost use Rattle.task_core.specs.declared.classes.Class.TheVariants.{Strong, Weak};
ghost use Rattle.task_core.specs.declared.tasks.Task.{Task as TaskOf};
ghost use Rattle.plan_theory.specs.Classes.{IsFoundByLayers};
ghost use Rattle.reach_plan.specs.Certs.{AreCubesLeft, HasRest, HasSolution, IsLeft};
ghost use Rattle.reach_plan.specs.Searches.{FoundNone};
ghost use Rattle.reach_plan.specs.WorkingSets.{BoundsReachSets};

use crate::search::{Aim, search_back};
use dd_sets::SetErr;
use encode_task::{Enc, made_is_kept};
use plan_certs::{Certificate, StateSet};
use plan_rules::Class;
use slot_board::{Board, Operation};
use std::alloc::Global;
use task_core::{Lit, Task};

/// The places of the board once no layer holds every initial state: the last layer, as the search
/// leaves it,
const LAYER: usize = 0;
/// all states,
const SPACE: usize = 1;
/// and those outside the layer.
const REST: usize = 2;

/// The certificate that there is no weak plan for a task: the states in no layer. `None` exactly
/// where there is a weak solution.
///
/// It goes back from the goal as `plan_weak` does, as far as a layer that is the same as the next
/// one. On every exit the slots of entry are live, with their sets, and no others; at most as many
/// slots more as there are actions and 24 are live in between, each with a set that is small by any
/// width by which the working sets are, but for 16 at most. `Full` says that the table holds as many
/// nodes as it may and its limit is tight for the sets of such slots, and `Memory` that memory ran
/// out.
pub fn cert_weak(alloc: Global, task: &Task, enc: &mut Enc) -> Result<Option<Certificate>, SetErr>
    requires made { MadeOf task.now enc.old }
    requires goal { IsSome task.now.goal }
    ensures printed { IfOk result (λ found. IfSome found
        (λ certificate. IsPrinted Weak (system_of task.now) (plain_certificate certificate))) }
    ensures in_task { IfOk result (λ found. IfSome found
        (λ certificate. IsCertificateOf (fluent_count task.now) certificate)) }
    ensures no_plan { IfOk result (λ found. IfSome found
        (λ certificate. HasNoSolution Weak (system_of task.now))) }
    ensures plan { IfOk result (λ found. IfNone found (HasSolution Weak (system_of task.now))) }
    ensures full { IsErrOf result SetErr.Full → (width : ℕ) → BoundsReachSets width Weak task.now
        → NoRoom width (action_count task.now + 24) 16 enc.old.sets enc.new.sets }
    ensures slots { Owns enc.old.sets enc.new.sets [] }
    ensures same_slots { enc.new ≡ record enc.old { sets = enc.new.sets } }
    ensures made { (task : TaskOf) → MadeOf task enc.old → MadeOf task enc.new }
{
    certify(alloc, task, enc, Class::Weak)
}

/// The certificate that there is no strong plan for a task: the states in no layer. `None` exactly
/// where there is a strong solution.
///
/// It goes back from the goal as `plan_strong` does, as far as a layer that is the same as the next
/// one. On every exit the slots of entry are live, with their sets, and no others; at most as many
/// slots more as there are actions and 24 are live in between, each with a set that is small by any
/// width by which the working sets are, but for 16 at most. `Full` says that the table holds as many
/// nodes as it may and its limit is tight for the sets of such slots, and `Memory` that memory ran
/// out.
pub fn cert_strong(alloc: Global, task: &Task, enc: &mut Enc) -> Result<Option<Certificate>, SetErr>
    requires made { MadeOf task.now enc.old }
    requires goal { IsSome task.now.goal }
    ensures printed { IfOk result (λ found. IfSome found
        (λ certificate. IsPrinted Strong (system_of task.now) (plain_certificate certificate))) }
    ensures in_task { IfOk result (λ found. IfSome found
        (λ certificate. IsCertificateOf (fluent_count task.now) certificate)) }
    ensures no_plan { IfOk result (λ found. IfSome found
        (λ certificate. HasNoSolution Strong (system_of task.now))) }
    ensures plan { IfOk result (λ found. IfNone found (HasSolution Strong (system_of task.now))) }
    ensures full { IsErrOf result SetErr.Full → (width : ℕ) → BoundsReachSets width Strong task.now
        → NoRoom width (action_count task.now + 24) 16 enc.old.sets enc.new.sets }
    ensures slots { Owns enc.old.sets enc.new.sets [] }
    ensures same_slots { enc.new ≡ record enc.old { sets = enc.new.sets } }
    ensures made { (task : TaskOf) → MadeOf task enc.old → MadeOf task enc.new }
{
    certify(alloc, task, enc, Class::Strong)
}

/// The certificate that there is no plan of a class, weak or strong; `None` where there is one.
fn certify(
    alloc: Global,
    task: &Task,
    enc: &mut Enc,
    class: Class,
) -> Result<Option<Certificate>, SetErr>
    requires class { IsFoundByLayers class }
    requires made { MadeOf task.now enc.old }
    requires goal { IsSome task.now.goal }
    ensures printed { IfOk result (λ found. IfSome found
        (λ certificate. IsPrinted class (system_of task.now) (plain_certificate certificate))) }
    ensures in_task { IfOk result (λ found. IfSome found
        (λ certificate. IsCertificateOf (fluent_count task.now) certificate)) }
    ensures no_plan { IfOk result (λ found. IfSome found
        (λ certificate. HasNoSolution class (system_of task.now))) }
    ensures plan { IfOk result (λ found. IfNone found (HasSolution class (system_of task.now))) }
    ensures full { IsErrOf result SetErr.Full → (width : ℕ) → BoundsReachSets width class task.now
        → NoRoom width (action_count task.now + 24) 16 enc.old.sets enc.new.sets }
    ensures slots { Owns enc.old.sets enc.new.sets [] }
    ensures same_slots { enc.new ≡ record enc.old { sets = enc.new.sets } }
    ensures made { (task : TaskOf) → MadeOf task enc.old → MadeOf task enc.new }
{
    made_is_kept();
    match states_left(alloc, enc, class, task.actions.len() as u32)? {
        Some(cubes) => {
            let certificate = with_set(alloc, class, cubes)?;
            Ok(Some(certificate))
        },
        None => Ok(None),
    }
}

fn with_set(alloc: Global, class: Class, cubes: Vec<Vec<Lit>>) -> Result<Certificate, SetErr>
    ensures made { IfOk result (λ certificate. plain_certificate certificate
        ≡ record { class = class; sets = map cube_of cubes.items ∷ [] }) }
    ensures never_full { IfErr result (λ e. e ≡ SetErr.Memory) }
{
    let mut sets = Vec::new(alloc);
    match sets.push(StateSet { cubes }) {
        Ok(()) => Ok(Certificate { class, sets }),
        Err(_) => Err(SetErr::Memory),
    }
}

/// The cubes of the states in no layer, or nothing where some layer holds every initial state.
fn states_left(
    alloc: Global,
    enc: &mut Enc,
    class: Class,
    actions: u32,
) -> Result<Option<Vec<Vec<Lit>>>, SetErr>
    requires class { IsFoundByLayers class }
    requires goal { IsSome enc.old.goal }
    requires made { OfSomeTask enc.old }
    requires actions { actions ≡ length enc.old.actions }
    ensures answer { (task : TaskOf) → MadeOf task enc.old → IfOk result (IsLeft class task) }
    ensures full { IsErrOf result SetErr.Full → (task : TaskOf) → MadeOf task enc.old
        → (width : ℕ) → BoundsReachSets width class task
        → NoRoom width (actions + 24) 16 enc.old.sets enc.new.sets }
    ensures slots { Owns enc.old.sets enc.new.sets [] }
    ensures same_slots { enc.new ≡ record enc.old { sets = enc.new.sets } }
{
    let mut board = Board::new(alloc, enc, 4)?;
    let left = search_and_leave(alloc, enc, &mut board, class, actions);
    board.close(enc);
    left
}

fn search_and_leave(
    alloc: Global,
    enc: &mut Enc,
    board: &mut Board,
    class: Class,
    actions: u32,
) -> Result<Option<Vec<Vec<Lit>>>, SetErr>
    requires class { IsFoundByLayers class }
    requires goal { IsSome enc.old.goal }
    requires ready { (start : Start) × HasNothing start enc.old board.old.slots.items
        × BoundsReachSets start.width class start.task × Contains start.rough 2 }
    requires places { length board.old.slots.items ≡ 4 }
    requires actions { actions ≡ length enc.old.actions }
    ensures { (start : Start) → HasNothing start enc.old board.old.slots.items
        → BoundsReachSets start.width class start.task → Contains start.rough 2
        → Ends start enc.new board.new.slots.items
        (AreCubesLeft class start enc.new board.new.slots.items) result }
{
    let mut steps = Vec::new(alloc);
    let aim = Aim { class, actions };
    if search_back(alloc, enc, board, aim, &mut steps)? {
        return Ok(None);
    }
    leave_out(enc, board)?;
    let cubes = board.only_cubes(enc, REST)?;
    Ok(Some(cubes))
}

/// Puts the states outside the last layer at their place.
fn leave_out(enc: &mut Enc, board: &mut Board) -> Result<(), SetErr>
    requires ready { (class : ClassOf) × (start : Start)
        × FoundNone class start enc.old board.old.slots.items
        × BoundsReachSets start.width class start.task × Contains start.rough 2 }
    requires places { length board.old.slots.items ≡ 4 }
    ensures { (class : ClassOf) (start : Start)
        → FoundNone class start enc.old board.old.slots.items
        → BoundsReachSets start.width class start.task → Contains start.rough 2
        → Left start enc.new board.new.slots.items
        (HasRest class start enc.new board.new.slots.items) result }
{
    let space = enc.space();
    board.copy(enc, SPACE, space)?;
    board.combine(enc, REST, Operation::Minus, SPACE, LAYER)
}
