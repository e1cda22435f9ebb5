//! The verdict on a certificate.

ghost use Rattle.std.specs.Prelude.{◌≡◌, ℕ, ◌+◌, ◌*◌, ◌<◌, List, [], IfOk, IsErrOf, IsSome, map, length};
ghost use Rattle.dd_nodes.specs.Subfunctions.{nodes};
ghost use Rattle.dd_sets.specs.Frames.{Owns};
ghost use Rattle.dd_sets.specs.LiveSets.{live_sets};
ghost use Rattle.dd_sets.specs.Rooms.{IsAtLimit, IsTightFor};
ghost use Rattle.encode_task.specs.Made.{MadeOf};
ghost use Rattle.plan_certs.specs.Named.{AreSetsOf, plain_certificate, set_of as cubes_in};
ghost use Rattle.encode_task.specs.TaskSets.{goal_states_set, initial_set};
ghost use Rattle.plan_certs.specs.Certificates.{CubeSet};
ghost use Rattle.slot_board.specs.Board.{At, Ends, Left, Start};
ghost use Rattle.task_core.specs.Tasks.{fluent_count, system_of};
ghost use Rattle.task_core.specs.declared.classes.Class.{Class};
ghost use Rattle.task_core.specs.declared.tasks.Task.{Task as TaskOf};
ghost use Rattle.cert_check.specs.Judgements.{IsVerdict, judged_actions, judgement};
ghost use Rattle.cert_check.specs.Sets.{meets, states_of};
ghost use Rattle.cert_check.specs.Sizes.{HasUnion, BoundsJudgedSets, JudgeFits};

use crate::judging::{Asked, clear_union, has_common, join_sets, some_set_is_left};
use crate::programs::PLACES;
use dd_sets::SetErr;
use encode_task::Enc;
use plan_certs::{Certificate, StateSet};
use slot_board::Board;
use std::alloc::Global;
use task_core::Task;

/// What is wrong with a certificate.
#[derive(Clone, Copy, Debug, PartialEq, Eq)]
pub enum Flaw {
    /// No set holds an initial state.
    Initial,
    /// Some set holds a goal state.
    Goal,
    /// Some action is a way out of some set.
    Action,
}

/// The verdict on a certificate.
#[derive(Clone, Copy, Debug, PartialEq, Eq)]
pub enum Judged {
    /// It is accepted: no table is a solution of its class.
    Accepted,
    /// It is not, and this is the first thing that is wrong with it.
    Rejected(Flaw),
}

/// Whether some action is a way out of some set, where nothing else is wrong with the certificate.
fn judge_actions(
    alloc: Global,
    enc: &mut Enc,
    board: &mut Board,
    asked: Asked,
    sets: &[StateSet],
) -> Result<Judged, SetErr>
    requires ready { (start : Start) × At start enc.old board.old.slots.items
        × JudgeFits start asked.class (map cubes_in sets.now) }
    requires actions { asked.actions ≡ length enc.old.actions }
    ensures { (start : Start) → At start enc.old board.old.slots.items
        → JudgeFits start asked.class (map cubes_in sets.now)
        → Ends start enc.new board.new.slots.items
        (λ judged. At start enc.new board.new.slots.items
        × (judged ≡ judged_actions asked.class start.task (map cubes_in sets.now))) result }
{
    clear_union(enc, board)?;
    if some_set_is_left(alloc, enc, board, asked, sets)? {
        Ok(Judged::Rejected(Flaw::Action))
    } else {
        Ok(Judged::Accepted)
    }
}

fn join_all(
    alloc: Global,
    enc: &mut Enc,
    board: &mut Board,
    sets: &[StateSet],
) -> Result<(), SetErr>
    requires { (start : Start) × (class : Class) × At start enc.old board.old.slots.items
        × JudgeFits start class (map cubes_in sets.now) }
    ensures { (start : Start) (class : Class) → At start enc.old board.old.slots.items
        → JudgeFits start class (map cubes_in sets.now)
        → Left start enc.new board.new.slots.items (HasUnion start enc.new
        board.new.slots.items (states_of start.task (map cubes_in sets.now))) result }
{
    clear_union(enc, board)?;
    join_sets(alloc, enc, board, sets)
}

/// Whether the union holds an initial state.
fn holds_initial(alloc: Global, enc: &mut Enc, board: &mut Board) -> Result<bool, SetErr>
    requires { (start : Start) × (class : Class) × (sets : List CubeSet)
        × HasUnion start enc.old board.old.slots.items (states_of start.task sets)
        × JudgeFits start class sets }
    ensures { (start : Start) (class : Class) (sets : List CubeSet)
        → HasUnion start enc.old board.old.slots.items (states_of start.task sets)
        → JudgeFits start class sets
        → Ends start enc.new board.new.slots.items
        (λ found. HasUnion start enc.new board.new.slots.items (states_of start.task sets)
        × (found ≡ meets (fluent_count start.task) (states_of start.task sets)
        (initial_set start.task))) result }
{
    let initial = enc.initial();
    has_common(alloc, enc, board, initial)
}

/// Whether the union holds a goal state.
fn holds_goal(alloc: Global, enc: &mut Enc, board: &mut Board) -> Result<bool, SetErr>
    requires ready { (start : Start) × (class : Class) × (sets : List CubeSet)
        × HasUnion start enc.old board.old.slots.items (states_of start.task sets)
        × JudgeFits start class sets }
    requires goal { IsSome enc.old.goal }
    ensures { (start : Start) (class : Class) (sets : List CubeSet)
        → HasUnion start enc.old board.old.slots.items (states_of start.task sets)
        → JudgeFits start class sets
        → Ends start enc.new board.new.slots.items
        (λ found. HasUnion start enc.new board.new.slots.items (states_of start.task sets)
        × (found ≡ meets (fluent_count start.task) (states_of start.task sets)
        (goal_states_set start.task))) result }
{
    let goal = enc.goal().unwrap();
    has_common(alloc, enc, board, goal)
}

/// The verdict, by the sets at the places of a board.
fn judge(
    alloc: Global,
    enc: &mut Enc,
    board: &mut Board,
    asked: Asked,
    sets: &[StateSet],
) -> Result<Judged, SetErr>
    requires ready { (start : Start) × At start enc.old board.old.slots.items
        × JudgeFits start asked.class (map cubes_in sets.now) }
    requires goal { IsSome enc.old.goal }
    requires actions { asked.actions ≡ length enc.old.actions }
    ensures { (start : Start) → At start enc.old board.old.slots.items
        → JudgeFits start asked.class (map cubes_in sets.now)
        → Ends start enc.new board.new.slots.items
        (λ judged. At start enc.new board.new.slots.items
        × (judged ≡ judgement asked.class start.task (map cubes_in sets.now))) result }
{
    join_all(alloc, enc, board, sets)?;
    if !holds_initial(alloc, enc, board)? {
        return Ok(Judged::Rejected(Flaw::Initial));
    }
    if holds_goal(alloc, enc, board)? {
        return Ok(Judged::Rejected(Flaw::Goal));
    }
    judge_actions(alloc, enc, board, asked, sets)
}

/// The verdict on a certificate: it is accepted, or what is the first thing that is wrong with it, in
/// the order of `Flaw`. Sets are read as the states that their cubes match; how many there are is not
/// asked.
///
/// It looks at each set and each action once, and makes no fixpoint. On every exit the slots of entry
/// are live, with their sets, and no others; in between, at most 24 slots more are live, and while a set
/// is made by halves a few more. `Full` comes only where the set was made without these: it says that the
/// table holds as many nodes as it may and its limit is tight for the sets of 24 slots, and `Memory` that
/// memory ran out. Where the working sets are small, six of these slots at most hold sets that are not,
/// and these have no more nodes than there are triples of nodes of small sets, or little more: what may
/// be left is a difference of three.
pub fn refute(
    alloc: Global,
    task: &Task,
    enc: &mut Enc,
    certificate: &Certificate,
) -> Result<Judged, SetErr>
    requires made { MadeOf task.now enc.old }
    requires goal { IsSome task.now.goal }
    requires in_task { AreSetsOf (fluent_count task.now) (plain_certificate certificate.now).sets }
    ensures verdict { IfOk result
        (IsVerdict (system_of task.now) (plain_certificate certificate.now)) }
    ensures full { IsErrOf result SetErr.Full → IsTightFor 24 enc.old.sets }
    ensures at_limit { IsErrOf result SetErr.Full → IsAtLimit enc.new.sets }
    ensures full_by_sets { IsErrOf result SetErr.Full → enc.old.sets.order ≡ [] → (w : ℕ)
        → BoundsJudgedSets w task.now (plain_certificate certificate.now) → enc.old.sets.limit
        < nodes enc.old.sets.vars (live_sets enc.old.sets) + 24 * w + 17 * (w * w * w) }
    ensures slots { Owns enc.old.sets enc.new.sets [] }
    ensures same_slots { enc.new ≡ record enc.old { sets = enc.new.sets } }
    ensures made { (task : TaskOf) → MadeOf task enc.old → MadeOf task enc.new }
{
    let mut board = Board::new(alloc, enc, PLACES)?;
    let asked = Asked {
        class: certificate.class,
        actions: task.actions.len() as u32,
    };
    let judged = judge(alloc, enc, &mut board, asked, &certificate.sets);
    board.close(enc);
    judged
}
