//! The verdict on rules as they are run.

ghost use Rattle.std.specs.Prelude.{◌≡◌, ◌↔◌, ℕ, ◌+◌, ◌<◌, [], All, IfOk, IsErrOf, IsSome, IsTrue, length, map, true};
ghost use Rattle.std.specs.List.{list_all};
ghost use Rattle.dd_nodes.specs.Subfunctions.{Function};
ghost use Rattle.dd_sets.specs.Frames.{Owns};
ghost use Rattle.dd_sets.specs.Rooms.{NoRoom};
ghost use Rattle.encode_task.specs.Made.{MadeOf};
ghost use Rattle.slot_board.specs.Board.{At, Ends, HasNothing, IsWorking, Left, Start, Stayed};
ghost use Rattle.slot_board.specs.Board.{TestFits, set_at};
ghost use Rattle.task_core.specs.Tasks.{action_count, fluent_count, initial_states, system_of};
ghost use Rattle.task_core.specs.Vectors.{value_of};
ghost use Rattle.task_core.specs.declared.tasks.Task.{Task as TaskOf};
ghost use Rattle.plan_rules.specs.Plans.{IsRuleOf};
ghost use Rattle.plan_rules.specs.Rules.{rule_of};
ghost use Rattle.first_match.specs.FirstMatch.{EachRuleCounts, RulesAgree, SolvesAsRun};
ghost use Rattle.judge_sets.specs.Fixpoints.{IsBegin, outcomes_of};
ghost use Rattle.judge_sets.specs.Places.{HasAllGrown, HasPart, HasSteps, HoldsAsReached};
ghost use Rattle.judge_sets.specs.Places.{IsJudged, Scene, has_initial};
ghost use Rattle.judge_sets.specs.WorkingSets.{BoundsTableSets};

use crate::order::{Order, order_of};
use crate::places::{DIFFER, FOLLOWED, GOOD, PART, STAYS, places};
use crate::reading::{read_none, read_rules};
use crate::settling::settle;
use crate::sweeps::{grow, shrink};
use board_steps::{Step, make_all};
use dd_sets::SetErr;
use encode_task::Enc;
use plan_rules::Rule;
use slot_board::{Board, Operation, Outcomes};
use std::alloc::Global;
use task_core::{Class, Task};

/// The verdict on rules as they are run: in each state the first that matches counts.
#[derive(Clone, Copy, Debug, PartialEq, Eq)]
pub struct TableVerdict {
    /// Whether they are a solution of the class, and can be followed wherever they lead.
    pub solves: bool,
    /// Whether all rules that match have one action, in each state that may be reached.
    pub agrees: bool,
    /// Whether each rule counts in some state.
    pub each_counts: bool,
}

/// Which outcomes of a step are to lead back to where the rules are at their end.
fn outcomes_of(class: Class) -> Outcomes
    ensures { result ≡ outcomes_of class }
{
    match class {
        Class::Weak => Outcomes::Some,
        Class::Strong => Outcomes::Every,
        Class::Cyclic => Outcomes::Some,
    }
}

/// Whether each initial state is one from which following the rules is good.
fn begin_well(enc: &mut Enc, board: &Board) -> Result<bool, SetErr>
    requires working { IsWorking enc.old board.now.slots.items }
    requires place { 4 < length board.now.slots.items }
    ensures left { (start : Start) → At start enc.old board.now.slots.items
        → TestFits start (set_at enc.old.sets board.now.slots.items 4)
        → Left start enc.new board.now.slots.items
        (Stayed start enc.old.sets enc.new board.now.slots.items) result }
    ensures answer { (start : Start) → At start enc.old board.now.slots.items
        → IfOk result (λ good. good
        ≡ list_all (λ state. set_at enc.old.sets board.now.slots.items 4 (value_of state))
        (initial_states start.task)) }
{
    board.covers_initial(enc, GOOD)
}

/// Whether following the rules is good from each initial state.
fn leads_to_end(
    enc: &mut Enc,
    board: &mut Board,
    outcomes: Outcomes,
    order: &Order,
) -> Result<bool, SetErr>
    requires ready { (scene : Scene) × HasPart scene enc.old board.old.slots.items
        (action_count scene.start.task) }
    requires actions { order.now.actions ≡ length enc.old.actions }
    ensures { (scene : Scene) → HasPart scene enc.old board.old.slots.items
        (action_count scene.start.task) → Ends scene.start enc.new board.new.slots.items
        (λ good. (grown : HasAllGrown scene outcomes enc.new board.new.slots.items)
        × (good ≡ has_initial scene grown.set)) result }
{
    grow(enc, board, outcomes, order)?;
    begin_well(enc, board)
}

/// Whether what is reached from the initial states stays in the set at a place.
fn stays_in(enc: &mut Enc, board: &mut Board, place: usize, order: &Order) -> Result<bool, SetErr>
    requires ready { (scene : Scene) × (from : Function)
        × HasSteps scene enc.old board.old.slots.items
        × IsBegin scene.start.task scene.rules from
        × (set_at enc.old.sets board.old.slots.items place ≡ from) }
    requires place { place < 6 }
    requires actions { order.now.actions ≡ length enc.old.actions }
    ensures { (scene : Scene) (from : Function) → HasSteps scene enc.old board.old.slots.items
        → IsBegin scene.start.task scene.rules from
        → set_at enc.old.sets board.old.slots.items place ≡ from
        → Ends scene.start enc.new board.new.slots.items
        (λ stays. HasSteps scene enc.new board.new.slots.items
        × (IsTrue stays ↔ HoldsAsReached scene from)) result }
{
    make_all(enc, board, &[Step::Copy(STAYS, place)])?;
    shrink(enc, board, order)?;
    board.covers_initial(enc, STAYS)
}

/// Whether the rules can be followed and are a solution of a class, where following them is good from
/// each initial state.
fn keeps_on(enc: &mut Enc, board: &mut Board, class: Class, order: &Order) -> Result<bool, SetErr>
    requires ready { (scene : Scene)
        × (grown : HasAllGrown scene (outcomes_of class) enc.old board.old.slots.items)
        × (has_initial scene grown.set ≡ true) }
    requires actions { order.now.actions ≡ length enc.old.actions }
    ensures { (scene : Scene)
        (grown : HasAllGrown scene (outcomes_of class) enc.old board.old.slots.items)
        → has_initial scene grown.set ≡ true
        → Ends scene.start enc.new board.new.slots.items
        (λ solves. HasSteps scene enc.new board.new.slots.items
        × (IsTrue solves ↔ SolvesAsRun class (system_of scene.start.task) scene.rules)) result }
{
    match class {
        Class::Weak => stays_in(enc, board, FOLLOWED, order),
        Class::Strong => Ok(true),
        Class::Cyclic => stays_in(enc, board, GOOD, order),
    }
}

/// Whether the rules can be followed and are a solution of a class.
fn solves(enc: &mut Enc, board: &mut Board, class: Class, order: &Order) -> Result<bool, SetErr>
    requires ready { (scene : Scene) × HasPart scene enc.old board.old.slots.items
        (action_count scene.start.task) }
    requires actions { order.now.actions ≡ length enc.old.actions }
    ensures { (scene : Scene) → HasPart scene enc.old board.old.slots.items
        (action_count scene.start.task) → Ends scene.start enc.new board.new.slots.items
        (λ solves. HasSteps scene enc.new board.new.slots.items
        × (IsTrue solves ↔ SolvesAsRun class (system_of scene.start.task) scene.rules)) result }
{
    let outcomes = outcomes_of(class);
    if !leads_to_end(enc, board, outcomes, order)? {
        return Ok(false);
    }
    keeps_on(enc, board, class, order)
}

/// Whether all rules that match have one action, in each state that may be reached.
fn agrees(enc: &mut Enc, board: &mut Board, order: &Order) -> Result<bool, SetErr>
    requires ready { (scene : Scene) × HasSteps scene enc.old board.old.slots.items }
    requires actions { order.now.actions ≡ length enc.old.actions }
    ensures { (scene : Scene) → HasSteps scene enc.old board.old.slots.items
        → Ends scene.start enc.new board.new.slots.items
        (λ agrees. HasSteps scene enc.new board.new.slots.items
        × (IsTrue agrees ↔ RulesAgree (system_of scene.start.task) scene.rules)) result }
{
    make_all(
        enc,
        board,
        &[
            Step::Whole(PART),
            Step::Combine(PART, Operation::Minus, PART, DIFFER),
        ],
    )?;
    stays_in(enc, board, PART, order)
}

fn judge(
    enc: &mut Enc,
    board: &mut Board,
    class: Class,
    rules: &[Rule],
    order: &Order,
) -> Result<TableVerdict, SetErr>
    requires ready { (scene : Scene) × HasNothing scene.start enc.old board.old.slots.items
        × (scene.rules ≡ map rule_of rules.now) }
    requires goal { IsSome enc.old.goal }
    requires actions { order.now.actions ≡ length enc.old.actions }
    ensures { (scene : Scene) → HasNothing scene.start enc.old board.old.slots.items
        → scene.rules ≡ map rule_of rules.now
        → Ends scene.start enc.new board.new.slots.items
        (λ verdict. HasSteps scene enc.new board.new.slots.items
        × IsJudged class (system_of scene.start.task) scene.rules verdict) result }
{
    read_none(enc, board)?;
    let each_counts = read_rules(enc, board, rules)?;
    settle(enc, board, order.actions)?;
    let solves = solves(enc, board, class, order)?;
    let agrees = agrees(enc, board, order)?;
    Ok(TableVerdict {
        solves,
        agrees,
        each_counts,
    })
}

/// The verdict on rules as they are run: whether the table of first matching rules is a solution of
/// the class that can be followed wherever it leads; whether it makes a difference there that the
/// first rule counts; and whether each rule counts in some state.
///
/// It lists no state, and doesn't ask what can be reached. Following the rules is good from the least
/// set with the states in which they are at their end, the goal holding and no rule matching, from
/// which no step of theirs leads back into it: for strong plans by every outcome, for the others by
/// one. They are a solution exactly where each initial state is in it and, but for strong plans, in
/// the largest part of a set that no step of theirs leads out of: of that same set for strong cyclic
/// plans, and for weak ones of where the rule that counts can be followed (Cimatti, Pistore, Roveri
/// and Traverso 2003).
///
/// On every exit the slots of entry are live, with their sets, and no others; at most as many slots
/// more as there are actions and 15 are live in between, each with a set that is small by any width by
/// which the working sets are, but for four at most. `Full` says that the table holds as many nodes as
/// it may and its limit is tight for the sets of such slots, and `Memory` that memory ran out.
pub fn judge_table(
    alloc: Global,
    task: &Task,
    enc: &mut Enc,
    class: Class,
    rules: &[Rule],
) -> Result<TableVerdict, SetErr>
    requires made { MadeOf task.now enc.old }
    requires goal { IsSome task.now.goal }
    requires in_task { All (IsRuleOf (fluent_count task.now) (action_count task.now))
        (map rule_of rules.now) }
    ensures solves { IfOk result (λ verdict. IsTrue verdict.solves
        ↔ SolvesAsRun class (system_of task.now) (map rule_of rules.now)) }
    ensures agrees { IfOk result (λ verdict. IsTrue verdict.agrees
        ↔ RulesAgree (system_of task.now) (map rule_of rules.now)) }
    ensures each_counts { IfOk result (λ verdict. IsTrue verdict.each_counts
        ↔ EachRuleCounts (system_of task.now) (map rule_of rules.now)) }
    ensures full { IsErrOf result SetErr.Full → (width : ℕ)
        → BoundsTableSets width task.now (map rule_of rules.now)
        → NoRoom width (action_count task.now + 15) 4 enc.old.sets enc.new.sets }
    ensures slots { Owns enc.old.sets enc.new.sets [] }
    ensures same_slots { enc.new ≡ record enc.old { sets = enc.new.sets } }
    ensures made { (task : TaskOf) → MadeOf task enc.old → MadeOf task enc.new }
{
    let actions = task.actions.len() as u32;
    let order = order_of(alloc, task, rules, actions);
    let mut board = Board::new(alloc, enc, places(actions))?;
    let judged = judge(enc, &mut board, class, rules, &order);
    board.close(enc);
    judged
}
