//! Reads rules: where each action is taken, the first rule that matches counting.

ghost use Rattle.encode_task.specs.TaskSets.{cube_set};
ghost use Rattle.std.specs.Prelude.{◌≡◌, ◌↔◌, ◌++◌, ◌<◌, ◌&&◌, [], ◌∷◌, IsTrue, List, length, map};
ghost use Rattle.dd_sets.specs.LiveSets.{nothing};
ghost use Rattle.dd_ops.specs.Operations.{minus_of};
ghost use Rattle.slot_board.specs.Board.{At, Ends, Fits, HasNothing, IsSmall, IsWorking, Left, Moved, sign_of};
ghost use Rattle.slot_board.specs.Board.{Start, set_at};
ghost use Rattle.task_core.specs.Cubes.{Cube};
ghost use Rattle.task_core.specs.Tasks.{fluent_count, system_of};
ghost use Rattle.plan_rules.specs.Rules.{PlanRule, rule_of};
ghost use Rattle.first_match.specs.FirstMatch.{CountsBehind, EachRuleCounts};
ghost use Rattle.judge_sets.specs.Places.{HasCube, HasJoined, HasRead, HasTold, IsNextRule, Scene};

use crate::places::{CUBE, DIFFER, MATCHED, PART, taken_at};
use board_steps::{Step, make_all};
use dd_sets::SetErr;
use encode_task::Enc;
use plan_rules::Rule;
use slot_board::{Board, Operation};
use task_core::{ActionId, Lit};

/// How a cube is put together with a fluent.
fn sign_of(positive: bool) -> Operation
    ensures { result ≡ sign_of positive }
{
    if positive {
        Operation::Meet
    } else {
        Operation::Minus
    }
}

/// Begins with no rule read.
pub(crate) fn read_none(enc: &mut Enc, board: &mut Board) -> Result<(), SetErr>
    requires { (scene : Scene) × HasNothing scene.start enc.old board.old.slots.items }
    ensures { (scene : Scene) → HasNothing scene.start enc.old board.old.slots.items
        → Left scene.start enc.new board.new.slots.items
        (HasRead scene enc.new board.new.slots.items []) result }
{
    board.whole(enc, CUBE)
}

/// Adds a literal to a cube.
fn put_literal(enc: &mut Enc, board: &mut Board, lit: Lit) -> Result<(), SetErr>
    requires { (scene : Scene) × (before : List PlanRule) × (done : Cube)
        × HasCube scene enc.old board.old.slots.items before done
        × (lit.fluent.0 < fluent_count scene.start.task)
        × IsSmall scene.start (cube_set (done ++ lit ∷ [])) }
    ensures { (scene : Scene) (before : List PlanRule) (done : Cube)
        → HasCube scene enc.old board.old.slots.items before done
        → lit.fluent.0 < fluent_count scene.start.task
        → IsSmall scene.start (cube_set (done ++ lit ∷ []))
        → Left scene.start enc.new board.new.slots.items
        (HasCube scene enc.new board.new.slots.items before (done ++ lit ∷ [])) result }
{
    let sign = sign_of(lit.positive);
    make_all(
        enc,
        board,
        &[
            Step::Fluent(PART, lit.fluent),
            Step::Combine(CUBE, sign, CUBE, PART),
        ],
    )
}

/// Makes the set in which a rule's cube matches.
fn make_cube(enc: &mut Enc, board: &mut Board, cube: &[Lit]) -> Result<(), SetErr>
    requires { (scene : Scene) × (before : List PlanRule) × (rule : PlanRule)
        × HasRead scene enc.old board.old.slots.items before × IsNextRule scene before rule
        × (rule.cube ≡ cube.now) }
    ensures { (scene : Scene) (before : List PlanRule) (rule : PlanRule)
        → HasRead scene enc.old board.old.slots.items before → IsNextRule scene before rule
        → rule.cube ≡ cube.now
        → Left scene.start enc.new board.new.slots.items
        (HasCube scene enc.new board.new.slots.items before cube.now) result }
{
    make_all(enc, board, &[Step::Whole(CUBE)])?;
    for lit in cube {
        put_literal(enc, board, *lit)?;
    }
    Ok(())
}

/// Joins to where rules differ those of the cube's states in which another action is taken.
fn add_differ(enc: &mut Enc, board: &mut Board, a: ActionId) -> Result<(), SetErr>
    requires { (scene : Scene) × (before : List PlanRule) × (rule : PlanRule)
        × HasCube scene enc.old board.old.slots.items before rule.cube
        × IsNextRule scene before rule × (rule.action ≡ a.0) }
    ensures { (scene : Scene) (before : List PlanRule) (rule : PlanRule)
        → HasCube scene enc.old board.old.slots.items before rule.cube
        → IsNextRule scene before rule → rule.action ≡ a.0
        → Left scene.start enc.new board.new.slots.items
        (HasTold scene enc.new board.new.slots.items before rule) result }
{
    let taken = taken_at(a);
    make_all(
        enc,
        board,
        &[
            Step::Combine(PART, Operation::Meet, CUBE, MATCHED),
            Step::Combine(PART, Operation::Minus, PART, taken),
            Step::Combine(DIFFER, Operation::Join, DIFFER, PART),
        ],
    )
}

/// Looks at those of the cube's states that no rule before matches.
fn look_at_new(enc: &mut Enc, board: &mut Board) -> Result<(), SetErr>
    requires working { IsWorking enc.old board.old.slots.items }
    requires place { 3 < length board.old.slots.items }
    ensures { (start : Start) → At start enc.old board.old.slots.items
        → Fits start 3 (minus_of (set_at enc.old.sets board.old.slots.items 2)
        (set_at enc.old.sets board.old.slots.items 0))
        → Left start enc.new board.new.slots.items
        (Moved start enc.old.sets board.old.slots.items enc.new board.new.slots.items 3
        (minus_of (set_at enc.old.sets board.old.slots.items 2)
        (set_at enc.old.sets board.old.slots.items 0))) result }
{
    board.combine(enc, PART, Operation::Minus, CUBE, MATCHED)
}

/// Has the action taken in those of the cube's states that no rule before matches.
fn add_taken(enc: &mut Enc, board: &mut Board, a: ActionId) -> Result<(), SetErr>
    requires { (scene : Scene) × (before : List PlanRule) × (rule : PlanRule)
        × HasTold scene enc.old board.old.slots.items before rule
        × IsNextRule scene before rule × (rule.action ≡ a.0) }
    ensures { (scene : Scene) (before : List PlanRule) (rule : PlanRule)
        → HasTold scene enc.old board.old.slots.items before rule
        → IsNextRule scene before rule → rule.action ≡ a.0
        → Left scene.start enc.new board.new.slots.items
        (HasJoined scene enc.new board.new.slots.items before rule) result }
{
    let taken = taken_at(a);
    look_at_new(enc, board)?;
    make_all(
        enc,
        board,
        &[
            Step::Combine(taken, Operation::Join, taken, PART),
            Step::Combine(MATCHED, Operation::Join, MATCHED, CUBE),
        ],
    )
}

/// Whether none of the states in which the rule counts is left.
fn is_none_left(enc: &Enc, board: &Board) -> bool
    requires working { IsWorking enc.now board.now.slots.items }
    requires place { 3 < length board.now.slots.items }
    ensures { IsTrue result ↔ (set_at enc.now.sets board.now.slots.items 3 ≡ nothing) }
{
    board.is_empty(enc, PART)
}

/// Whether some of the states in which the rule counts is a state of the task.
fn counts(enc: &mut Enc, board: &mut Board) -> Result<bool, SetErr>
    requires { (scene : Scene) × (before : List PlanRule) × (rule : PlanRule)
        × HasJoined scene enc.old board.old.slots.items before rule
        × IsNextRule scene before rule }
    ensures { (scene : Scene) (before : List PlanRule) (rule : PlanRule)
        → HasJoined scene enc.old board.old.slots.items before rule
        → IsNextRule scene before rule
        → Ends scene.start enc.new board.new.slots.items
        (λ counts. HasRead scene enc.new board.new.slots.items (before ++ rule ∷ [])
        × (IsTrue counts ↔ CountsBehind (system_of scene.start.task) before rule)) result }
{
    let states = enc.space();
    make_all(
        enc,
        board,
        &[
            Step::Kept(CUBE, states),
            Step::Combine(PART, Operation::Meet, PART, CUBE),
        ],
    )?;
    Ok(!is_none_left(enc, board))
}

/// Reads the next rule: whether it counts in some state.
fn read_rule(enc: &mut Enc, board: &mut Board, rule: &Rule) -> Result<bool, SetErr>
    requires { (scene : Scene) × (before : List PlanRule)
        × HasRead scene enc.old board.old.slots.items before
        × IsNextRule scene before (rule_of rule.now) }
    ensures { (scene : Scene) (before : List PlanRule)
        → HasRead scene enc.old board.old.slots.items before
        → IsNextRule scene before (rule_of rule.now)
        → Ends scene.start enc.new board.new.slots.items
        (λ counts. HasRead scene enc.new board.new.slots.items (before ++ rule_of rule.now ∷ [])
        × (IsTrue counts ↔ CountsBehind (system_of scene.start.task) before (rule_of rule.now)))
        result }
{
    make_cube(enc, board, &rule.cube)?;
    add_differ(enc, board, rule.action)?;
    add_taken(enc, board, rule.action)?;
    counts(enc, board)
}

fn both(a: bool, b: bool) -> bool
    ensures { result ≡ (a && b) }
{
    a && b
}

/// Reads the rules in turn: whether each counts in some state.
pub(crate) fn read_rules(enc: &mut Enc, board: &mut Board, rules: &[Rule]) -> Result<bool, SetErr>
    requires { (scene : Scene) × HasRead scene enc.old board.old.slots.items []
        × (scene.rules ≡ map rule_of rules.now) }
    ensures { (scene : Scene) → HasRead scene enc.old board.old.slots.items []
        → scene.rules ≡ map rule_of rules.now
        → Ends scene.start enc.new board.new.slots.items
        (λ each. HasRead scene enc.new board.new.slots.items scene.rules
        × (IsTrue each ↔ EachRuleCounts (system_of scene.start.task) scene.rules)) result }
{
    let mut each = true;
    for rule in rules {
        let counts = read_rule(enc, board, rule)?;
        each = both(each, counts);
    }
    Ok(each)
}
