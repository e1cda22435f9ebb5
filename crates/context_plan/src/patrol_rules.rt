//! The rules of a plan for a patrol goal, by context, next context and action.

ghost use Rattle.std.specs.Prelude.{◌≡◌, ℕ, suc, ◌≤◌, ◌+◌, ◌<◌, List, [], ◌∷◌, map, length};
ghost use Rattle.plan_theory.specs.ContextRules.{action_rules, next_rules, rules_in_context};
ghost use Rattle.plan_theory.specs.PatrolPrinted.{patrol_nexts, patrol_rules, patrol_states};
ghost use Rattle.plan_rules.specs.Rules.{context_rule_of};
ghost use Rattle.task_core.specs.Tasks.{action_count};
ghost use Rattle.task_core.specs.declared.conditions.Cond.{Cond as CondOf};
ghost use Rattle.context_plan.specs.Chains.{visit_sets};
ghost use Rattle.context_plan.specs.PatrolSteps.{GoesOn, HasPatrolTable, ListsPatrol, PutsPart};
ghost use Rattle.context_plan.specs.PatrolSteps.{visit_place};
ghost use Rattle.context_plan.specs.Scenes.{Left, Start, sys_of, takers_place};
ghost use Rattle.ctl_syntax.specs.GoalSizes.{most_visits};

use crate::places::{HITS, takers_at};
use crate::rules::{Move, Taken, list_at};
use crate::visits::visit_at;
use dd_sets::SetErr;
use encode_task::Enc;
use plan_rules::AutoRule;
use slot_board::{Board, Operation};
use task_core::ActionId;

/// Which of the states that take an action.
#[derive(Clone, Copy, Debug)]
pub(crate) enum Part {
    /// All of them.
    Whole,
    /// Those in which the visit is made.
    Made,
    /// The others.
    Others,
}

/// How many actions a task has, and how many visits are to be made.
#[derive(Clone, Copy, Debug)]
pub(crate) struct Patrol {
    pub(crate) actions: u32,
    pub(crate) visits: u32,
}

/// A turn from a context to a next one: which of the states turn to it that take an action in the
/// context of this visit. Visits are counted from 0, contexts from 1.
#[derive(Clone, Copy, Debug)]
pub(crate) struct Turn {
    pub(crate) visit: u32,
    pub(crate) part: Part,
    pub(crate) next: u32,
}

/// Two turns from a context, the next contexts in rising number.
#[derive(Clone, Copy, Debug)]
struct TwoTurns {
    first: Turn,
    second: Turn,
}

/// Puts a part of the states that take an action.
fn put_part(
    enc: &mut Enc,
    board: &mut Board,
    part: Part,
    taker: usize,
    made: usize,
) -> Result<(), SetErr>
    requires ready { (start : Start) × (conds : List CondOf) × (i : ℕ) × (a : ℕ)
        × (made ≡ visit_place i) × (i < start.stages)
        × (taker ≡ takers_place (action_count start.task) start.stages i + a)
        × (a < action_count start.task)
        × HasPatrolTable start conds (enc.old, board.old.slots.items) }
    ensures { (start : Start) (conds : List CondOf) (i a : ℕ) → made ≡ visit_place i
        → i < start.stages → taker ≡ takers_place (action_count start.task) start.stages i + a
        → a < action_count start.task
        → HasPatrolTable start conds (enc.old, board.old.slots.items)
        → Left start (enc.new, board.new.slots.items)
        (PutsPart part start conds (enc.new, board.new.slots.items) i a) result }
{
    match part {
        Part::Whole => board.copy_of(enc, HITS, taker),
        Part::Made => board.combine(enc, HITS, Operation::Meet, taker, made),
        Part::Others => board.combine(enc, HITS, Operation::Minus, taker, made),
    }
}

/// The rules of an action in a context towards a next one.
fn list_taken(
    enc: &mut Enc,
    board: &mut Board,
    rules: &mut Vec<AutoRule>,
    turn: Turn,
    taken: Taken,
) -> Result<(), SetErr>
    requires ready { (start : Start) × (conds : List CondOf) × (turn.visit < start.stages)
        × (taken.takers ≡ takers_place (action_count start.task) start.stages turn.visit)
        × HasPatrolTable start conds (enc.old, board.old.slots.items) }
    requires few { turn.visit < most_visits }
    requires action { taken.action.0 < length enc.old.actions }
    ensures { (start : Start) (conds : List CondOf) → turn.visit < start.stages
        → taken.takers ≡ takers_place (action_count start.task) start.stages turn.visit
        → GoesOn (visit_sets conds) turn.part (suc turn.visit) turn.next
        → HasPatrolTable start conds (enc.old, board.old.slots.items)
        → Left start (enc.new, board.new.slots.items)
        (ListsPatrol start conds (enc.new, board.new.slots.items)
        (map context_rule_of rules.old.items) (map context_rule_of rules.new.items)
        (action_rules (sys_of start) (patrol_states (sys_of start) (visit_sets conds))
        (suc turn.visit) turn.next taken.action.0)) result }
{
    let taker = taken.takers + taken.action.0 as usize;
    put_part(enc, board, turn.part, taker, visit_at(turn.visit))?;
    let given = Move {
        context: turn.visit + 1,
        action: taken.action,
        next: turn.next,
    };
    list_at(enc, board, rules, given, HITS)
}

/// The rules of a context towards a next one, the actions in rising number.
fn list_part(
    enc: &mut Enc,
    board: &mut Board,
    rules: &mut Vec<AutoRule>,
    patrol: Patrol,
    turn: Turn,
) -> Result<(), SetErr>
    requires ready { (start : Start) × (conds : List CondOf) × (start.stages ≡ patrol.visits)
        × GoesOn (visit_sets conds) turn.part (suc turn.visit) turn.next
        × HasPatrolTable start conds (enc.old, board.old.slots.items) }
    requires actions { patrol.actions ≡ length enc.old.actions }
    requires few { patrol.visits ≤ most_visits }
    requires visit { turn.visit < patrol.visits }
    ensures { (start : Start) (conds : List CondOf) → start.stages ≡ patrol.visits
        → GoesOn (visit_sets conds) turn.part (suc turn.visit) turn.next
        → HasPatrolTable start conds (enc.old, board.old.slots.items)
        → Left start (enc.new, board.new.slots.items)
        (ListsPatrol start conds (enc.new, board.new.slots.items)
        (map context_rule_of rules.old.items) (map context_rule_of rules.new.items)
        (next_rules (sys_of start) (patrol_states (sys_of start) (visit_sets conds))
        (suc turn.visit) turn.next)) result }
{
    let takers = takers_at(patrol.actions, patrol.visits, turn.visit);
    for a in 0..patrol.actions {
        let taken = Taken {
            takers,
            action: ActionId(a),
        };
        list_taken(enc, board, rules, turn, taken)?;
    }
    Ok(())
}

/// The rules of a context towards two next ones.
fn list_two(
    enc: &mut Enc,
    board: &mut Board,
    rules: &mut Vec<AutoRule>,
    patrol: Patrol,
    turns: TwoTurns,
) -> Result<(), SetErr>
    requires ready { (start : Start) × (conds : List CondOf) × (start.stages ≡ patrol.visits)
        × GoesOn (visit_sets conds) turns.first.part (suc turns.first.visit) turns.first.next
        × GoesOn (visit_sets conds) turns.second.part (suc turns.second.visit) turns.second.next
        × HasPatrolTable start conds (enc.old, board.old.slots.items) }
    requires actions { patrol.actions ≡ length enc.old.actions }
    requires few { patrol.visits ≤ most_visits }
    requires visit { turns.first.visit < patrol.visits }
    requires same { turns.second.visit ≡ turns.first.visit }
    ensures { (start : Start) (conds : List CondOf) → start.stages ≡ patrol.visits
        → GoesOn (visit_sets conds) turns.first.part (suc turns.first.visit) turns.first.next
        → GoesOn (visit_sets conds) turns.second.part (suc turns.second.visit) turns.second.next
        → patrol_nexts patrol.visits (suc turns.first.visit) ≡ turns.first.next ∷ turns.second.next ∷ []
        → HasPatrolTable start conds (enc.old, board.old.slots.items)
        → Left start (enc.new, board.new.slots.items)
        (ListsPatrol start conds (enc.new, board.new.slots.items)
        (map context_rule_of rules.old.items) (map context_rule_of rules.new.items)
        (rules_in_context (sys_of start) (patrol_states (sys_of start) (visit_sets conds))
        (patrol_nexts patrol.visits) (suc turns.first.visit))) result }
{
    list_part(enc, board, rules, patrol, turns.first)?;
    list_part(enc, board, rules, patrol, turns.second)
}

/// The rules of a context, the next contexts in rising number.
fn list_visit(
    enc: &mut Enc,
    board: &mut Board,
    rules: &mut Vec<AutoRule>,
    patrol: Patrol,
    visit: u32,
) -> Result<(), SetErr>
    requires ready { (start : Start) × (conds : List CondOf) × (start.stages ≡ patrol.visits)
        × HasPatrolTable start conds (enc.old, board.old.slots.items) }
    requires actions { patrol.actions ≡ length enc.old.actions }
    requires few { patrol.visits ≤ most_visits }
    requires visit { visit < patrol.visits }
    ensures { (start : Start) (conds : List CondOf) → start.stages ≡ patrol.visits
        → HasPatrolTable start conds (enc.old, board.old.slots.items)
        → Left start (enc.new, board.new.slots.items)
        (ListsPatrol start conds (enc.new, board.new.slots.items)
        (map context_rule_of rules.old.items) (map context_rule_of rules.new.items)
        (rules_in_context (sys_of start) (patrol_states (sys_of start) (visit_sets conds))
        (patrol_nexts patrol.visits) (suc visit))) result }
{
    let context = visit + 1;
    if context < patrol.visits {
        let others = Turn {
            visit,
            part: Part::Others,
            next: context,
        };
        let made = Turn {
            visit,
            part: Part::Made,
            next: context + 1,
        };
        let turns = TwoTurns {
            first: others,
            second: made,
        };
        return list_two(enc, board, rules, patrol, turns);
    }
    if patrol.visits == 1 {
        let whole = Turn {
            visit,
            part: Part::Whole,
            next: 1,
        };
        return list_part(enc, board, rules, patrol, whole);
    }
    let made = Turn {
        visit,
        part: Part::Made,
        next: 1,
    };
    let others = Turn {
        visit,
        part: Part::Others,
        next: context,
    };
    let turns = TwoTurns {
        first: made,
        second: others,
    };
    list_two(enc, board, rules, patrol, turns)
}

/// The rules of all contexts, in rising number.
pub(crate) fn list_visits(
    enc: &mut Enc,
    board: &mut Board,
    rules: &mut Vec<AutoRule>,
    patrol: Patrol,
) -> Result<(), SetErr>
    requires ready { (start : Start) × (conds : List CondOf) × (start.stages ≡ patrol.visits)
        × HasPatrolTable start conds (enc.old, board.old.slots.items) }
    requires actions { patrol.actions ≡ length enc.old.actions }
    requires few { patrol.visits ≤ most_visits }
    ensures { (start : Start) (conds : List CondOf) → start.stages ≡ patrol.visits
        → HasPatrolTable start conds (enc.old, board.old.slots.items)
        → Left start (enc.new, board.new.slots.items)
        (ListsPatrol start conds (enc.new, board.new.slots.items)
        (map context_rule_of rules.old.items) (map context_rule_of rules.new.items)
        (patrol_rules (sys_of start) (visit_sets conds))) result }
{
    for visit in 0..patrol.visits {
        list_visit(enc, board, rules, patrol, visit)?;
    }
    Ok(())
}
