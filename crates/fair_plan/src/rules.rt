//! The rules of a plan, by context, next context and action.

ghost use Rattle.plan_theory.specs.ContextRules.{rule_for, rules_for};
ghost use Rattle.std.specs.Prelude.{◌≡◌, ◌+◌, ◌++◌, ◌<◌, ◌≤◌, ⊤, IfErr, OnOk, length, map};
ghost use Rattle.plan_rules.specs.Plans.{IsContextOf};
ghost use Rattle.plan_rules.specs.Rules.{context_rule_of};
ghost use Rattle.fair_plan.specs.Boards.{IsThere, Leaves, Origin, states_in};
ghost use Rattle.fair_plan.specs.Goals.{contexts_of};
ghost use Rattle.fair_plan.specs.Rounds.{Lists};
ghost use Rattle.ctl_syntax.specs.GoalSizes.{count_of, most_stages};

use crate::places::{PART, REST, Sizes, met_at, takers_at, win_at};
use crate::steps::make;
use board_steps::Step;
use ctl_syntax::ContextGoal;
use dd_sets::SetErr;
use encode_task::Enc;
use plan_rules::{AutoRule, Next};
use slot_board::{Board, Operation};
use std::alloc::AllocError;
use task_core::{ActionId, Lit};

/// What a rule says besides where it matches: its context, the next one, and its action.
#[derive(Clone, Copy)]
struct Turn {
    context: u32,
    next: u32,
    action: ActionId,
}

/// A context of an until-chain, and one that it turns to, counted from 0.
#[derive(Clone, Copy)]
struct Leap {
    stage: u32,
    next: u32,
}

/// The place where a visit is made, and the first of those of the states that take actions towards it.
#[derive(Clone, Copy)]
struct VisitPlaces {
    met: usize,
    takers: usize,
}

fn add_rules(rules: &mut Vec<AutoRule>, turn: Turn, cubes: Vec<Vec<Lit>>) -> Result<(), AllocError>
    ensures { OnOk result (map context_rule_of rules.new.items
        ≡ map context_rule_of rules.old.items
        ++ map (rule_for turn.context turn.next turn.action.0) (map (λ cube. cube.items) cubes.items)) }
{
    for cube in cubes {
        rules.push(AutoRule {
            context: turn.context,
            cube,
            action: turn.action,
            next: Next::One(turn.next),
        })?;
    }
    Ok(())
}

/// The rules of the states at the place of what is looked at.
fn list_part(enc: &Enc, board: &Board, rules: &mut Vec<AutoRule>, turn: Turn) -> Result<(), SetErr>
    requires { (origin : Origin) × IsThere origin (enc.now, board.now.slots.items) }
    ensures never_full { IfErr result (λ e. e ≡ SetErr.Memory) }
    ensures listed { OnOk result (map context_rule_of rules.new.items
        ≡ map context_rule_of rules.old.items ++ rules_for enc.now.sets.vars turn.context
        turn.next turn.action.0 (states_in (enc.now, board.now.slots.items) 0)) }
{
    match board.only_cubes(enc, PART) {
        Ok(cubes) => match add_rules(rules, turn, cubes) {
            Ok(()) => Ok(()),
            Err(_) => Err(SetErr::Memory),
        },
        Err(_) => Err(SetErr::Memory),
    }
}

/// Leaves of the states that are looked for those in which a stage is met.
fn meet_rest(enc: &mut Enc, board: &mut Board, met: usize) -> Result<(), SetErr>
    requires ready { (origin : Origin) × IsThere origin (enc.old, board.old.slots.items) }
    requires place { met < length board.old.slots.items }
    ensures { (origin : Origin) → IsThere origin (enc.old, board.old.slots.items)
        → Leaves origin (enc.new, board.new.slots.items) ⊤ result }
{
    make(
        enc,
        board,
        &[Step::Combine(REST, Operation::Meet, REST, met)],
    )
}

/// Leaves of them those in which it isn't.
fn drop_rest(enc: &mut Enc, board: &mut Board, met: usize) -> Result<(), SetErr>
    requires ready { (origin : Origin) × IsThere origin (enc.old, board.old.slots.items) }
    requires place { met < length board.old.slots.items }
    ensures { (origin : Origin) → IsThere origin (enc.old, board.old.slots.items)
        → Leaves origin (enc.new, board.new.slots.items) ⊤ result }
{
    make(
        enc,
        board,
        &[Step::Combine(REST, Operation::Minus, REST, met)],
    )
}

/// Looks for the states of a context of an until-chain, counted from 0, that turn to a next one: in
/// which the stages before it are met, and its own isn't.
fn turn_to(enc: &mut Enc, board: &mut Board, sizes: Sizes, leap: Leap) -> Result<(), SetErr>
    requires ready { (origin : Origin) × IsThere origin (enc.old, board.old.slots.items)
        × (origin.count ≡ sizes.count) }
    requires actions { sizes.actions ≡ length enc.old.actions }
    requires stage { leap.stage ≤ leap.next }
    requires next { leap.next ≤ sizes.count }
    ensures { (origin : Origin) → IsThere origin (enc.old, board.old.slots.items)
        → Leaves origin (enc.new, board.new.slots.items) ⊤ result }
{
    make(
        enc,
        board,
        &[Step::Copy(REST, win_at(sizes.actions, leap.stage))],
    )?;
    for i in leap.stage..leap.next {
        meet_rest(enc, board, met_at(sizes.actions, sizes.count, i))?;
    }
    drop_rest(enc, board, met_at(sizes.actions, sizes.count, leap.next))
}

/// The rules of an action in a context of an until-chain, of the states that turn to a next one.
fn list_turned(
    enc: &mut Enc,
    board: &mut Board,
    rules: &mut Vec<AutoRule>,
    turn: Turn,
    takers: usize,
) -> Result<(), SetErr>
    requires ready { (origin : Origin) × IsThere origin (enc.old, board.old.slots.items) }
    requires action { turn.action.0 < length enc.old.actions }
    requires places { takers + length enc.old.actions ≤ length board.old.slots.items }
    ensures { (origin : Origin) → IsThere origin (enc.old, board.old.slots.items)
        → Leaves origin (enc.new, board.new.slots.items)
        (Lists origin (λ contexts. IsContextOf contexts turn.context × IsContextOf contexts turn.next)
        rules.old.items rules.new.items) result }
{
    let place = takers + turn.action.0 as usize;
    make(
        enc,
        board,
        &[Step::Combine(PART, Operation::Meet, REST, place)],
    )?;
    list_part(enc, board, rules, turn)
}

/// The rules of a context of an until-chain, counted from 0, towards a next one.
fn list_next(
    enc: &mut Enc,
    board: &mut Board,
    rules: &mut Vec<AutoRule>,
    sizes: Sizes,
    leap: Leap,
) -> Result<(), SetErr>
    requires ready { (origin : Origin) × IsThere origin (enc.old, board.old.slots.items)
        × (origin.count ≡ sizes.count) }
    requires actions { sizes.actions ≡ length enc.old.actions }
    requires few { sizes.count ≤ most_stages }
    requires stage { leap.stage ≤ leap.next }
    requires next { leap.next ≤ sizes.count }
    ensures { (origin : Origin) → IsThere origin (enc.old, board.old.slots.items)
        → Leaves origin (enc.new, board.new.slots.items)
        (Lists origin (λ contexts. sizes.count + 1 ≤ contexts) rules.old.items rules.new.items)
        result }
{
    turn_to(enc, board, sizes, leap)?;
    let takers = takers_at(sizes.actions, sizes.count, leap.next);
    for a in 0..sizes.actions {
        let turn = Turn {
            context: leap.stage + 1,
            next: leap.next + 1,
            action: ActionId(a),
        };
        list_turned(enc, board, rules, turn, takers)?;
    }
    Ok(())
}

/// The rules of a context of an until-chain, counted from 0, the next contexts in rising number.
fn list_context(
    enc: &mut Enc,
    board: &mut Board,
    rules: &mut Vec<AutoRule>,
    sizes: Sizes,
    stage: u32,
) -> Result<(), SetErr>
    requires ready { (origin : Origin) × IsThere origin (enc.old, board.old.slots.items)
        × (origin.count ≡ sizes.count) }
    requires actions { sizes.actions ≡ length enc.old.actions }
    requires few { sizes.count ≤ most_stages }
    requires stage { stage ≤ sizes.count }
    ensures { (origin : Origin) → IsThere origin (enc.old, board.old.slots.items)
        → Leaves origin (enc.new, board.new.slots.items)
        (Lists origin (λ contexts. sizes.count + 1 ≤ contexts) rules.old.items rules.new.items)
        result }
{
    for next in stage..sizes.count + 1 {
        let leap = Leap { stage, next };
        list_next(enc, board, rules, sizes, leap)?;
    }
    Ok(())
}

/// The rules of all contexts of an until-chain.
fn list_chain(
    enc: &mut Enc,
    board: &mut Board,
    rules: &mut Vec<AutoRule>,
    sizes: Sizes,
) -> Result<(), SetErr>
    requires ready { (origin : Origin) × IsThere origin (enc.old, board.old.slots.items)
        × (origin.count ≡ sizes.count) }
    requires actions { sizes.actions ≡ length enc.old.actions }
    requires few { sizes.count ≤ most_stages }
    ensures { (origin : Origin) → IsThere origin (enc.old, board.old.slots.items)
        → Leaves origin (enc.new, board.new.slots.items)
        (Lists origin (λ contexts. sizes.count + 1 ≤ contexts) rules.old.items rules.new.items)
        result }
{
    for stage in 0..sizes.count + 1 {
        list_context(enc, board, rules, sizes, stage)?;
    }
    Ok(())
}

/// The rules of an action in the context of a visit: where the visit isn't made it goes on in that
/// context, and where it is, in the next one.
fn list_taken(
    enc: &mut Enc,
    board: &mut Board,
    rules: &mut Vec<AutoRule>,
    turn: Turn,
    at: VisitPlaces,
) -> Result<(), SetErr>
    requires ready { (origin : Origin) × IsThere origin (enc.old, board.old.slots.items) }
    requires action { turn.action.0 < length enc.old.actions }
    requires places { at.takers + length enc.old.actions ≤ length board.old.slots.items }
    requires met { at.met < length board.old.slots.items }
    ensures { (origin : Origin) → IsThere origin (enc.old, board.old.slots.items)
        → Leaves origin (enc.new, board.new.slots.items)
        (Lists origin (λ contexts. IsContextOf contexts turn.context × IsContextOf contexts turn.next)
        rules.old.items rules.new.items) result }
{
    let place = at.takers + turn.action.0 as usize;
    let staying = Turn {
        context: turn.context,
        next: turn.context,
        action: turn.action,
    };
    make(
        enc,
        board,
        &[Step::Combine(PART, Operation::Minus, place, at.met)],
    )?;
    list_part(enc, board, rules, staying)?;
    make(
        enc,
        board,
        &[Step::Combine(PART, Operation::Meet, place, at.met)],
    )?;
    list_part(enc, board, rules, turn)
}

/// The context after that of a visit, the first after the last one.
fn next_visit(count: u32, visit: u32) -> u32
    requires few { count ≤ most_stages }
    requires visit { visit < count }
    ensures first { 1 ≤ result }
    ensures last { result ≤ count }
{
    if visit + 1 < count { visit + 2 } else { 1 }
}

/// The rules of the context of a visit, counted from 0.
fn list_visit(
    enc: &mut Enc,
    board: &mut Board,
    rules: &mut Vec<AutoRule>,
    sizes: Sizes,
    visit: u32,
) -> Result<(), SetErr>
    requires ready { (origin : Origin) × IsThere origin (enc.old, board.old.slots.items)
        × (origin.count ≡ sizes.count) }
    requires actions { sizes.actions ≡ length enc.old.actions }
    requires few { sizes.count ≤ most_stages }
    requires visit { visit < sizes.count }
    ensures { (origin : Origin) → IsThere origin (enc.old, board.old.slots.items)
        → Leaves origin (enc.new, board.new.slots.items)
        (Lists origin (λ contexts. sizes.count ≤ contexts) rules.old.items rules.new.items)
        result }
{
    let at = VisitPlaces {
        met: met_at(sizes.actions, sizes.count, visit),
        takers: takers_at(sizes.actions, sizes.count, visit),
    };
    let next = next_visit(sizes.count, visit);
    for a in 0..sizes.actions {
        let turn = Turn {
            context: visit + 1,
            next,
            action: ActionId(a),
        };
        list_taken(enc, board, rules, turn, at)?;
    }
    Ok(())
}

fn list_patrol(
    enc: &mut Enc,
    board: &mut Board,
    rules: &mut Vec<AutoRule>,
    sizes: Sizes,
) -> Result<(), SetErr>
    requires ready { (origin : Origin) × IsThere origin (enc.old, board.old.slots.items)
        × (origin.count ≡ sizes.count) }
    requires actions { sizes.actions ≡ length enc.old.actions }
    requires few { sizes.count ≤ most_stages }
    ensures { (origin : Origin) → IsThere origin (enc.old, board.old.slots.items)
        → Leaves origin (enc.new, board.new.slots.items)
        (Lists origin (λ contexts. sizes.count ≤ contexts) rules.old.items rules.new.items)
        result }
{
    for visit in 0..sizes.count {
        list_visit(enc, board, rules, sizes, visit)?;
    }
    Ok(())
}

/// The rules of a plan for a goal, the contexts in rising number.
pub(crate) fn list_goal(
    enc: &mut Enc,
    board: &mut Board,
    rules: &mut Vec<AutoRule>,
    sizes: Sizes,
    goal: &ContextGoal,
) -> Result<(), SetErr>
    requires ready { (origin : Origin) × IsThere origin (enc.old, board.old.slots.items)
        × (origin.count ≡ sizes.count) }
    requires actions { sizes.actions ≡ length enc.old.actions }
    requires few { sizes.count ≤ most_stages }
    requires count { sizes.count ≡ count_of goal.now }
    ensures { (origin : Origin) → IsThere origin (enc.old, board.old.slots.items)
        → Leaves origin (enc.new, board.new.slots.items)
        (Lists origin (λ contexts. contexts ≡ contexts_of goal.now) rules.old.items rules.new.items)
        result }
{
    match goal {
        ContextGoal::Until(_) => list_chain(enc, board, rules, sizes),
        ContextGoal::Patrol(_) => list_patrol(enc, board, rules, sizes),
    }
}
