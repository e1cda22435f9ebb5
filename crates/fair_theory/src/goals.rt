//! The goal by which plans are judged whose actions may be tried again.

ghost use Rattle.std.specs.Prelude.{◌≡◌, ◌↔◌, ◌≤◌, IfOk, IsTrue, map};
ghost use Rattle.ctl_syntax.specs.Conditions.{CondTree, condition_value};
ghost use Rattle.ctl_syntax.specs.GoalValues.{stage_value, tree_of_goal};
ghost use Rattle.ctl_syntax.specs.Goals.{CtlTree, ag, all, ef, goal_row, map_plain};
ghost use Rattle.ctl_syntax.specs.Goals.{plain};
ghost use Rattle.ctl_syntax.specs.Values.{ctl_value};
ghost use Rattle.fair_theory.specs.FairGoals.{both, fair_chain, fair_patrol, fair_tree};
ghost use Rattle.fair_theory.specs.FairGoals.{fair_until, most_fair_stages, stage_count};

use ctl_syntax::{ContextGoal, Ctl, UntilStage, copied_condition};
use std::alloc::{AllocError, Global};
use task_core::Cond;

/// The most stages of a goal whose actions may be tried again. Each stage doubles the goal by which a plan
/// is judged.
pub const MOST_FAIR_STAGES: usize = 12;

/// Whether a goal has at most `MOST_FAIR_STAGES` stages.
pub fn has_few_stages(goal: &ContextGoal) -> bool
    ensures { IsTrue result ↔ stage_count (tree_of_goal goal.now) ≤ most_fair_stages }
{
    match goal {
        ContextGoal::Until(chain) => chain.stages.len() <= MOST_FAIR_STAGES,
        ContextGoal::Patrol(_) => true,
    }
}

/// The goal by which a plan is judged, where actions may be tried again: a stage is to be met while it
/// can still be met, and each visit of a patrol can always be made again. Refused only for want of
/// memory; the goal doubles with each stage.
pub fn fair_goal(alloc: Global, goal: &ContextGoal) -> Result<Ctl, AllocError>
    ensures { IfOk result (λ made.
        map_plain condition_value (ctl_value made) ≡ fair_tree (tree_of_goal goal.now)) }
{
    match goal {
        ContextGoal::Until(chain) => chain_goal(alloc, &chain.stages, &chain.keep),
        ContextGoal::Patrol(visits) => visits_goal(alloc, visits),
    }
}

/// The goal of stages, and of a condition to be kept after the last one.
#[cycle(chains)]
fn chain_goal(alloc: Global, stages: &[UntilStage], keep: &Cond) -> Result<Ctl, AllocError>
    ensures { IfOk result (λ made. map_plain condition_value (ctl_value made)
        ≡ fair_chain (map stage_value stages.now) (condition_value keep.now)) }
{
    let Some((stage, rest)) = stages.split_first() else {
        let kept = plain_goal(alloc, keep)?;
        return Ok(Ctl::Ag(Box::new(alloc, kept)?));
    };
    let may_meet = stage_met(alloc, stage, rest, keep)?;
    let met = stage_met(alloc, stage, rest, keep)?;
    until_met(alloc, &stage.guard, may_meet, met)
}

/// The goal that a stage's target holds where the stages after it can be met.
#[cycle(chains)]
fn stage_met(
    alloc: Global,
    stage: &UntilStage,
    rest: &[UntilStage],
    keep: &Cond,
) -> Result<Ctl, AllocError>
    ensures { IfOk result (λ made. map_plain condition_value (ctl_value made)
        ≡ both (plain (condition_value stage.now.target))
        (fair_chain (map stage_value rest.now) (condition_value keep.now))) }
{
    let target = plain_goal(alloc, &stage.target)?;
    let later = chain_goal(alloc, rest, keep)?;
    two_goals(alloc, target, later)
}

/// The goal that a guard holds until something is met that may always still be met.
fn until_met(alloc: Global, guard: &Cond, may_meet: Ctl, met: Ctl) -> Result<Ctl, AllocError>
    ensures { (target : CtlTree CondTree)
        → map_plain condition_value (ctl_value may_meet) ≡ target
        → map_plain condition_value (ctl_value met) ≡ target
        → IfOk result (λ made. map_plain condition_value (ctl_value made)
        ≡ fair_until (plain (condition_value guard.now)) target) }
{
    let guard = plain_goal(alloc, guard)?;
    let may = Ctl::Ef(Box::new(alloc, may_meet)?);
    let held = two_goals(alloc, guard, may)?;
    Ok(Ctl::Aw(Box::new(alloc, held)?, Box::new(alloc, met)?))
}

/// The goal that each visit can always be made again.
fn visits_goal(alloc: Global, visits: &[Cond]) -> Result<Ctl, AllocError>
    ensures { IfOk result (λ made. map_plain condition_value (ctl_value made)
        ≡ fair_patrol (map condition_value visits.now)) }
{
    let goals = visit_goals(alloc, visits)?;
    let made = always_all(alloc, goals)?;
    Ok(made)
}

/// The goal that all of some goals are true from now on.
fn always_all(alloc: Global, goals: Vec<Ctl>) -> Result<Ctl, AllocError>
    ensures { IfOk result (λ made. ctl_value made
        ≡ ag (all (goal_row (map ctl_value goals.items)))) }
{
    Ok(Ctl::Ag(Box::new(alloc, Ctl::All(goals))?))
}

/// The goal of each visit, that it can be made.
fn visit_goals(alloc: Global, visits: &[Cond]) -> Result<Vec<Ctl>, AllocError>
    ensures { IfOk result (λ made. map (map_plain condition_value) (map ctl_value made.items)
        ≡ map (λ (visit : CondTree). ef (plain visit)) (map condition_value visits.now)) }
{
    let mut goals = Vec::new(alloc);
    for visit in visits {
        goals.push(may_visit(alloc, visit)?)?;
    }
    Ok(goals)
}

/// The goal that a visit can be made.
fn may_visit(alloc: Global, visit: &Cond) -> Result<Ctl, AllocError>
    ensures { IfOk result (λ made. map_plain condition_value (ctl_value made)
        ≡ ef (plain (condition_value visit.now))) }
{
    let made = plain_goal(alloc, visit)?;
    Ok(Ctl::Ef(Box::new(alloc, made)?))
}

/// The goal that a condition holds.
fn plain_goal(alloc: Global, cond: &Cond) -> Result<Ctl, AllocError>
    ensures { IfOk result (λ made. map_plain condition_value (ctl_value made)
        ≡ plain (condition_value cond.now)) }
{
    Ok(Ctl::Plain(copied_condition(alloc, cond)?))
}

/// The goal that both of two goals are true.
fn two_goals(alloc: Global, first: Ctl, second: Ctl) -> Result<Ctl, AllocError>
    ensures { IfOk result (λ made. map_plain condition_value (ctl_value made)
        ≡ both (map_plain condition_value (ctl_value first))
        (map_plain condition_value (ctl_value second))) }
{
    let mut goals = Vec::new(alloc);
    goals.push(first)?;
    goals.push(second)?;
    Ok(Ctl::All(goals))
}
