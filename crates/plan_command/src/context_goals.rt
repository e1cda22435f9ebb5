//! How many stages or visits a goal has that plans with contexts are looked for, and how many it may
//! have.

ghost use Rattle.command_base.specs.Values.{limit_of};
ghost use Rattle.plan_command.specs.GoalConditions.{limit_of_goal};
ghost use Rattle.std.specs.Prelude.{◌≡◌};
ghost use Rattle.ctl_syntax.specs.GoalSizes.{count_of, most_of};

use command_base::Limit;
use ctl_syntax::ContextGoal;

/// The most stages of an until-chain.
const MOST_STAGES: usize = 32;
/// The most visits of a patrol goal.
const MOST_VISITS: usize = 8;

/// How many stages a goal has, or how many visits.
pub fn part_count(goal: &ContextGoal) -> usize
    ensures { result ≡ count_of goal.now }
{
    match goal {
        ContextGoal::Until(chain) => chain.stages.len(),
        ContextGoal::Patrol(visits) => visits.len(),
    }
}

/// How many stages or visits it may have.
pub fn most_parts(goal: &ContextGoal) -> usize
    ensures { result ≡ most_of goal.now }
{
    match goal {
        ContextGoal::Until(_) => MOST_STAGES,
        ContextGoal::Patrol(_) => MOST_VISITS,
    }
}

/// What is passed where it has more.
pub fn part_limit(goal: &ContextGoal) -> Limit
    ensures { limit_of result ≡ limit_of_goal goal.now }
{
    match goal {
        ContextGoal::Until(_) => Limit::Stages,
        ContextGoal::Patrol(_) => Limit::Patrol,
    }
}
