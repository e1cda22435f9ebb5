//! What a controller is looked for, and the plan that `plan` finds for it.

ghost use Rattle.control_command.specs.Sought.{JudgedPlansControl, wanted_for};
ghost use Rattle.std.specs.Prelude.{◌≡◌};

use crate::made::Wanted;
use crate::words::ControlWords;
use controller_rules::good_rules_control;
use ground_task::Grounded;
use pddl_ast::{Domain, Problem};
use pddl_system::grounded_goals_are_true;
use plan_check::yes_is_solution;
use plan_rules::Plan;

/// What is asked for, of the domain and the problem that two files hold, with the task and the goals that
/// these have.
#[derive(Clone, Copy)]
pub(crate) struct Sought<'a> {
    pub(crate) asked: &'a ControlWords<'a>,
    pub(crate) domain: &'a Domain,
    pub(crate) problem: &'a Problem,
    pub(crate) grounded: &'a Grounded,
}

impl<'a> Sought<'a> {
    /// What a plan is to be, to be shown.
    pub(crate) fn wanted(&self) -> Wanted<'a>
        ensures { result ≡ wanted_for self.now }
    {
        Wanted {
            kind: self.asked.plan.kind,
            nodes: self.asked.plan.options.nodes,
            shape: self.asked.shape,
            grounded: self.grounded,
        }
    }
}

/// The plan that `plan` finds, and its text.
#[derive(Clone, Copy)]
pub(crate) struct Found<'a> {
    pub(crate) text: &'a [u8],
    pub(crate) plan: &'a Plan,
}

/// What is judged to be good is a controller. This does nothing: what is shown rests on what it promises.
pub(crate) fn judged_plans_control()
    ensures { JudgedPlansControl }
{
    grounded_goals_are_true();
    yes_is_solution();
    good_rules_control();
}
