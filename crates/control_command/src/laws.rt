//! Laws on answers: what follows wherever an answer has its cause, as `controller` says it.

ghost use Rattle.control_command.specs.Laws.{HasControllerAtYes, HasNoPlanAtNo, OfAnswers};

use plan_io::Shelf;

/// Yes comes with a controller: a plan of the kind that meets the problem, as it is read and as it is run.
pub fn controllers_meet<S: Shelf>()
    ensures { OfAnswers S.held S.faults S.fetched HasControllerAtYes }
{}

/// No comes where there is no plan.
pub fn no_plan_is_there<S: Shelf>()
    ensures { OfAnswers S.held S.faults S.fetched HasNoPlanAtNo }
{}
