//! Laws on runs: what follows wherever an answer that has its cause was delivered, as `run` says it.

ghost use Rattle.mbp_top.specs.Laws.{
  AreAllFetched,
  AreQuietSinks,
  ComesToDrill,
  ComesToJudged,
  ComesToListing,
  ComesToReplay,
  HasStatus,
  IsAcceptance,
  IsAnswered,
  IsCertified,
  IsCutOff,
  IsDrillOf,
  IsDueAnswer,
  IsDueStatus,
  IsFullAtLimit,
  IsFullDrill,
  IsFullRefutation,
  IsListing,
  IsNo,
  IsNoPlan,
  IsPlan,
  IsQuietShelf,
  IsRejection,
  IsReplayOf,
  IsUnread,
  IsYes,
  OfRuns,
};

use command_base::texts_are_read_one_way;
use plan_certs::{accepted_certificates_mean_no_plan, printed_where_none};
use plan_check::yes_is_solution;
use plan_io::Shelf;

/// Each status is one of ten.
pub fn statuses_are_ten<S: Shelf>()
    ensures { OfRuns S.held S.faults S.fetched HasStatus }
{}

/// At each status but 7 the answer is written whole.
pub fn answers_are_whole<S: Shelf>()
    ensures { OfRuns S.held S.faults S.fetched (IsAnswered S.held S.faults S.fetched) }
{}

/// Status 7 comes where a sink took only a part of the answer.
pub fn answers_are_cut<S: Shelf>()
    ensures { OfRuns S.held S.faults S.fetched (IsCutOff S.held S.faults S.fetched) }
{}

/// Status 0 of `plan` comes with the plan that is printed, which meets the problem.
pub fn plans_are_written<S: Shelf>()
    ensures { OfRuns S.held S.faults S.fetched (IsPlan S.held) }
{}

/// Status 1 of `plan` comes where no plan meets the problem.
pub fn missing_plans_are_told<S: Shelf>()
    ensures { OfRuns S.held S.faults S.fetched (IsNoPlan S.held) }
{}

/// Status 5 of `plan` comes where the number of nodes may be too small, and a table was full.
pub fn full_tables_are_tight<S: Shelf>()
    ensures { OfRuns S.held S.faults S.fetched (IsFullAtLimit S.held) }
{}

/// Status 1 of `plan` with `--cert` comes with a certificate that is accepted: no table is a solution of
/// the class.
pub fn printed_certificates_are_accepted<S: Shelf>()
    ensures { OfRuns S.held S.faults S.fetched (IsCertified S.held) }
{
    // These do nothing: all rests on what they promise.
    accepted_certificates_mean_no_plan();
    printed_where_none();
}

/// Status 0 of `ground` comes with the listing.
pub fn listings_are_written<S: Shelf>()
    ensures { OfRuns S.held S.faults S.fetched (IsListing S.held) }
{}

/// `ground` lists what two files spell.
pub fn problems_are_listed<S: Shelf>()
    ensures { OfRuns S.held S.faults S.fetched (ComesToListing S.held S.faults) }
{
    // This does nothing: all rests on what it promises.
    texts_are_read_one_way();
}

/// Status 0 of `check` comes with a yes to a plan that meets the problem.
pub fn plans_meet_at_yes<S: Shelf>()
    ensures { OfRuns S.held S.faults S.fetched (IsYes S.held) }
{
    // This does nothing: all rests on what it promises.
    yes_is_solution();
}

/// Status 1 of `check` comes with the first reason against the plan.
pub fn reasons_come_at_no<S: Shelf>()
    ensures { OfRuns S.held S.faults S.fetched (IsNo S.held) }
{}

/// Status 0 of `replay` comes with the trace and what monitors make of it.
pub fn traces_are_written<S: Shelf>()
    ensures { OfRuns S.held S.faults S.fetched (IsReplayOf S.held) }
{}

/// `replay` runs what four files spell.
pub fn plans_are_replayed<S: Shelf>()
    ensures { OfRuns S.held S.faults S.fetched (ComesToReplay S.held S.faults) }
{
    // This does nothing: all rests on what it promises.
    texts_are_read_one_way();
}

/// Status 0 of `drill` comes with the line of each class.
pub fn drills_are_written<S: Shelf>()
    ensures { OfRuns S.held S.faults S.fetched IsDrillOf }
{}

/// `drill` gives the lines of a problem that is made.
pub fn problems_are_drilled<S: Shelf>()
    ensures { OfRuns S.held S.faults S.fetched ComesToDrill }
{
    // This does nothing: all rests on what it promises.
    texts_are_read_one_way();
}

/// Status 5 of `drill` comes where the number of nodes may be too small, and a table was full.
pub fn full_drills_are_tight<S: Shelf>()
    ensures { OfRuns S.held S.faults S.fetched IsFullDrill }
{}

/// Status 0 of `refute` comes with a certificate that is accepted: no table is a solution of its class.
pub fn certificates_are_accepted<S: Shelf>()
    ensures { OfRuns S.held S.faults S.fetched (IsAcceptance S.held) }
{
    // This does nothing: all rests on what it promises.
    accepted_certificates_mean_no_plan();
}

/// Status 1 of `refute` comes with the first thing that is wrong with the certificate.
pub fn certificates_are_rejected<S: Shelf>()
    ensures { OfRuns S.held S.faults S.fetched (IsRejection S.held) }
{}

/// Status 5 of `refute` comes where the number of nodes may be too small, and a table was full.
pub fn full_refutations_are_tight<S: Shelf>()
    ensures { OfRuns S.held S.faults S.fetched (IsFullRefutation S.held) }
{}

/// `refute` judges what three files spell.
pub fn certificates_are_judged<S: Shelf>()
    ensures { OfRuns S.held S.faults S.fetched (ComesToJudged S.held S.faults) }
{
    // This does nothing: all rests on what it promises.
    texts_are_read_one_way();
}

/// Status 6 comes with the name of the command's file that can't be read.
pub fn unread_files_are_named<S: Shelf>()
    ensures { OfRuns S.held S.faults S.fetched (IsUnread S.held S.faults S.fetched) }
{}

/// Statuses 0, 1, 5 and 9 come once all files of the command were fetched.
pub fn answered_files_are_fetched<S: Shelf>()
    ensures { OfRuns S.held S.faults S.fetched (AreAllFetched S.fetched) }
{}

/// The words and the files alone decide the answer.
pub fn due_answers_come<S: Shelf>()
    ensures { OfRuns S.held S.faults S.fetched (IsDueAnswer S.held S.faults) }
{
    // This does nothing: all rests on what it promises.
    texts_are_read_one_way();
}

/// And so the status.
pub fn due_statuses_come<S: Shelf>()
    ensures { OfRuns S.held S.faults S.fetched (IsDueStatus S.held S.faults) }
{
    // This does nothing: all rests on what it promises.
    texts_are_read_one_way();
}

/// The count of faults of the shelf rises at three statuses alone.
pub fn shelves_stay_quiet<S: Shelf>()
    ensures { OfRuns S.held S.faults S.fetched (IsQuietShelf S.faults) }
{}

/// Those of the sinks rise at status 7 alone.
pub fn sinks_stay_quiet<S: Shelf>()
    ensures { OfRuns S.held S.faults S.fetched AreQuietSinks }
{}
