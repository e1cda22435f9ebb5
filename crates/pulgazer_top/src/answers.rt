//! The answer to what is asked for.

ghost use Rattle.command_base.specs.Answers.{no_memory, refused};
ghost use Rattle.command_base.specs.Shelves.{KeepsShelf};
ghost use Rattle.command_base.specs.Values.{answer_of};
ghost use Rattle.plan_io.specs.Fetches.{FailedLast};
ghost use Rattle.pulgazer_top.specs.Allowed.{IsAllowed};
ghost use Rattle.pulgazer_top.specs.Runs.{FetchesFor, IsAnswer, exit_status as exit_for};
ghost use Rattle.pulgazer_top.specs.Values.{asked_of};
ghost use Rattle.std.specs.Prelude.{◌≡◌, ◌⊎◌};

use crate::requests::Asked;
use command_base::{Refusal, Shown};
use control_command::controller;
use draw_command::picture_files;
use explain_command::explain_files;
use lint_command::mistakes_in_files;
use plan_io::Shelf;
use std::alloc::Global;
use trace_command::trace_files;
use why_command::why_files;

/// The exit status where the answer is no.
const NO: u8 = 1;

/// The exit status where a run is refused, that of `mbp replay`.
const RUN_REFUSED: u8 = 9;

/// The answer to what is asked for.
pub(crate) fn answer<S: Shelf>(
    alloc: Global,
    shelf: &mut S,
    asked: &Asked<'_>,
) -> Result<Shown, Refusal>
    requires { IsAllowed (asked_of asked.now) }
    ensures answer { let failed = FailedLast S.fetched S.faults shelf.old shelf.new in
        (answer_of result ≡ refused no_memory)
        ⊎ IsAnswer (S.held shelf.old) failed (asked_of asked.now) (answer_of result) }
    ensures fetches { let failed = FailedLast S.fetched S.faults shelf.old shelf.new in
        FetchesFor (S.held shelf.old) failed S.fetched (asked_of asked.now) (answer_of result)
        shelf.old shelf.new }
    ensures shelf { KeepsShelf S.held S.faults (answer_of result) shelf.old shelf.new }
{
    match asked {
        Asked::Control(asked) => controller(alloc, shelf, asked),
        Asked::Judge(asked) => explain_files(alloc, shelf, asked),
        Asked::Why(asked) => why_files(alloc, shelf, asked),
        Asked::Lint(asked) => mistakes_in_files(alloc, shelf, asked),
        Asked::Trace(asked) => trace_files(alloc, shelf, asked),
        Asked::Draw(asked) => picture_files(alloc, shelf, asked),
    }
}

/// The exit status of an answer that was delivered with this one.
pub(crate) fn exit_status(asked: &Asked<'_>, status: u8) -> u8
    ensures { result ≡ exit_for (asked_of asked.now) status }
{
    match asked {
        Asked::Trace(_) => {
            if status == NO {
                return RUN_REFUSED;
            }
            status
        }
        _ => status,
    }
}
