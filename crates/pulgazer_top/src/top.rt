//! The call.

ghost use Rattle.answer_help.specs.Keeping.{KeepsAfter, faults_by, held_by, kept_in};
ghost use Rattle.command_base.specs.Delivery.{IsUntouched, seen};
ghost use Rattle.pulgazer_top.specs.Allowed.{IsAllowed};
ghost use Rattle.pulgazer_top.specs.Runs.{HasAnswered, HasRun, IsWritten};
ghost use Rattle.pulgazer_top.specs.Values.{asked_of};
ghost use Rattle.std.specs.Prelude.{◌≡◌, [], IfOk, OnErr, map, string_bytes};

use crate::answers::{answer, exit_status};
use crate::help::{help_text, mistake_text};
use crate::requests::{Asked, Request, read_request};
use answer_help::{KeepingShelf, deliver_helped};
use plan_io::{Shelf, Sink, put_all};
use std::alloc::{AllocError, Global};

/// The exit status of help, and of words that are wrong.
const HELPED: u8 = 0;

const WRONG_WORDS: u8 = 2;

/// The exit status where a text can't be written whole.
const WRITE_FAULT: u8 = 7;

/// Does what the words say, writes the answer, and gives the exit status.
///
/// The words are a subcommand, its operands and its options; `--help` after a subcommand, and `help` before
/// it, ask for its help. Answers and help go to `out`; what is wrong with the words, and each refusal, goes
/// to `err`. Fails only where memory runs out before the words are read, and then nothing is done.
pub fn run_words<S: Shelf, O: Sink, E: Sink>(
    alloc: Global,
    words: &[String],
    shelf: &mut KeepingShelf<S>,
    out: &mut O,
    err: &mut E,
) -> Result<u8, AllocError>
    requires { kept_in shelf.old ≡ [] }
    ensures served { IfOk result (λ status. HasRun (held_by S.held) (faults_by S.faults)
        (KeepsAfter S.held S.fetched) (record {
          words = map string_bytes words.now;
          handed = tt;
          shelf = shelf.old;
          shelf_after = shelf.new;
          out = seen (O.written out.old) (O.faults out.old);
          out_after = seen (O.written out.new) (O.faults out.new);
          err = seen (E.written err.old) (E.faults err.old);
          err_after = seen (E.written err.new) (E.faults err.new);
          status = status;
        })) }
    ensures unserved { OnErr result ((shelf.new ≡ shelf.old)
        × IsUntouched (seen (O.written out.old) (O.faults out.old))
        (seen (O.written out.new) (O.faults out.new))
        × IsUntouched (seen (E.written err.old) (E.faults err.old))
        (seen (E.written err.new) (E.faults err.new))) }
{
    match read_request(alloc, words)? {
        Request::Asks(asked) => Ok(answered(alloc, words, &asked, shelf, out, err)),
        Request::Helps(sub) => {
            let text = help_text(alloc, sub)?;
            Ok(put_text(out, &text, HELPED))
        }
        Request::Fails(sub, found) => {
            let text = mistake_text(alloc, sub, &found)?;
            Ok(put_text(err, &text, WRONG_WORDS))
        }
    }
}

/// Answers what is asked for.
fn answered<S: Shelf, O: Sink, E: Sink>(
    alloc: Global,
    words: &[String],
    asked: &Asked<'_>,
    shelf: &mut KeepingShelf<S>,
    out: &mut O,
    err: &mut E,
) -> u8
    requires kept { kept_in shelf.old ≡ [] }
    requires allowed { IsAllowed (asked_of asked.now) }
    ensures { HasAnswered (held_by S.held) (faults_by S.faults) (KeepsAfter S.held S.fetched)
        (asked_of asked.now) (record {
          words = map string_bytes words.now;
          handed = tt;
          shelf = shelf.old;
          shelf_after = shelf.new;
          out = seen (O.written out.old) (O.faults out.old);
          out_after = seen (O.written out.new) (O.faults out.new);
          err = seen (E.written err.old) (E.faults err.old);
          err_after = seen (E.written err.new) (E.faults err.new);
          status = result;
        }) }
{
    let found = answer(alloc, shelf, asked);
    let status = deliver_helped(alloc, &found, shelf, out, err);
    exit_status(asked, status)
}

/// Writes a text, and gives the exit status.
fn put_text<W: Sink>(sink: &mut W, text: &str, good: u8) -> u8
    ensures { IsWritten text.now good (seen (W.written sink.old) (W.faults sink.old))
        (seen (W.written sink.new) (W.faults sink.new)) result }
{
    match put_all(sink, text.as_bytes()) {
        Ok(()) => good,
        Err(_) => WRITE_FAULT,
    }
}
