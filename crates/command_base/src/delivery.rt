//! Writing an answer out.

ghost use Rattle.command_base.specs.Answers.{
  Answer,
  is_shown,
  no_command,
  no_memory,
  refused,
  status_of,
  text_of,
};
ghost use Rattle.command_base.specs.Delivery.{
  IsDelivered,
  Seen,
  Takes,
  TakesPart,
  seen,
  write_fault_line,
};
ghost use Rattle.command_base.specs.Values.{answer_of};
ghost use Rattle.std.specs.Prelude.{◌≡◌, ◌≢◌, ◌⊎◌, false, true};

use crate::answers::{NO_MEMORY, NO_MEMORY_LINE, Refusal, Shown, WRITE_FAULT};
use plan_io::{Sink, put_all};
use std::alloc::{AllocError, Global};

/// Writes an answer where it belongs, and gives the exit status that comes of it. Where there is no
/// memory for the line of a refusal, that is the answer.
pub fn deliver<O: Sink, E: Sink>(
    alloc: Global,
    answer: &Result<Shown, Refusal>,
    out: &mut O,
    err: &mut E,
) -> u8
    ensures { (given : Answer)
        × ((given ≡ answer_of answer.now)
        ⊎ ((given ≡ refused no_memory) × (answer_of answer.now ≢ refused no_command)))
        × IsDelivered given
        (seen (O.written out.old) (O.faults out.old)) (seen (O.written out.new) (O.faults out.new))
        (seen (E.written err.old) (E.faults err.old))
        (seen (E.written err.new) (E.faults err.new)) result }
{
    match answer {
        Ok(shown) => show(shown.status(), shown.as_bytes(), out, err),
        Err(refusal) => match refusal.line(alloc) {
            Ok(line) => refuse(refusal.status(), line.as_bytes(), err),
            Err(AllocError) => refuse(NO_MEMORY, NO_MEMORY_LINE.as_bytes(), err),
        },
    }
}

/// Writes a text to standard output, and where that fails a line about it to standard error.
fn show<O: Sink, E: Sink>(status: u8, text: &[u8], out: &mut O, err: &mut E) -> u8
    ensures { (answer : Answer) → status ≡ status_of answer → text.now ≡ text_of answer
        → is_shown answer ≡ true
        → IsDelivered answer
        (seen (O.written out.old) (O.faults out.old)) (seen (O.written out.new) (O.faults out.new))
        (seen (E.written err.old) (E.faults err.old))
        (seen (E.written err.new) (E.faults err.new)) result }
{
    match put_all(out, text) {
        Ok(()) => status,
        Err(_) => {
            put_fault_line(err);
            WRITE_FAULT
        }
    }
}

/// Puts the line about a write fault, whatever comes of it.
fn put_fault_line<E: Sink>(err: &mut E)
    ensures { Takes write_fault_line (seen (E.written err.old) (E.faults err.old))
        (seen (E.written err.new) (E.faults err.new))
        ⊎ TakesPart write_fault_line (seen (E.written err.old) (E.faults err.old))
        (seen (E.written err.new) (E.faults err.new)) }
{
    match put_all(err, b"write fault\n") {
        Ok(()) => {}
        Err(_) => {}
    }
}

/// Writes a line to standard error; nothing is written to standard output.
fn refuse<E: Sink>(status: u8, line: &[u8], err: &mut E) -> u8
    ensures { (answer : Answer) (out : Seen) → status ≡ status_of answer → line.now ≡ text_of answer
        → is_shown answer ≡ false
        → IsDelivered answer out out
        (seen (E.written err.old) (E.faults err.old))
        (seen (E.written err.new) (E.faults err.new)) result }
{
    match put_all(err, line) {
        Ok(()) => status,
        Err(_) => WRITE_FAULT,
    }
}
