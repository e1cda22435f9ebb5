//! Writing an answer out, with help below the line of a refusal.

ghost use Rattle.answer_help.specs.FaultHelp.{fault_help as help_of};
ghost use Rattle.answer_help.specs.Helped.{IsHelpedDelivery, IsHelpFor, IsPut};
ghost use Rattle.answer_help.specs.Keeping.{AreToldAs, held_by, kept_in};
ghost use Rattle.command_base.specs.Answers.{
  Answer,
  no_command,
  no_memory,
  refused,
  text_fault,
  text_of,
};
ghost use Rattle.command_base.specs.Delivery.{
  Seen,
  seen,
};
ghost use Rattle.command_base.specs.Values.{answer_of, refusal_of};
ghost use Rattle.command_base.specs.Words.{Bytes};
ghost use Rattle.plan_io.specs.Held.{Gives};
ghost use Rattle.std.specs.Prelude.{
  ◌≡◌,
  ◌≢◌,
  ◌⊎◌,
  ◌++◌,
  IfOk,
  [],
};

use crate::fault_texts::fault_help;
use crate::keeping::KeepingShelf;
use command_base::{NO_MEMORY, Refusal, Shown, deliver};
use plan_io::{Shelf, Sink, put_all};
use sexpr_text::InputFault;
use std::alloc::{AllocError, Global};

/// The exit status where the text of an answer can't be written whole.
const WRITE_FAULT: u8 = 7;

/// The line about want of memory.
const NO_MEMORY_LINE: &str = "no memory\n";

/// Whether a text was written to the sink.
fn put_one<E: Sink>(sink: &mut E, text: &[u8]) -> bool
    ensures { IsPut text.now (seen (E.written sink.old) (E.faults sink.old))
        (seen (E.written sink.new) (E.faults sink.new)) result }
{
    match put_all(sink, text) {
        Ok(()) => true,
        Err(_) => false,
    }
}

/// Whether two texts were written to the sink, one after the other.
fn put_two<E: Sink>(sink: &mut E, first: &[u8], second: &[u8]) -> bool
    ensures { IsPut (first.now ++ second.now) (seen (E.written sink.old) (E.faults sink.old))
        (seen (E.written sink.new) (E.faults sink.new)) result }
{
    if !put_one(sink, first) {
        return false;
    }
    put_one(sink, second)
}

/// Writes an answer where it belongs, with help below the line of a refusal, and gives the exit
/// status that comes of it. Where there is no memory for that, this is the answer.
pub fn deliver_helped<S: Shelf, O: Sink, E: Sink>(
    alloc: Global,
    answer: &Result<Shown, Refusal>,
    shelf: &KeepingShelf<S>,
    out: &mut O,
    err: &mut E,
) -> u8
    ensures { AreToldAs (held_by S.held shelf.now) (kept_in shelf.now)
        → (given : Answer) × (help : Bytes)
        × ((given ≡ answer_of answer.now)
        ⊎ ((given ≡ refused no_memory) × (answer_of answer.now ≢ refused no_command)))
        × IsHelpFor (held_by S.held shelf.now) given help
        × IsHelpedDelivery help given
        (seen (O.written out.old) (O.faults out.old)) (seen (O.written out.new) (O.faults out.new))
        (seen (E.written err.old) (E.faults err.old))
        (seen (E.written err.new) (E.faults err.new)) result }
{
    match answer {
        Ok(_) => deliver(alloc, answer, out, err),
        Err(refusal) => match refusal {
            Refusal::TextFault(file, fault) => {
                refuse_fault(alloc, shelf, refusal, &FaultIn { file, fault }, err)
            }
            _ => deliver(alloc, answer, out, err),
        },
    }
}

/// A fault in the file of this name.
#[derive(Clone, Copy)]
struct FaultIn<'a> {
    file: &'a str,
    fault: &'a InputFault,
}

/// Says that a file has a fault, where it is and what it means.
fn refuse_fault<S: Shelf, E: Sink>(
    alloc: Global,
    shelf: &KeepingShelf<S>,
    refusal: &Refusal,
    found: &FaultIn<'_>,
    err: &mut E,
) -> u8
    requires { refusal_of refusal.now ≡ text_fault found.now.file.now found.now.fault.now }
    ensures { AreToldAs (held_by S.held shelf.now) (kept_in shelf.now)
        → (out : Seen) → (given : Answer) × (help : Bytes)
        × ((given ≡ refused (refusal_of refusal.now)) ⊎ (given ≡ refused no_memory))
        × IsHelpFor (held_by S.held shelf.now) given help
        × IsHelpedDelivery help given out out (seen (E.written err.old) (E.faults err.old))
        (seen (E.written err.new) (E.faults err.new)) result }
{
    let Ok(line) = refusal.line(alloc) else {
        return refuse_memory(err);
    };
    let Ok(help) = help_below(alloc, shelf, found) else {
        return refuse_memory(err);
    };
    if put_two(err, line.as_bytes(), &help) {
        refusal.status()
    } else {
        WRITE_FAULT
    }
}

/// Says that there is not enough memory.
fn refuse_memory<E: Sink>(err: &mut E) -> u8
    ensures { (out : Seen) → IsHelpedDelivery [] (refused no_memory) out out
        (seen (E.written err.old) (E.faults err.old))
        (seen (E.written err.new) (E.faults err.new)) result }
{
    if put_one(err, NO_MEMORY_LINE.as_bytes()) {
        NO_MEMORY
    } else {
        WRITE_FAULT
    }
}

/// What is printed below the line of a fault. Fails where there was no memory to keep the file.
fn help_below<S: Shelf>(
    alloc: Global,
    shelf: &KeepingShelf<S>,
    found: &FaultIn<'_>,
) -> Result<Vec<u8>, AllocError>
    ensures { AreToldAs (held_by S.held shelf.now) (kept_in shelf.now)
        → IfOk result (λ help. (bytes : Bytes)
        × Gives (held_by S.held shelf.now found.now.file.now) bytes
        × (help.items ≡ help_of bytes found.now.fault.now)) }
{
    match shelf.bytes_of(found.file) {
        Some(bytes) => fault_help(alloc, bytes, found.fault),
        None => Err(AllocError),
    }
}
