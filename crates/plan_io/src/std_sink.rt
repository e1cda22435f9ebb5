//! The sink over a writer of the system: the trusted edge.
ghost use Rattle.std.specs.Prelude.{◌≡◌, ◌≤◌, ◌<◌, None, IfOk, OnOk, OnErr, length};
ghost use Rattle.plan_io.specs.Counts.{raised};

use crate::sinks::{PutErr, Sink};
use std::io;
use std::io::Write;
use std::marker::Model;

/// Standard output or standard error, or any other writer. It tells nothing of what was written.
/// Contracts see it as its count of refusals, in 64 bits.
#[derive(Drop)]
pub struct StdSink<W> {
    writer: W,
    faults: u64,
}

impl<W> Model for StdSink<W> {
    ghost use Rattle.std.specs.Prelude.{ℕ};

    ghost Value = { ℕ };

    ghost view = { λ s. s.faults };
}

impl<W: Write> StdSink<W> {
    /// A sink over this writer, with no refusal yet.
    pub fn new(writer: W) -> StdSink<W>
        ensures { result ≡ 0 }
    {
        StdSink { writer, faults: 0 }
    }
}

impl<W: Write> Sink for StdSink<W> {
    ghost written = { λ _. None };

    ghost faults = { λ s. s };

    /// Makes one write, and flushes the writer. An error of either is a fault, an interrupted call
    /// too, and so is a write that takes nothing of a piece that is not empty.
    fn put(&mut self, piece: &[u8]) -> Result<usize, PutErr>
        ensures within { IfOk result (λ n. n ≤ length piece.now) }
        ensures progress { IfOk result (λ n. 0 < length piece.now → 0 < n) }
        ensures counted { OnErr result (self.new ≡ raised self.old) }
        ensures quiet { OnOk result (self.new ≡ self.old) }
        ensures later { self.old ≤ self.new }
    {
        match write_once(&mut self.writer, piece) {
            Ok(taken) if taken > 0 || piece.is_empty() => Ok(taken),
            _ => {
                self.faults = self.faults.saturating_add(1);
                Err(PutErr::Failed)
            }
        }
    }
}

/// One write, and then a flush: a writer that keeps bytes back shows its device's failure here.
fn write_once<W: Write>(writer: &mut W, piece: &[u8]) -> io::Result<usize>
    ensures { IfOk result (λ n. n ≤ length piece.now) }
{
    let taken = writer.write(piece)?;
    writer.flush()?;
    Ok(taken)
}
