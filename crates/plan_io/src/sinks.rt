//! Sinks: where text goes.
ghost use Rattle.std.specs.Prelude.{
  ◌≡◌,
  ℕ,
  ◌≤◌,
  ◌<◌,
  Option,
  List,
  [],
  length,
  take,
  IfOk,
  OnOk,
  IfErr,
  OnErr,
};
ghost use Rattle.std.specs.Io.KnownBytes.{append_known};
ghost use Rattle.plan_io.specs.Counts.{Rose};

use thiserror::Error;

/// Why a sink took nothing.
#[derive(Clone, Copy, Debug, PartialEq, Eq, Error)]
pub enum PutErr {
    /// The device failed, or took nothing of a piece that is not empty.
    #[error("the text cannot be written")]
    Failed,
}

/// A place that takes text, piece by piece.
///
/// Its contract speaks of two meanings. `written` is the list of all bytes that the sink took, in
/// their order, or nothing where the sink does not tell. `faults` counts the times that the device
/// failed. A sink that keeps the count in 64 bits leaves it at its last value; that the count rose
/// is therefore said also of a count that stands there.
///
/// To those who write a sink: count your refusals, and nothing else. A put that takes what it says
/// leaves the count as it was; so does no put that tried again after a failure.
pub trait Sink {
    ghost written: { Self → Option (List ℕ) };

    ghost faults: { Self → ℕ };

    /// Takes some bytes of the front of `piece`, and says how many.
    fn put(&mut self, piece: &[u8]) -> Result<usize, PutErr>
        // What is taken: a front of the piece, not empty unless the piece is.
        ensures taken { IfOk result
            (λ n. written self.new ≡ append_known (written self.old) (take n piece.now)) }
        ensures within { IfOk result (λ n. n ≤ length piece.now) }
        ensures progress { IfOk result (λ n. 0 < length piece.now → 0 < n) }

        // A refusal comes of a fault, and nothing was taken; what was taken had no fault.
        ensures failed { OnErr result (Rose (faults self.old) (faults self.new)) }
        ensures quiet { OnOk result (faults self.new ≡ faults self.old) }
        ensures unwritten { OnErr result (written self.new ≡ written self.old) }

        // The count never falls.
        ensures later { faults self.old ≤ faults self.new };
}

/// A text was cut off by a fault of its sink, which took exactly the first `taken` bytes.
#[derive(Clone, Copy, Debug, PartialEq, Eq)]
pub struct Stopped {
    /// How many bytes of the text the sink took, fewer than all.
    pub taken: usize,
}

/// Writes all of `bytes` to the sink, piece by piece. It takes no memory, and an empty text makes
/// no put.
pub fn put_all<O: Sink>(sink: &mut O, bytes: &[u8]) -> Result<(), Stopped>
    // What is written: the whole text, or the front that was taken before the fault.
    ensures whole { OnOk result (O.written sink.new ≡ append_known (O.written sink.old) bytes.now) }
    ensures front { IfErr result
        (λ stop. O.written sink.new
        ≡ append_known (O.written sink.old) (take stop.taken bytes.now)) }
    ensures cut { IfErr result (λ stop. stop.taken < length bytes.now) }

    // It stops by the first fault of the sink, and only so. The count never falls.
    ensures cause { OnErr result (Rose (O.faults sink.old) (O.faults sink.new)) }
    ensures quiet { OnOk result (O.faults sink.new ≡ O.faults sink.old) }
    ensures later { O.faults sink.old ≤ O.faults sink.new }

    // An empty text leaves the sink alone.
    ensures empty { bytes.now ≡ [] → sink.new ≡ sink.old }
{
    let mut taken = 0;
    while taken < bytes.len() {
        match sink.put(&bytes[taken..]) {
            Ok(count) => taken += count,
            Err(PutErr::Failed) => return Err(Stopped { taken }),
        }
    }
    Ok(())
}
