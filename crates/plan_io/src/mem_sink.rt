//! The sink in memory, which keeps what it took and fails at the puts that it is told to.
ghost use Rattle.std.specs.Prelude.{
  ◌≡◌,
  ◌≤◌,
  ◌<◌,
  ◌⊎◌,
  ◌↔◌,
  ◌++◌,
  ◌∷◌,
  ℕ,
  List,
  [],
  length,
  take,
  Some,
  IfOk,
  OnOk,
  OnErr,
  IsErr,
};
ghost use Rattle.std.specs.Io.KnownBytes.{append_known};
ghost use Rattle.plan_io.specs.Counts.{raised, Rose};
ghost use Rattle.plan_io.specs.MemSink.{PutFails, HasNoRoom, taken_of};

use crate::schedule::Schedule;
use crate::sinks::{PutErr, Sink};
use std::alloc::{AllocError, Global};
use std::marker::Model;

/// Bytes in memory, taken piece by piece. Contracts see it as a `MemSinkState`: what was written,
/// its two limits, how many puts were made, the numbers of those that fail, and how many failed.
#[derive(Drop)]
pub struct MemSink {
    written: Vec<u8>,
    most: usize,
    room: usize,
    schedule: Schedule,
}

impl Model for MemSink {
    ghost use Rattle.std.specs.Prelude.{◌≤◌, vec_len, vec_capacity};
    ghost use Rattle.plan_io.specs.MemSink.{MemSinkState};

    ghost Value = { MemSinkState };

    ghost view = { λ s. record {
      bytes = s.written.items;
      most = s.most;
      room = s.room;
      calls = s.schedule.calls;
      failing = s.schedule.failing.items;
      faults = s.schedule.faults;
    } };

    ghost invariant = { λ s. record {
      some_at_a_time : 1 ≤ s.most;
      within : vec_len s.written ≤ s.room;
      has_memory : s.room ≤ vec_capacity s.written;
    } };
}

impl MemSink {
    /// An empty sink that takes at most `most` bytes a put, and `room` bytes in all. It takes the
    /// memory for them now, so that no put takes memory.
    pub fn new(alloc: Global, most: usize, room: usize) -> Result<MemSink, AllocError>
        requires { 1 ≤ most }
        ensures { IfOk result (λ sink. sink
            ≡ record {
              bytes = [];
              most = most;
              room = room;
              calls = 0;
              failing = [];
              faults = 0;
            }) }
    {
        Ok(MemSink {
            written: Vec::with_capacity(alloc, room)?,
            most,
            room,
            schedule: Schedule::new(alloc),
        })
    }

    /// Has the put of this number fail, counted from 1 over all puts of this sink, those of an
    /// empty piece included. The count stays at `u64::MAX`, so that number stands for every later
    /// put too.
    pub fn fail_at(&mut self, call: u64) -> Result<(), AllocError>
        ensures ok { OnOk result
            (self.new ≡ record self.old { failing = self.old.failing ++ call ∷ [] }) }
        ensures err { OnErr result (self.new ≡ self.old) }
    {
        self.schedule.fail_at(call)
    }

    /// What was written.
    pub fn bytes(&self) -> &[u8]
        ensures { result.now ≡ self.now.bytes }
    {
        self.written.as_slice()
    }
}

impl Sink for MemSink {
    ghost written = { λ s. Some s.bytes };

    ghost faults = { λ s. s.faults };

    /// Fails exactly at the numbers that were given, and where the room is used up and the piece
    /// isn't empty. It takes no memory.
    fn put(&mut self, piece: &[u8]) -> Result<usize, PutErr>
        // As for every sink.
        ensures taken { IfOk result
            (λ n. Some self.new.bytes ≡ append_known (Some self.old.bytes) (take n piece.now)) }
        ensures within { IfOk result (λ n. n ≤ length piece.now) }
        ensures progress { IfOk result (λ n. 0 < length piece.now → 0 < n) }
        ensures failed { OnErr result (Rose self.old.faults self.new.faults) }
        ensures quiet { OnOk result (self.new.faults ≡ self.old.faults) }
        ensures unwritten { OnErr result (Some self.new.bytes ≡ Some self.old.bytes) }
        ensures later { self.old.faults ≤ self.new.faults }

        // Which puts fail, and how many bytes the others take.
        ensures failed_exactly { IsErr result ↔ (PutFails self.old ⊎ HasNoRoom self.old piece.now) }
        ensures amount { IfOk result (λ n. n ≡ taken_of self.old piece.now) }

        // What a put changes.
        ensures ok { IfOk result (λ n. self.new ≡ record self.old {
          bytes = self.old.bytes ++ take n piece.now;
          calls = raised self.old.calls;
        }) }
        ensures err { OnErr result (self.new ≡ record self.old {
          calls = raised self.old.calls;
          faults = raised self.old.faults;
        }) }
    {
        let fails = self.schedule.begin();
        let left = self.room - self.written.len();
        if fails || (left == 0 && !piece.is_empty()) {
            self.schedule.raise();
            return Err(PutErr::Failed);
        }
        let count = piece.len().min(self.most).min(left);
        self.written.extend_from_slice(&piece[..count]).unwrap();
        Ok(count)
    }
}
