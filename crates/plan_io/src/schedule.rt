//! The calls of an object in memory, with the numbers of those that are to fail.
ghost use Rattle.std.specs.Prelude.{◌≡◌, ◌≤◌, ◌↔◌, ◌++◌, ◌∷◌, [], Contains, IsTrue, OnOk, OnErr};
ghost use Rattle.plan_io.specs.Counts.{raised};

use std::alloc::{AllocError, Global};

/// Counts calls and faults in 64 bits, each of which stays at its last value.
#[derive(Drop)]
pub(crate) struct Schedule {
    pub(crate) calls: u64,
    pub(crate) failing: Vec<u64>,
    pub(crate) faults: u64,
}

impl Schedule {
    /// No call was made, and none is to fail.
    pub(crate) fn new(alloc: Global) -> Schedule
        ensures calls { result.calls ≡ 0 }
        ensures failing { result.failing.items ≡ [] }
        ensures faults { result.faults ≡ 0 }
    {
        Schedule {
            calls: 0,
            failing: Vec::new(alloc),
            faults: 0,
        }
    }

    /// Has the call of this number fail, counted from 1.
    pub(crate) fn fail_at(&mut self, call: u64) -> Result<(), AllocError>
        ensures ok { OnOk result (self.new.failing.items ≡ self.old.failing.items ++ call ∷ []) }
        ensures err { OnErr result (self.new.failing.items ≡ self.old.failing.items) }
        ensures calls { self.new.calls ≡ self.old.calls }
        ensures faults { self.new.faults ≡ self.old.faults }
    {
        self.failing.push(call)?;
        Ok(())
    }

    /// Counts a call, and says whether it fails by its number.
    pub(crate) fn begin(&mut self) -> bool
        ensures fails { IsTrue result ↔ Contains self.old.failing.items (raised self.old.calls) }
        ensures calls { self.new.calls ≡ raised self.old.calls }
        ensures failing { self.new.failing.items ≡ self.old.failing.items }
        ensures faults { self.new.faults ≡ self.old.faults }
    {
        self.calls = self.calls.saturating_add(1);
        self.failing.contains(&self.calls)
    }

    /// Counts a fault.
    pub(crate) fn raise(&mut self)
        ensures faults { self.new.faults ≡ raised self.old.faults }
        ensures later { self.old.faults ≤ self.new.faults }
        ensures calls { self.new.calls ≡ self.old.calls }
        ensures failing { self.new.failing.items ≡ self.old.failing.items }
    {
        self.faults = self.faults.saturating_add(1);
    }
}
