//! A monitor whose steps weigh as much as a step may.

ghost use Rattle.std.specs.Prelude.{codes, ◌-◌, ◌^◌};

use run_replay::{Monitor, Step};
use std::alloc::{AllocError, Global};

/// A monitor that adds 2^64 - 1 for each step, under the title `weight`.
#[derive(Drop)]
pub struct WeightMonitor {
    /// The sum so far.
    pub sum: u128,
}

impl Monitor for WeightMonitor {
    ghost shown = { λ monitor. record {
      counted = monitor.sum;
      title = codes "weight";
      weight = λ _. 2 ^ 64 - 1;
    } };

    fn seen(&mut self, _: &Step) {
        self.sum += u64::MAX as u128;
    }

    fn tally(&self) -> u128 {
        self.sum
    }

    fn name(&self, _: Global, out: &mut Vec<u8>) -> Result<(), AllocError> {
        out.extend_from_slice(b"weight")
    }
}
