//! A monitor that counts one action.

ghost use Rattle.std.specs.Prelude.{◌==◌, codes, if◌then◌else◌};

use run_replay::{Monitor, Step};
use std::alloc::{AllocError, Global};
use task_core::ActionId;

/// A monitor that counts the steps with one action, under the title `uses`.
#[derive(Drop)]
pub struct ActionMonitor {
    /// The action that is counted.
    pub action: ActionId,
    /// How many steps had it so far.
    pub count: u128,
}

impl Monitor for ActionMonitor {
    ghost shown = { λ monitor. record {
      counted = monitor.count;
      title = codes "uses";
      weight = λ step. if step.action.0 == monitor.action.0 then 1 else 0;
    } };

    fn seen(&mut self, step: &Step) {
        if step.action == self.action {
            self.count += 1;
        }
    }

    fn tally(&self) -> u128 {
        self.count
    }

    fn name(&self, _: Global, out: &mut Vec<u8>) -> Result<(), AllocError> {
        out.extend_from_slice(b"uses")
    }
}
