//! A monitor that lists the steps that it sees.

ghost use Rattle.std.specs.Prelude.{codes};

use crate::places::Place;
use run_replay::{Monitor, Step};
use std::alloc::{AllocError, Global};
use std::rc::Rc;

/// A monitor that lists the numbers of the steps in a place that it shares, and counts its calls
/// and its drops there. Its own tally, under the title `listing`, stays 0.
pub struct ListingMonitor {
    /// The shared place.
    pub place: Rc<Place>,
}

impl Drop for ListingMonitor {
    fn drop(self) {
        let ListingMonitor { place } = self;
        place.count_drop();
    }
}

impl Monitor for ListingMonitor {
    ghost shown = { λ _. record { counted = 0; title = codes "listing"; weight = λ _. 0 } };

    fn seen(&mut self, step: &Step) {
        self.place.count_use();
        self.place.list(step.number);
    }

    fn tally(&self) -> u128 {
        self.place.count_use();
        0
    }

    fn name(&self, _: Global, out: &mut Vec<u8>) -> Result<(), AllocError> {
        self.place.count_use();
        out.extend_from_slice(b"listing")
    }
}
