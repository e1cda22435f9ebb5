//! How often each verdict came.

use judge_sets::TableVerdict;
use task_core::Class;

/// How many tables there were, how many of them are a solution of each class, agree, and have no dead
/// rule.
#[derive(Clone, Copy, Default)]
pub(crate) struct Tally {
    pub(crate) tables: u32,
    pub(crate) weak: u32,
    pub(crate) strong: u32,
    pub(crate) cyclic: u32,
    pub(crate) agree: u32,
    pub(crate) each_counts: u32,
}

fn more(count: u32, is: bool) -> u32 {
    count.saturating_add(u32::from(is))
}

impl Tally {
    pub(crate) fn count(&mut self, class: Class, verdict: &TableVerdict) {
        match class {
            Class::Weak => {
                self.tables = more(self.tables, true);
                self.agree = more(self.agree, verdict.agrees);
                self.each_counts = more(self.each_counts, verdict.each_counts);
                self.weak = more(self.weak, verdict.solves);
            }
            Class::Strong => self.strong = more(self.strong, verdict.solves),
            Class::Cyclic => self.cyclic = more(self.cyclic, verdict.solves),
        }
    }
}
