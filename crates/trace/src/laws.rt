//! The law, which is the contract of a function that does nothing.

ghost use Rattle.trace.specs.Replayed.{RecordsAreReplayed};

/// Where each step of a run takes the rule that a replay takes, a replay of its record makes these steps,
/// and uses all of the record's numbers up.
pub fn records_are_replayed()
    ensures { RecordsAreReplayed }
{}
