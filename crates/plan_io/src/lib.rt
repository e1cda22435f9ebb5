//! Where the program's files come from and where its text goes.
//!
//! A [`Shelf`] gives files by name, a [`Sink`] takes text piece by piece. Each is a trait whose
//! contract speaks of a meaning (what is held, what was written) and of a count of faults, so that
//! code above is proved for every shelf and every sink at once. [`MemShelf`] and [`MemSink`] are
//! the two in memory, whose meaning is told in full. [`DiskShelf`] and [`StdSink`] are the trusted
//! edge to real files and to the standard streams: they count their faults and tell no bytes.
#![tactic(auto)]

mod disk_shelf;
mod mem_shelf;
mod mem_sink;
mod schedule;
mod shelves;
mod sinks;
mod std_sink;

pub use disk_shelf::DiskShelf;
pub use mem_shelf::MemShelf;
pub use mem_sink::MemSink;
pub use shelves::{FetchErr, Shelf};
pub use sinks::{PutErr, Sink, Stopped, put_all};
pub use std_sink::StdSink;
