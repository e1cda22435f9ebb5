//! What a search works with.

use std::alloc::Global;

/// What a search allocates with, and how many actions its task has.
#[derive(Clone, Copy)]
pub(crate) struct Means {
    pub(crate) alloc: Global,
    pub(crate) actions: u32,
}
