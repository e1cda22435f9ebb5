//! What is asked of the cache.

/// An operation and its operands, which are told apart by all five numbers.
#[derive(Clone, Copy, Debug, PartialEq, Eq)]
pub struct Key {
    /// Which operation it is.
    pub op: u32,
    pub a: u32,
    pub b: u32,
    pub c: u32,
    /// The call that the result belongs to, where it means nothing to another one.
    pub call: u64,
}
