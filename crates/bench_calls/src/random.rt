//! Numbers that look random and are the same in each run.
ghost use Rattle.std.specs.Prelude.{◌<◌};

/// A linear congruential generator with Knuth's multiplier for 64 bits (D. E. Knuth, "The Art of
/// Computer Programming", volume 2, 3.3.4). `bench/buddy.c` and `bench/nodes.rs` have the same.
#[derive(Drop)]
pub struct Random {
    state: u64,
}

impl Random {
    /// The generator at its start.
    pub fn new() -> Random {
        Random { state: 1 }
    }

    /// The next number below a bound.
    pub fn below(&mut self, bound: u32) -> u32
        requires { 0 < bound }
        ensures { result < bound }
    {
        self.state = self
            .state
            .wrapping_mul(6364136223846793005)
            .wrapping_add(1442695040888963407);
        ((self.state >> 33) % bound as u64) as u32
    }
}
