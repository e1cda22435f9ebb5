//! Goals in computation tree logic.

use task_core::Cond;

/// A goal in computation tree logic. `specs/Truth.antt` says where each of its forms holds.
///
/// The words `x`, `f`, `g`, `u` and `w` are next, finally, globally, until and weak until; before
/// them stands `A`, on every path, or `E`, on some path.
#[derive(Debug, Drop)]
pub enum Ctl {
    /// A condition on the state, without operators.
    Plain(Cond),
    Not(Box<Ctl>),
    /// Holds where each part does; without parts always.
    All(Vec<Ctl>),
    /// Holds where some part does; without parts never.
    Any(Vec<Ctl>),
    /// The first implies the second.
    Imply(Box<Ctl>, Box<Ctl>),
    /// Whatever comes next has it.
    Ax(Box<Ctl>),
    /// Something that may come next has it.
    Ex(Box<Ctl>),
    /// Within a bound on the number of steps it comes about.
    Af(Box<Ctl>),
    /// It may come about.
    Ef(Box<Ctl>),
    /// It holds from now on.
    Ag(Box<Ctl>),
    /// It may hold from now on.
    Eg(Box<Ctl>),
    /// Within a bound on the number of steps the second comes about, and until then the first
    /// holds.
    Au(Box<Ctl>, Box<Ctl>),
    /// The second may come about, with the first until then.
    Eu(Box<Ctl>, Box<Ctl>),
    /// The first holds from now on, or until the second comes about.
    Aw(Box<Ctl>, Box<Ctl>),
    /// The first may hold from now on, or until the second comes about.
    Ew(Box<Ctl>, Box<Ctl>),
}
