//! What the preimages are in the system of the task, for callers to cite. The function does
//! nothing, and its contract is the laws.
ghost use Rattle.preimage.specs.Laws.{StrongLeadsToAll, WeakLeadsToSome};

/// The weak preimage of a set has the states from which the action leads to some state of the set,
/// and the strong one those where it can be executed and leads to states of the set alone.
pub fn preimages_lead_into_their_sets()
    ensures weak { WeakLeadsToSome }
    ensures strong { StrongLeadsToAll }
{}
