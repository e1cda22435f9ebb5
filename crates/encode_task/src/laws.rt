//! What is true of the sets of a task, for callers to cite. The function does nothing, and its
//! contract is the laws.
ghost use Rattle.encode_task.specs.Laws.{KeptSetsBoundNodes, KeptSetsStayMade, KeptSetsStayReady};

/// The sets stay those of the task while each live slot stays live and keeps its set.
pub fn made_is_kept()
    ensures made { KeptSetsStayMade }
    ensures ready { KeptSetsStayReady }
{}

/// The live sets have no more nodes than the sets of the task, where each is one of these.
pub fn kept_sets_bound_nodes()
    ensures { KeptSetsBoundNodes }
{}
