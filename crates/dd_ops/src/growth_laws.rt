//! How many nodes an operation adds at most: laws on functions, for callers to cite. Each function
//! does nothing, and its contract is the law.
//!
//! The pieces of a call are the functions whose nodes it may have to make, and `grow` counts their
//! different subfunctions that no number of the table has. Equal functions have equal numbers in a
//! reduced list (R. E. Bryant, "Graph-Based Algorithms for Boolean Function Manipulation", IEEE
//! Transactions on Computers, 1986), so no call that makes only such nodes makes more.
ghost use Rattle.dd_ops.specs.GrowthLaws.{GrowsWithin, FullOnlyBeyond, RefusedNodeIsMissing};
ghost use Rattle.dd_ops.specs.GrowthLaws.{PieceGrowsBelow, PiecesGrowTogether};
ghost use Rattle.dd_ops.specs.GrowthLaws.{SubstitutionGrowsWithin, VariablesAreReached};

/// A list that adds nodes of the pieces alone adds at most `grow` of them.
pub fn grows_within()
    ensures { GrowsWithin }
{}

/// A list of `limit` nodes that lacks a node of the pieces held more than `limit - grow` before.
pub fn full_only_beyond()
    ensures { FullOnlyBeyond }
{}

/// The function of a node that a list lacks is that of no number of the list.
pub fn refused_node_is_missing()
    ensures { RefusedNodeIsMissing }
{}

/// One piece over `vars` variables needs fewer than `2 ^ vars` new nodes.
pub fn piece_grows_below()
    ensures { PieceGrowsBelow }
{}

/// Two lists of pieces together need no more new nodes than each alone.
pub fn pieces_grow_together()
    ensures { PiecesGrowTogether }
{}

/// A substitution in a number of a table over `vars` variables needs at most `4 ^ vars` new nodes.
pub fn substitution_grows_within()
    ensures { SubstitutionGrowsWithin }
{}

/// The variables on which a number's function depends are those of the nodes that are reached from
/// it.
pub fn variables_are_reached()
    ensures { VariablesAreReached }
{}
