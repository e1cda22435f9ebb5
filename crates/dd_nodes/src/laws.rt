//! What is true of every reduced node list, for callers to cite. Each function does nothing, and
//! its contract is the law.
ghost use Rattle.dd_nodes.specs.Laws.{OneNumberPerFunction, DependsOnVariables};
ghost use Rattle.dd_nodes.specs.Laws.{SubfunctionsAreReached, NodesAreReached};
ghost use Rattle.dd_nodes.specs.Laws.{CollectedNodesAreCounted};

/// In a reduced list two numbers have the same function exactly where they are equal (Bryant 1986,
/// Theorem 1).
pub fn one_number_per_function()
    ensures { OneNumberPerFunction }
{}

/// The function of a number of a reduced list depends on the variables of the list alone.
pub fn depends_on_variables()
    ensures { DependsOnVariables }
{}

/// The subfunctions of a number's function are the functions of the numbers that are reached from
/// it.
pub fn subfunctions_are_reached()
    ensures { SubfunctionsAreReached }
{}

/// The diagram of some functions, counted by their different subfunctions, has as many nodes as are
/// reached from their numbers.
pub fn nodes_are_reached()
    ensures { NodesAreReached }
{}

/// After a collection a table has as many nodes as the diagrams of the functions of its roots,
/// counted by their different subfunctions.
pub fn collected_nodes_are_counted()
    ensures { CollectedNodesAreCounted }
{}
