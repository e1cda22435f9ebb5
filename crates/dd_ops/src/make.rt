//! A node that may be there already.
ghost use Rattle.std.specs.Prelude.{◌≡◌, ◌≢◌, ◌<◌, ◌⊎◌, length};
ghost use Rattle.std.specs.Prelude.{Some, IfOk, IfErr, OnErr, IsErrOf, IsTrue, if◌then◌else◌};
ghost use Rattle.dd_nodes.specs.NodeList.{Values, IsNumber, StandsBelow, StandsFrom, Lacks};
ghost use Rattle.dd_nodes.specs.NodeList.{Extends, Appends, node_at, function};
ghost use Rattle.dd_nodes.specs.Table.{IsNodeTable};

use dd_nodes::{Dd, DdErr, Node, Ref};

/// A number and the node that it has, which was just read.
#[derive(Clone, Copy)]
pub struct OwnNode {
    pub number: Ref,
    pub node: Node,
}

/// The number of a wanted node, as `Dd::mk` answers it. Where it is the node of `own`, it needs no look
/// at the table, which in large tables is what takes the time.
pub fn make(dd: &mut Dd, own: OwnNode, wanted: Node) -> Result<Ref, DdErr>
    requires table { IsNodeTable dd.old }
    requires own { node_at dd.old.nodes own.number.0 ≡ Some own.node }
    requires var_in_range { wanted.var < dd.old.vars }
    requires lo_in_table { IsNumber dd.old.nodes wanted.lo.0 }
    requires hi_in_table { IsNumber dd.old.nodes wanted.hi.0 }
    requires lo_below { StandsBelow dd.old.nodes wanted.var wanted.lo.0 }
    requires hi_below { StandsBelow dd.old.nodes wanted.var wanted.hi.0 }
    ensures cases { IfOk result (λ f. (dd.new.nodes ≡ dd.old.nodes)
        ⊎ Appends dd.old.nodes wanted f.0 dd.new.nodes) }
    ensures full { IsErrOf result DdErr.Full
        → (wanted.lo ≢ wanted.hi) × Lacks dd.old.nodes wanted
        × (length dd.old.nodes ≡ dd.old.limit) }
    ensures refused { OnErr result (dd.new ≡ dd.old) }
    ensures only_full { IfErr result (λ e. e ≡ DdErr.Full) }
    ensures function { IfOk result (λ f. (values : Values) → function dd.new.nodes f.0 values
        ≡ (if values wanted.var then function dd.old.nodes wanted.hi.0 values
        else function dd.old.nodes wanted.lo.0 values)) }
    ensures in_table { IfOk result (λ f. IsNumber dd.new.nodes f.0) }
    ensures from_var { IfOk result (λ f. StandsFrom dd.new.nodes wanted.var f.0) }
    ensures vars { dd.new.vars ≡ dd.old.vars }
    ensures limit { dd.new.limit ≡ dd.old.limit }
    ensures extends { Extends dd.old.nodes dd.new.nodes }
    ensures table { IsNodeTable dd.new }
{
    if is_same(own.node, wanted) {
        Ok(own.number)
    } else {
        dd.mk(wanted.var, wanted.lo, wanted.hi)
    }
}

/// Whether two nodes have the same variable and the same children.
fn is_same(node: Node, wanted: Node) -> bool
    ensures { IsTrue result → node ≡ wanted }
{
    node == wanted
}
