//! How large a diagram and its table are.
ghost use Rattle.std.specs.Prelude.{◌≡◌, ◌<◌, ◌+◌, length};
ghost use Rattle.dd_nodes.specs.NodeList.{IsNumber};

use dd_nodes::{Dd, Ref};
use std::alloc::{AllocError, Global};
use std::fmt;

/// The nodes of a diagram, and all nodes of its table, with those that were made on the way.
#[derive(Clone, Copy)]
pub struct Extent {
    pub diagram: u32,
    pub table: u32,
}

impl Extent {
    /// The extent of the diagram with number `f`.
    pub fn of(alloc: Global, dd: &Dd, f: Ref) -> Result<Extent, AllocError>
        requires { IsNumber dd.now.nodes f.0 }
    {
        Ok(Extent {
            diagram: count_reached(alloc, dd, f)?,
            table: dd.len(),
        })
    }
}

impl fmt::Display for Extent {
    fn fmt<W: fmt::Write>(&self, f: &mut fmt::Formatter<W>) -> fmt::Result {
        write!(f, "{} nodes, {} in the table", self.diagram, self.table)
    }
}

/// How many nodes the diagram with number `f` has. Each child has a lower number than its parent.
fn count_reached(alloc: Global, dd: &Dd, f: Ref) -> Result<u32, AllocError>
    requires { IsNumber dd.now.nodes f.0 }
{
    let end = dd.len() + 2;
    let mut is_reached = vec![in alloc; false; end as usize]?;
    mark(&mut is_reached, f);
    let mut count = 0u32;
    for n in (2..end).rev() {
        if is_reached[n as usize]
            && let Some(node) = dd.node(Ref(n))
        {
            count = count.saturating_add(1);
            mark(&mut is_reached, node.lo);
            mark(&mut is_reached, node.hi);
        }
    }
    Ok(count)
}

fn mark(is_reached: &mut Vec<bool>, f: Ref)
    ensures { length is_reached.new.items ≡ length is_reached.old.items }
{
    if let Some(is_marked) = is_reached.get_mut(f.0 as usize) {
        *is_marked = true;
    }
}
