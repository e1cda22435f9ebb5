//! A table of many nodes.
ghost use Rattle.std.specs.Prelude.{◌≡◌};

use crate::LIMIT;
use crate::extent::Extent;
use crate::random::Random;
use dd_nodes::{Dd, DdErr, Ref};
use std::alloc::Global;

/// Makes `count` nodes of 256 variables, in chains.
pub fn make_nodes(alloc: Global, count: u32) -> Result<Extent, DdErr> {
    let Ok(mut dd) = Dd::new(alloc, 256, LIMIT) else {
        return Err(DdErr::Memory);
    };
    let mut random = Random::new();
    for _ in 0..count {
        if dd.len() >= count {
            break;
        }
        add_chain(&mut dd, &mut random, count)?;
    }
    Ok(Extent {
        diagram: dd.len(),
        table: dd.len(),
    })
}

/// Makes a chain from the last variable to the first: each node has the node before and a constant
/// as children. It ends early where the table has `count` nodes.
fn add_chain(dd: &mut Dd, random: &mut Random, count: u32) -> Result<(), DdErr>
    requires { dd.old.vars ≡ 256 }
    ensures { dd.new.vars ≡ 256 }
{
    let mut f = Ref(random.below(2));
    for var in (0..256u32).rev() {
        if dd.len() >= count {
            break;
        }
        let constant = Ref(random.below(2));
        f = if random.below(2) == 0 {
            dd.mk(var, f, constant)?
        } else {
            dd.mk(var, constant, f)?
        };
    }
    Ok(())
}
