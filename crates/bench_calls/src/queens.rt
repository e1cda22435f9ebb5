//! The queens on a board, none of which attacks another.
ghost use Rattle.std.specs.Prelude.{◌≡◌, ◌≤◌, ◌<◌, ◌*◌, IfOk, length};
ghost use Rattle.dd_nodes.specs.NodeList.{IsNumber};

use crate::LIMIT;
use crate::extent::Extent;
use dd_nodes::{DdErr, Ref};
use dd_ops::Ops;
use std::alloc::Global;

/// The largest board: it has 256 cells.
pub const LARGEST: u32 = 16;

/// The ways to place a queen in each row of a board of `size` rows and columns. The variable of a
/// cell, counted row by row, says that a queen stands there.
pub fn placings(alloc: Global, size: u32) -> Result<Extent, DdErr>
    requires { size ≤ 16 }
{
    let Ok(mut ops) = Ops::new(alloc, size * size, LIMIT) else {
        return Err(DdErr::Memory);
    };
    let mut all = Ref(1);
    for row in 0..size {
        let some = some_in_row(&mut ops, size, row)?;
        all = ops.and(all, some)?;
    }
    for cell in 0..size * size {
        let conflict = conflict_at(&mut ops, size, cell)?;
        all = ops.minus(all, conflict)?;
    }
    Extent::of(alloc, ops.table(), all).map_err(|_| DdErr::Memory)
}

/// A queen stands in a row.
fn some_in_row(ops: &mut Ops, size: u32, row: u32) -> Result<Ref, DdErr>
    requires small { size ≤ 16 }
    requires vars { ops.old.vars ≡ size * size }
    requires row { row < size }
    ensures number { IfOk result (λ r. IsNumber ops.new.nodes r.0) }
    ensures longer { length ops.old.nodes ≤ length ops.new.nodes }
    ensures kept { ops.new.vars ≡ ops.old.vars }
{
    let mut some = Ref(0);
    for column in 0..size {
        let queen = ops.var(row * size + column)?;
        some = ops.or(some, queen)?;
    }
    Ok(some)
}

/// A queen stands in a cell, and another where it attacks her.
fn conflict_at(ops: &mut Ops, size: u32, cell: u32) -> Result<Ref, DdErr>
    requires small { size ≤ 16 }
    requires vars { ops.old.vars ≡ size * size }
    requires cell { cell < ops.old.vars }
    ensures number { IfOk result (λ r. IsNumber ops.new.nodes r.0) }
    ensures longer { length ops.old.nodes ≤ length ops.new.nodes }
    ensures kept { ops.new.vars ≡ ops.old.vars }
{
    let mut attackers = Ref(0);
    for other in 0..size * size {
        if attacks(size, cell, other) {
            let queen = ops.var(other)?;
            attackers = ops.or(attackers, queen)?;
        }
    }
    let queen = ops.var(cell)?;
    ops.and(attackers, queen)
}

/// Whether queens in two different cells attack each other.
fn attacks(size: u32, a: u32, b: u32) -> bool
    requires { 0 < size }
{
    let rows = (a / size).abs_diff(b / size);
    let columns = (a % size).abs_diff(b % size);
    a != b && (rows == 0 || columns == 0 || rows == columns)
}
