//! Where sets are listed whose table has its variables in an order of its own.
ghost use Rattle.std.specs.Prelude.{◌≡◌, [], length, map, IfOk};
ghost use Rattle.dd_nodes.specs.NodeList.{IsNumber, function};
ghost use Rattle.dd_nodes.specs.Table.{IsNodeTable};
ghost use Rattle.task_core.specs.Cubes.{cubes_of};
ghost use Rattle.task_core.specs.Vectors.{value_of};
ghost use Rattle.dd_sets.specs.Orders.{read};
ghost use Rattle.dd_sets.specs.Rebuilt.{AreTablesOf, IsListing, StaysWithin};

use crate::cubes::{Cube, cubes_of_table};
use crate::errors::ListErr;
use crate::order::Order;
use crate::rebuild::rebuild;
use dd_cache::Cache;
use dd_nodes::{Dd, DdErr, Ref};
use dd_ops::Ops;
use std::alloc::{AllocError, Global};

/// Where the cubes of sets are listed, one set after the other, as long as no set of the table is
/// made and none ends: what a set takes in memory and time is kept for the next one.
#[derive(Drop)]
pub struct Listing {
    /// The tables, once there was need of them.
    pub tables: Option<Tables>,
}

/// A table whose variables are the fluents in their own order, and what numbers of another table
/// became there.
#[derive(Drop)]
pub struct Tables {
    pub to: Ops,
    pub memo: Cache,
}

impl Listing {
    /// Nothing is listed yet. It takes no memory.
    pub fn new() -> Listing
        ensures { result.tables ≡ None }
    {
        Listing { tables: None }
    }

    /// The cubes of a number, in the order of the fluents, by the tables that there are, and where
    /// these find no room, by new ones.
    pub(crate) fn list(
        &mut self,
        alloc: Global,
        dd: &Dd,
        order: &Order,
        number: Ref,
    ) -> Result<Vec<Cube>, ListErr>
        requires table { IsNodeTable dd.now }
        requires number { IsNumber dd.now.nodes number.0 }
        requires order { StaysWithin dd.now.vars order.now.fluents dd.now.vars }
        requires count { length order.now.fluents ≡ dd.now.vars }
        requires listing { IsListing dd.now.vars dd.now.nodes order.now.fluents self.old.tables }
        ensures cubes { IfOk result (λ cubes. map (λ cube. cube.items) cubes.items
            ≡ cubes_of dd.now.vars
            (λ state. read order.now.fluents (function dd.now.nodes number.0) (value_of state))) }
        ensures listing { IsListing dd.now.vars dd.now.nodes order.now.fluents self.new.tables }
    {
        if let Some(mut tables) = self.tables.take() {
            let listed = list_over(alloc, dd, order, &mut tables, number);
            if !is_full(&listed) {
                self.tables = Some(tables);
                return listed;
            }
        }
        let mut tables = Tables::new(alloc, dd, order)?;
        let listed = list_over(alloc, dd, order, &mut tables, number);
        self.tables = Some(tables);
        listed
    }
}

impl Tables {
    /// Empty tables for the sets of a table over the fluents of an order.
    fn new(alloc: Global, dd: &Dd, order: &Order) -> Result<Tables, AllocError>
        requires { IsNodeTable dd.now }
        ensures vars { IfOk result (λ tables. tables.to.vars ≡ length order.now.fluents) }
        ensures empty { IfOk result (λ tables. tables.memo.pairs ≡ []) }
    {
        Ok(Tables {
            to: Ops::new(alloc, order.count() as u32, dd.limit())?,
            memo: Cache::new(alloc, dd.limit())?,
        })
    }
}

/// Whether a list found no room.
fn is_full(listed: &Result<Vec<Cube>, ListErr>) -> bool {
    matches!(listed, Err(ListErr::Full))
}

/// The cubes of a number, by tables of its table.
fn list_over(
    alloc: Global,
    dd: &Dd,
    order: &Order,
    tables: &mut Tables,
    number: Ref,
) -> Result<Vec<Cube>, ListErr>
    requires table { IsNodeTable dd.now }
    requires number { IsNumber dd.now.nodes number.0 }
    requires order { StaysWithin dd.now.vars order.now.fluents dd.now.vars }
    requires tables { AreTablesOf dd.now.vars dd.now.nodes order.now.fluents tables.old }
    ensures cubes { IfOk result (λ cubes. map (λ cube. cube.items) cubes.items ≡ cubes_of dd.now.vars
        (λ state. read order.now.fluents (function dd.now.nodes number.0) (value_of state))) }
    ensures tables { AreTablesOf dd.now.vars dd.now.nodes order.now.fluents tables.new }
{
    match rebuild(dd, order, &mut tables.to, &mut tables.memo, number) {
        Ok(rebuilt) => Ok(cubes_of_table(alloc, tables.to.table(), rebuilt)?),
        Err(DdErr::Full) => Err(ListErr::Full),
        Err(DdErr::Memory) => Err(ListErr::Memory),
    }
}
