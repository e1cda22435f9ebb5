//! Sets whose fluents are variables in another order: every operation against truth tables, and the
//! cubes beside those of sets in the order of the fluents.
ghost use Rattle.std.specs.Prelude.{◌≤◌, All, length};
ghost use Rattle.dd_sets.specs.LiveSets.{IsLive};
ghost use Rattle.dd_sets.specs.Rebuilt.{IsListingOf};

use crate::set_tests::{Known, all_sets, every_set_agrees, pick};
use dd_nodes::DdErr;
use dd_sets::{ListErr, Listing, Order, SetErr, Sets};
use std::alloc::Global;
use std::test::Fail;

/// Whether every operation answers at every set over three of the fluents that have these places.
fn agrees_in_order(alloc: Global, places: &[usize]) -> Result<bool, Fail>
    requires { 3 ≤ length places.now }
{
    let order = Order::of_places(alloc, places)?.ok_or("the places have no order")?;
    let mut sets = Sets::new_in_order(alloc, order, 300)?;
    every_set_agrees(alloc, &mut sets)
}

/// Whether two sets have the same cubes, in the same order.
fn same_cubes(
    plain: &Sets,
    f: Known,
    moved: &Sets,
    g: Known,
    listing: &mut Listing,
) -> Result<bool, Fail>
    requires f_live { IsLive plain.now f.0.0 }
    requires g_live { IsLive moved.now g.0.0 }
    requires listing { IsListingOf moved.now listing.old.tables }
    ensures { IsListingOf moved.now listing.new.tables }
{
    Ok(plain.cubes(f.0, &mut Listing::new())? == moved.cubes(g.0, listing)?)
}

/// Whether the sets at the same places of two lists have the same cubes.
fn all_same_cubes(
    plain: &Sets,
    known: &[Known],
    moved: &Sets,
    others: &[Known],
) -> Result<bool, Fail>
    requires live { All (λ k. IsLive plain.now k.0.0) known.now }
    requires others_live { All (λ k. IsLive moved.now k.0.0) others.now }
{
    let mut listing = Listing::new();
    for place in 0..known.len() {
        let f = pick(plain, known, place).ok_or("a set is missing")?;
        let g = pick(moved, others, place).ok_or("a set is missing")?;
        if !same_cubes(plain, f, moved, g, &mut listing)? {
            return Ok(false);
        }
    }
    Ok(true)
}

/// Whether each set over three fluents has the same cubes in both tables.
fn lists_alike(alloc: Global, plain: &mut Sets, moved: &mut Sets) -> Result<bool, Fail>
    requires plain_vars { 3 ≤ plain.old.vars }
    requires moved_vars { 3 ≤ moved.old.vars }
{
    let known = all_sets(alloc, plain)?;
    let others = all_sets(alloc, moved)?;
    all_same_cubes(plain, &known, moved, &others)
}

fn lists_alike_in_order(alloc: Global, places: &[usize]) -> Result<bool, Fail>
    requires { 3 ≤ length places.now }
{
    let order = Order::of_places(alloc, places)?.ok_or("the places have no order")?;
    let mut plain = Sets::new(alloc, 6, 300)?;
    let mut moved = Sets::new_in_order(alloc, order, 300)?;
    lists_alike(alloc, &mut plain, &mut moved)
}

#[test]
fn operations_agree_in_another_order(rt: HostRuntime) -> Result<(), Fail> {
    assert!(rt; agrees_in_order(rt.alloc(), &[2, 0, 1])?);
    Ok(())
}

#[test]
fn operations_agree_among_more_fluents(rt: HostRuntime) -> Result<(), Fail> {
    assert!(rt; agrees_in_order(rt.alloc(), &[4, 1, 5, 0, 2, 3])?);
    Ok(())
}

#[test]
fn cubes_stand_in_the_order_of_the_fluents(rt: HostRuntime) -> Result<(), Fail> {
    assert!(rt; lists_alike_in_order(rt.alloc(), &[5, 3, 1, 4, 0, 2])?);
    Ok(())
}

fn has_order(alloc: Global, places: &[usize]) -> Result<bool, Fail> {
    Ok(Order::of_places(alloc, places)?.is_some())
}

#[test]
fn no_two_fluents_have_one_place(rt: HostRuntime) -> Result<(), Fail> {
    assert!(rt; has_order(rt.alloc(), &[1, 0])?);
    assert!(rt; !has_order(rt.alloc(), &[1, 1])?);
    assert!(rt; !has_order(rt.alloc(), &[0, 2])?);
    Ok(())
}

#[test]
fn a_full_table_says_so(rt: HostRuntime) -> Result<(), Fail> {
    let alloc = rt.alloc();
    assert_eq!(rt;
        format!(in alloc; "{}", DdErr::Full)?.as_str(),
        "the table of diagram nodes is full"
    );
    assert_eq!(rt;
        format!(in alloc; "{}", SetErr::Full)?.as_str(),
        "the table of diagram nodes is full"
    );
    assert_eq!(rt;
        format!(in alloc; "{}", ListErr::Full)?.as_str(),
        "the table in which cubes are listed is full"
    );
    Ok(())
}
