//! The nodes of a table, in one vector of cells. Each cell stands in the chain of its bucket, so a
//! node is found by its parts, and no call here wants memory.
ghost use Rattle.std.specs.Prelude.{◌≡◌, ◌<◌, ◌≤◌, ◌+◌, ◌*◌, ◌++◌, ◌∷◌, [], length};
ghost use Rattle.std.specs.Prelude.{◌⊎◌, ◌↔◌, IfSome, IfNone, IsNone, IfOk, OnErr, IfErr, IsErrOf, vec_capacity, replicate};
ghost use Rattle.dd_nodes.specs.NodeList.{Lacks, node_at};
ghost use Rattle.dd_nodes.specs.Arena.{nodes_of, bucket, AreChained, IsArena};
ghost use Rattle.dd_nodes.specs.NodeList.{IsNumber};

use crate::node::{DdErr, Node, Ref};
use std::alloc::{AllocError, Global};

/// A node in the chain of its bucket.
#[derive(Clone, Copy)]
pub struct Cell {
    pub node: Node,
    /// The place of the next cell of the chain, counted from 1, or 0 at the end.
    pub next: u32,
}

/// One empty bucket, with room for as many as the least power of two that is at least `limit`.
pub fn new_buckets(alloc: Global, limit: usize) -> Result<Vec<u32>, AllocError>
    requires some { 0 < limit }
    requires small { limit ≤ 16777216 }
    ensures one { IfOk result (λ buckets. buckets.items ≡ 0 ∷ []) }
    ensures room { IfOk result (λ buckets. limit ≤ vec_capacity buckets) }
    ensures bound { IfOk result (λ buckets. vec_capacity buckets < 2 * limit) }
{
    let mut buckets = Vec::with_capacity(alloc, limit.next_power_of_two())?;
    buckets.push_reserved(0);
    Ok(buckets)
}

/// The node with a number, and `None` for the two constants.
pub fn node_of(cells: &Vec<Cell>, f: Ref) -> Option<Node>
    requires { IsNumber (nodes_of cells.now.items) f.0 }
    ensures node { result ≡ node_at (nodes_of cells.now.items) f.0 }
    ensures constant { IsNone result ↔ (f.0 < 2) }
{
    if f.0 < 2 {
        None
    } else {
        Some(cells[f.0 as usize - 2].node)
    }
}

/// The bucket of a node among so many.
fn bucket_of(node: Node, count: usize) -> usize
    requires some { 0 < count }
    requires few { count ≤ 33554432 }
    ensures bucket { result ≡ bucket node count }
    ensures within { result < count }
{
    let var = (node.var as u64).wrapping_mul(11_400_714_819_323_198_485);
    let lo = (node.lo.0 as u64).wrapping_mul(14_029_467_366_897_019_727);
    let hi = (node.hi.0 as u64).wrapping_mul(9_650_029_242_287_828_579);
    let mixed = var.wrapping_add(lo).wrapping_add(hi);
    ((mixed >> 32) * count as u64 >> 32) as usize
}

/// The number of a node, if it is there.
fn find(cells: &Vec<Cell>, buckets: &Vec<u32>, node: Node) -> Option<Ref>
    requires small { length cells.now.items ≤ 16777216 }
    requires some { 0 < length buckets.now.items }
    requires few { length buckets.now.items ≤ 33554432 }
    requires chained { AreChained (length buckets.now.items) cells.now.items buckets.now.items
        (length cells.now.items) }
    ensures found { IfSome result (λ f. node_at (nodes_of cells.now.items) f.0 ≡ Some node) }
    ensures absent { IfNone result (Lacks (nodes_of cells.now.items) node) }
{
    let mut at = buckets[bucket_of(node, buckets.len())];
    while at != 0 {
        let cell = cells[at as usize - 1];
        if cell.node == node {
            return Some(Ref(at + 1));
        }
        at = cell.next;
    }
    None
}

/// Puts the cell at a place, before which all stand in their chains, at the head of its own.
fn link(cells: &mut Vec<Cell>, buckets: &mut Vec<u32>, place: usize)
    requires within { place < length cells.old.items }
    requires small { length cells.old.items ≤ 16777216 }
    requires some { 0 < length buckets.old.items }
    requires few { length buckets.old.items ≤ 33554432 }
    requires chained { AreChained (length buckets.old.items) cells.old.items buckets.old.items place }
    ensures nodes { nodes_of cells.new.items ≡ nodes_of cells.old.items }
    ensures size { length cells.new.items ≡ length cells.old.items }
    ensures count { length buckets.new.items ≡ length buckets.old.items }
    ensures chained { AreChained (length buckets.new.items) cells.new.items buckets.new.items (place + 1) }
    ensures room { vec_capacity cells.new ≡ vec_capacity cells.old }
    ensures bucket_room { vec_capacity buckets.new ≡ vec_capacity buckets.old }
{
    let bucket = bucket_of(cells[place].node, buckets.len());
    cells[place].next = buckets[bucket];
    buckets[bucket] = place as u32 + 1;
}

/// Makes all numbers of a list 0, so many of them.
pub fn make_zeros(numbers: &mut Vec<u32>, count: usize)
    requires { count ≤ vec_capacity numbers.old }
    ensures zeros { numbers.new.items ≡ replicate count 0 }
    ensures room { vec_capacity numbers.new ≡ vec_capacity numbers.old }
{
    numbers.clear();
    for _ in 0..count {
        numbers.push_reserved(0);
    }
}

/// Chains all cells anew, by so many buckets.
pub fn chain_anew(cells: &mut Vec<Cell>, buckets: &mut Vec<u32>, count: usize)
    requires small { length cells.old.items ≤ 16777216 }
    requires some { 0 < count }
    requires few { count ≤ 33554432 }
    requires room { count ≤ vec_capacity buckets.old }
    ensures nodes { nodes_of cells.new.items ≡ nodes_of cells.old.items }
    ensures size { length cells.new.items ≡ length cells.old.items }
    ensures count { length buckets.new.items ≡ count }
    ensures chained { AreChained (length buckets.new.items) cells.new.items buckets.new.items
        (length cells.new.items) }
    ensures room { vec_capacity cells.new ≡ vec_capacity cells.old }
    ensures bucket_room { vec_capacity buckets.new ≡ vec_capacity buckets.old }
{
    make_zeros(buckets, count);
    for place in 0..cells.len() {
        link(cells, buckets, place);
    }
}

/// Chains all cells by four times as many buckets, or as many as there is room for, where there are
/// at least half as many cells as buckets. So few cells share a bucket, and a cell is chained anew
/// less than twice on average.
fn widen(cells: &mut Vec<Cell>, buckets: &mut Vec<u32>)
    requires arena { IsArena cells.old buckets.old }
    ensures nodes { nodes_of cells.new.items ≡ nodes_of cells.old.items }
    ensures size { length cells.new.items ≡ length cells.old.items }
    ensures arena { IsArena cells.new buckets.new }
    ensures room { vec_capacity cells.new ≡ vec_capacity cells.old }
{
    let count = buckets.len();
    if cells.len() < count / 2 || count == buckets.capacity() {
        return;
    }
    let wanted = (4 * count).min(buckets.capacity());
    chain_anew(cells, buckets, wanted);
}

/// Appends a node that is not there.
fn append(cells: &mut Vec<Cell>, buckets: &mut Vec<u32>, node: Node)
    requires arena { IsArena cells.old buckets.old }
    requires within { length cells.old.items < vec_capacity cells.old }
    ensures nodes { nodes_of cells.new.items ≡ nodes_of cells.old.items ++ node ∷ [] }
    ensures arena { IsArena cells.new buckets.new }
    ensures room { vec_capacity cells.new ≡ vec_capacity cells.old }
{
    widen(cells, buckets);
    let place = cells.len();
    cells.push_reserved(Cell { node, next: 0 });
    link(cells, buckets, place);
}

/// The number of a node, which is appended if it is not there and there is room.
pub fn place(cells: &mut Vec<Cell>, buckets: &mut Vec<u32>, node: Node) -> Result<Ref, DdErr>
    requires arena { IsArena cells.old buckets.old }
    ensures placed { IfOk result (λ f. ((node_at (nodes_of cells.old.items) f.0 ≡ Some node)
        × (nodes_of cells.new.items ≡ nodes_of cells.old.items))
        ⊎ (Lacks (nodes_of cells.old.items) node × (f.0 ≡ length (nodes_of cells.old.items) + 2)
        × (nodes_of cells.new.items ≡ nodes_of cells.old.items ++ node ∷ []))) }
    ensures full { IsErrOf result DdErr.Full ↔
        (Lacks (nodes_of cells.old.items) node
        × (length (nodes_of cells.old.items) ≡ vec_capacity cells.old)) }
    ensures refused { OnErr result (nodes_of cells.new.items ≡ nodes_of cells.old.items) }
    ensures only_full { IfErr result (λ e. e ≡ DdErr.Full) }
    ensures within { length (nodes_of cells.new.items) ≤ vec_capacity cells.old }
    ensures arena { IsArena cells.new buckets.new }
    ensures room { vec_capacity cells.new ≡ vec_capacity cells.old }
{
    match find(cells, buckets, node) {
        Some(f) => Ok(f),
        None => append_within(cells, buckets, node),
    }
}

/// Appends a node that is not there, if there is room.
fn append_within(cells: &mut Vec<Cell>, buckets: &mut Vec<u32>, node: Node) -> Result<Ref, DdErr>
    requires arena { IsArena cells.old buckets.old }
    ensures appended { IfOk result (λ f. (f.0 ≡ length (nodes_of cells.old.items) + 2)
        × (nodes_of cells.new.items ≡ nodes_of cells.old.items ++ node ∷ [])) }
    ensures full { IsErrOf result DdErr.Full ↔ (length (nodes_of cells.old.items) ≡ vec_capacity cells.old) }
    ensures refused { OnErr result (nodes_of cells.new.items ≡ nodes_of cells.old.items) }
    ensures only_full { IfErr result (λ e. e ≡ DdErr.Full) }
    ensures within { length (nodes_of cells.new.items) ≤ vec_capacity cells.old }
    ensures arena { IsArena cells.new buckets.new }
    ensures room { vec_capacity cells.new ≡ vec_capacity cells.old }
{
    let count = cells.len();
    if count == cells.capacity() {
        return Err(DdErr::Full);
    }
    append(cells, buckets, node);
    Ok(Ref(count as u32 + 2))
}
