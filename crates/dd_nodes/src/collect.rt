//! Collection: which nodes some roots need, and the arena of these alone.
ghost use Rattle.std.specs.Prelude.{◌≡◌, ℕ, List, ◌<◌, ◌≤◌, ◌+◌, ◌-◌, length, map, replicate, slice_index, vec_capacity};
ghost use Rattle.std.specs.List.{All};
ghost use Rattle.dd_nodes.specs.declared.node.Ref as reference;
ghost use Rattle.dd_nodes.specs.NodeList.{IsNumber};
ghost use Rattle.dd_nodes.specs.Arena.{nodes_of, IsArena};
ghost use Rattle.dd_nodes.specs.Collecting.{AreMarks, AreInOrder, AreClosed, AreNewPlaces, HasPlace, Keeps, IsCollection};
ghost use Rattle.dd_nodes.specs.Collecting.{with_mark, number_by, root_by, node_by};

use crate::arena::{self, Cell};
use crate::node::{Node, Ref};

/// Keeps only the nodes that the roots need, in their order, and gives each root its new number.
/// The marks are of no use before and after.
pub fn keep_needed(
    cells: &mut Vec<Cell>,
    buckets: &mut Vec<u32>,
    marks: &mut Vec<u32>,
    roots: &mut Vec<Ref>,
)
    requires arena { IsArena cells.old buckets.old }
    requires order { AreInOrder (nodes_of cells.old.items) }
    requires roots { All (λ (r : reference.Ref). IsNumber (nodes_of cells.old.items) r.0) roots.old.items }
    requires marks_room { vec_capacity marks.old ≡ vec_capacity cells.old }
    ensures collection { IsCollection (nodes_of cells.old.items) (nodes_of cells.new.items)
        roots.old.items roots.new.items }
    ensures arena { IsArena cells.new buckets.new }
    ensures room { vec_capacity cells.new ≡ vec_capacity cells.old }
    ensures marks_room { vec_capacity marks.new ≡ vec_capacity marks.old }
{
    mark_needed(cells, marks, roots);
    move_down(cells, marks);
    renumber_roots(marks, roots);
    let count = buckets.len();
    arena::chain_anew(cells, buckets, count);
}

/// Marks the nodes that are reached from the roots: these, and from the last node to the first the
/// children of each marked one.
fn mark_needed(cells: &Vec<Cell>, marks: &mut Vec<u32>, roots: &Vec<Ref>)
    requires small { length cells.now.items ≤ 16777216 }
    requires order { AreInOrder (nodes_of cells.now.items) }
    requires roots { All (λ (r : reference.Ref). IsNumber (nodes_of cells.now.items) r.0) roots.now.items }
    requires room { length cells.now.items ≤ vec_capacity marks.old }
    ensures marks { AreMarks (nodes_of cells.now.items) roots.now.items marks.new.items 0 }
    ensures room { vec_capacity marks.new ≡ vec_capacity marks.old }
{
    arena::make_zeros(marks, cells.len());
    for root in roots {
        mark(marks, *root);
    }
    let mut place = cells.len();
    while place > 0 {
        place -= 1;
        mark_children(cells, marks, place);
    }
}

/// Marks the children of the node at a place, if that is marked.
fn mark_children(cells: &Vec<Cell>, marks: &mut Vec<u32>, place: usize)
    requires order { AreInOrder (nodes_of cells.now.items) }
    requires within { place < length cells.now.items }
    requires size { length marks.old.items ≡ length cells.now.items }
    ensures marks { (roots : List reference.Ref)
        → AreMarks (nodes_of cells.now.items) roots marks.old.items (place + 1)
        → AreMarks (nodes_of cells.now.items) roots marks.new.items place }
    ensures size { length marks.new.items ≡ length marks.old.items }
    ensures room { vec_capacity marks.new ≡ vec_capacity marks.old }
{
    if marks[place] != 0 {
        let node = cells[place].node;
        mark(marks, node.lo);
        mark(marks, node.hi);
    }
}

/// Marks the node of a number; the constants have none.
fn mark(marks: &mut Vec<u32>, f: Ref)
    requires { f.0 < length marks.old.items + 2 }
    ensures marks { marks.new.items ≡ with_mark marks.old.items f.0 }
    ensures size { length marks.new.items ≡ length marks.old.items }
    ensures room { vec_capacity marks.new ≡ vec_capacity marks.old }
{
    if f.0 >= 2 {
        marks[f.0 as usize - 2] = 1;
    }
}

/// Moves the marked nodes down in their order, with the new numbers of their children. Each mark
/// becomes the new place, counted from 1.
fn move_down(cells: &mut Vec<Cell>, marks: &mut Vec<u32>)
    requires small { length cells.old.items ≤ 16777216 }
    requires order { AreInOrder (nodes_of cells.old.items) }
    requires closed { AreClosed (nodes_of cells.old.items) marks.old.items }
    ensures kept { Keeps marks.old.items (nodes_of cells.old.items) (nodes_of cells.new.items) }
    ensures places { AreNewPlaces marks.old.items marks.new.items }
    ensures fewer { length cells.new.items ≤ length cells.old.items }
    ensures size { length marks.new.items ≡ length marks.old.items }
    ensures room { vec_capacity cells.new ≡ vec_capacity cells.old }
    ensures marks_room { vec_capacity marks.new ≡ vec_capacity marks.old }
{
    let mut kept = 0;
    for place in 0..cells.len() {
        if marks[place] == 0 {
            continue;
        }
        cells[kept].node = renumber_children(marks, cells[place].node);
        kept += 1;
        marks[place] = kept as u32;
    }
    cells.truncate(kept);
}

/// A node with the new numbers of its children.
fn renumber_children(marks: &Vec<u32>, node: Node) -> Node
    requires lo { HasPlace marks.now.items node.lo.0 }
    requires hi { HasPlace marks.now.items node.hi.0 }
    ensures { result ≡ node_by marks.now.items node }
{
    Node {
        var: node.var,
        lo: renumber(marks, node.lo),
        hi: renumber(marks, node.hi),
    }
}

/// The new number of a number.
fn renumber(marks: &Vec<u32>, f: Ref) -> Ref
    requires { HasPlace marks.now.items f.0 }
    ensures { result ≡ root_by marks.now.items f }
{
    if f.0 < 2 {
        f
    } else {
        Ref(marks[f.0 as usize - 2] + 1)
    }
}

/// Gives each root its new number.
fn renumber_roots(marks: &Vec<u32>, roots: &mut Vec<Ref>)
    requires { All (λ (r : reference.Ref). HasPlace marks.now.items r.0) roots.old.items }
    ensures { roots.new.items ≡ map (root_by marks.now.items) roots.old.items }
{
    for place in 0..roots.len() {
        roots[place] = renumber(marks, roots[place]);
    }
}
