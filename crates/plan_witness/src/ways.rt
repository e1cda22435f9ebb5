//! The shortest ways from some configurations of a graph to the others.

ghost use Rattle.std.specs.Prelude.{
  ◌≡◌,
  ◌+◌,
  ◌<◌,
  ◌≤◌,
  if◌then◌else◌,
  slice_index_or,
  slice_set,
  IfNone,
  IfOk,
  IfSome,
  false,
  length,
  true,
  ℕ,
};
ghost use Rattle.exec_graph.specs.Values.{followers_at, graph_size};
ghost use Rattle.plan_check.specs.Plain.{HasFollowersInside};
ghost use Rattle.plan_check.specs.Walks.{IsMarked};
ghost use Rattle.plan_witness.specs.Ways.{AreWays, HasGrown, IsNearest, IsRound, at};

use exec_graph::{Graph, Steps};
use std::alloc::{AllocError, Global};
use std::sync::ledger::Ledger;

/// The length of a way to a number that none leads to.
pub const FAR: u32 = 4_294_967_295;

/// For each configuration the length of a shortest way to it, and the number of the one before it on
/// such a way.
#[derive(Drop)]
pub struct Ways {
    pub lengths: Vec<u32>,
    pub before: Vec<u32>,
}

impl Ways {
    /// The ways of no step: to the numbers with a mark.
    pub fn new(alloc: Global, starts: &[bool]) -> Result<Ways, AllocError>
        ensures lengths { IfOk result (λ ways. length ways.lengths.items ≡ length starts.now) }
        ensures before { IfOk result (λ ways. length ways.before.items ≡ length starts.now) }
        ensures each { IfOk result (λ ways. (i : ℕ) → i < length starts.now
            → at ways.lengths.items i ≡ (if slice_index_or starts.now i false then 0 else FAR)) }
    {
        let mut lengths = Vec::new(alloc);
        let mut before = Vec::new(alloc);
        for start in starts {
            lengths.push(if *start { 0 } else { FAR })?;
            before.push(0)?;
        }
        Ok(Ways { lengths, before })
    }

    /// The length of the way to a number.
    pub fn length_at(&self, number: u32) -> u32
        requires { number < length self.now.lengths.items }
        ensures { result ≡ at self.now.lengths.items number }
    {
        self.lengths[number as usize]
    }

    /// The number before another on the way to it.
    pub fn before_at(&self, number: u32) -> u32
        requires { number < length self.now.before.items }
        ensures { result ≡ at self.now.before.items number }
    {
        self.before[number as usize]
    }

    /// Puts a way of this length to a number, by the one before it, unless a way is known.
    pub fn reach(&mut self, number: u32, before: u32, now: u32) -> bool
        requires lengths { number < length self.old.lengths.items }
        requires before { number < length self.old.before.items }
        ensures unknown { result ≡ true → at self.old.lengths.items number ≡ FAR }
        ensures known { result ≡ false → at self.old.lengths.items number < FAR }
        ensures lengths { self.new.lengths.items ≡ (if result
            then slice_set self.old.lengths.items number now else self.old.lengths.items) }
        ensures before { self.new.before.items ≡ (if result
            then slice_set self.old.before.items number before else self.old.before.items) }
    {
        if self.length_at(number) != FAR {
            return false;
        }
        self.lengths[number as usize] = now;
        self.before[number as usize] = before;
        true
    }

    /// Goes one step on from a number, where the way to it has this length. Says whether a way to
    /// some other was found.
    fn visit<L: Ledger>(
        &mut self,
        graph: &Graph,
        number: u32,
        now: u32,
        steps: &mut Steps<L>,
    ) -> bool
        requires inside { HasFollowersInside graph.now }
        requires number { number < graph_size graph.now }
        requires few { now < 262145 }
        requires round { IsRound (graph_size graph.now) (followers_at graph.now)
            self.old.lengths.items self.old.before.items now number }
        ensures round { IsRound (graph_size graph.now) (followers_at graph.now)
            self.new.lengths.items self.new.before.items now (number + 1) }
        ensures grown { HasGrown self.old.lengths.items self.new.lengths.items result }
    {
        if self.length_at(number) != now {
            return false;
        }
        let mut found = false;
        for k in 0..graph.next_len(number) {
            let follower = graph.next_at(number, k, steps);
            if self.reach(follower, number, now + 1) {
                found = true;
            }
        }
        found
    }

    /// Goes one step on from each number to which the way has this length. Says whether a way to
    /// some other was found.
    fn round<L: Ledger>(&mut self, graph: &Graph, now: u32, steps: &mut Steps<L>) -> bool
        requires inside { HasFollowersInside graph.now }
        requires few { now < 262145 }
        requires round { IsRound (graph_size graph.now) (followers_at graph.now)
            self.old.lengths.items self.old.before.items now 0 }
        ensures round { IsRound (graph_size graph.now) (followers_at graph.now)
            self.new.lengths.items self.new.before.items now (graph_size graph.now) }
        ensures grown { HasGrown self.old.lengths.items self.new.lengths.items result }
    {
        let mut found = false;
        for number in 0..graph.len() {
            if self.visit(graph, number, now, steps) {
                found = true;
            }
        }
        found
    }

    /// The nearest of the numbers with a mark.
    pub fn nearest(&self, marks: &[bool]) -> Option<u32>
        requires count { length self.now.lengths.items ≡ length marks.now }
        requires few { length marks.now ≤ 262144 }
        ensures some { IfSome result (IsNearest self.now.lengths.items marks.now) }
        ensures none { IfNone result ((i : ℕ) → IsMarked marks.now i
            → at self.now.lengths.items i < FAR → ⊥) }
    {
        let mut nearest = None;
        let mut least = FAR;
        for i in 0..marks.len() {
            if marks[i] && self.lengths[i] < least {
                least = self.lengths[i];
                nearest = Some(i as u32);
            }
        }
        nearest
    }
}

/// The shortest ways from the numbers with a mark.
pub(crate) fn ways_from<L: Ledger>(
    alloc: Global,
    graph: &Graph,
    starts: &[bool],
    steps: &mut Steps<L>,
) -> Result<Ways, AllocError>
    requires inside { HasFollowersInside graph.now }
    requires count { length starts.now ≡ graph_size graph.now }
    ensures { IfOk result (λ ways. AreWays (graph_size graph.now) (followers_at graph.now)
        starts.now ways.lengths.items ways.before.items) }
{
    // The graph is asked for its bound on configurations alone.
    let _count = graph.len();
    let mut ways = Ways::new(alloc, starts)?;
    let mut now = 0;
    while ways.round(graph, now, steps) {
        now += 1;
    }
    Ok(ways)
}
