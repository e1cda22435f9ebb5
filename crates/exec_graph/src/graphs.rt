//! Graphs of plans.

ghost use Rattle.std.specs.Prelude.{◌≡◌, ◌<◌, ◌≤◌, ◌+◌, ℕ, IsTrue, length, slice_index};
ghost use Rattle.exec_graph.specs.Numbers.{numbers_of};
ghost use Rattle.exec_graph.specs.Rows.{HasShortRows, IsRowed};

use crate::rows::Rows;
use crate::steps::Steps;
use indexmap::IndexSet;
use std::sync::ledger::Ledger;
use task_core::State;

/// A configuration: a state, and the context that the plan is in.
#[derive(Clone, Copy, Debug, PartialEq, Eq, Hash)]
pub struct Place {
    pub state: State,
    pub context: u32,
}

/// The graph of a plan in a task: the configurations that the plan may reach, numbered from 0 in
/// the order in which they were found, the initial ones first, and for each the numbers of those
/// that may follow it and of those that it may follow.
#[derive(Drop)]
pub struct Graph {
    pub(crate) places: IndexSet<Place>,
    // The first so many are the initial ones.
    pub(crate) initials: usize,
    pub(crate) next: Rows,
    pub(crate) prev: Rows,
    pub(crate) unexecutable: bool,
    pub(crate) stuck: bool,
    pub(crate) ghost few: { length places.keys ≤ 262144 },
    pub(crate) ghost next_rows: { IsRowed next.starts.items (numbers_of next.numbers) },
    pub(crate) ghost each_has_next: { length next.starts.items ≡ length places.keys + 1 },
    pub(crate) ghost next_short: { HasShortRows next },
    pub(crate) ghost prev_rows: { IsRowed prev.starts.items (numbers_of prev.numbers) },
    pub(crate) ghost each_has_prev: { length prev.starts.items ≡ length places.keys + 1 },
    pub(crate) ghost prev_short: { HasShortRows prev },
    pub(crate) ghost even: { length (numbers_of prev.numbers) ≡ length (numbers_of next.numbers) },
}

impl Graph {
    ghost use Rattle.task_core.specs.States.{IsWithin, vector};
    ghost use Rattle.exec_graph.specs.Values.{
      IsWithinFluents,
      edge_count,
      followers_at,
      graph_size,
      lengths_below,
      plain_graph,
      predecessors_at,
    };

    /// How many configurations there are: at most 262,144, numbered from 0.
    pub fn len(&self) -> u32
        ensures len { result ≡ graph_size self.now }
        ensures size { (n : ℕ) → result ≡ (plain_graph n self.now).size }
        ensures few { result ≤ 262144 }
    {
        self.places.len() as u32
    }

    /// The state of the configuration of this number.
    pub fn state(&self, i: u32) -> &State
        requires { i < graph_size self.now }
        ensures state { (n : ℕ)
            → ((plain_graph n self.now).configuration i).state ≡ vector n result.now }
        ensures within { (n : ℕ) → IsWithinFluents n self.now → IsWithin n result.now }
    {
        &self.places[i as usize].state
    }

    /// The context of the configuration of this number; 1 for a table.
    pub fn context(&self, i: u32) -> u32
        requires { i < graph_size self.now }
        ensures { (n : ℕ) → ((plain_graph n self.now).configuration i).context ≡ result }
    {
        self.places[i as usize].context
    }

    /// Whether an execution may begin in the configuration of this number.
    pub fn initial(&self, i: u32) -> bool
        requires { i < graph_size self.now }
        ensures { (n : ℕ) → result ≡ (plain_graph n self.now).initial i }
    {
        (i as usize) < self.initials
    }

    /// How many configurations may follow the one of this number: at most 262,144. To ask takes no
    /// step.
    pub fn next_len(&self, i: u32) -> u32
        requires { i < graph_size self.now }
        ensures { result ≡ length (followers_at self.now i) }
    {
        self.next.row_len(i as usize) as u32
    }

    /// How many configurations the one of this number may follow: at most 262,144. To ask takes no
    /// step.
    pub fn prev_len(&self, i: u32) -> u32
        requires { i < graph_size self.now }
        ensures { result ≡ length (predecessors_at self.now i) }
    {
        self.prev.row_len(i as usize) as u32
    }

    /// The number of the configuration at place `k` of those that may follow the one of this
    /// number. Each of them stands there once. It is one step.
    pub fn next_at<L: Ledger>(&self, i: u32, k: u32, steps: &mut Steps<L>) -> u32
        requires number { i < graph_size self.now }
        requires place { k < length (followers_at self.now i) }
        ensures next { result ≡ slice_index (followers_at self.now i) k }
        ensures step { steps.new ≡ steps.old + 1 }
    {
        steps.tick();
        self.next.number(i as usize, k as usize)
    }

    /// The number of the configuration at place `k` of those that the one of this number may
    /// follow. Each of them stands there once. It is one step.
    pub fn prev_at<L: Ledger>(&self, i: u32, k: u32, steps: &mut Steps<L>) -> u32
        requires number { i < graph_size self.now }
        requires place { k < length (predecessors_at self.now i) }
        ensures prev { result ≡ slice_index (predecessors_at self.now i) k }
        ensures step { steps.new ≡ steps.old + 1 }
    {
        steps.tick();
        self.prev.number(i as usize, k as usize)
    }

    /// How many edges there are: as many lead on from the configurations as lead to them.
    pub fn edge_count(&self) -> u64
        ensures next { result ≡ edge_count self.now }
        ensures prev { result ≡ lengths_below (predecessors_at self.now) (graph_size self.now) }
    {
        self.next.numbers.len() as u64
    }

    /// Whether in some configuration a rule counts whose action can't be executed there. In a table
    /// every rule that matches the state counts, in an automaton the first one of the context.
    pub fn unexecutable(&self) -> bool
        ensures { (n : ℕ) → result ≡ (plain_graph n self.now).unexecutable }
    {
        self.unexecutable
    }

    /// Whether in some configuration an automaton has no rule, or no next context for an outcome.
    /// For a table it is false.
    pub fn stuck(&self) -> bool
        ensures { (n : ℕ) → result ≡ (plain_graph n self.now).stuck }
    {
        self.stuck
    }
}
