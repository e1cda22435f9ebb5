//! The configurations that a plan may reach, with their places.

ghost use Rattle.exec_graph.specs.Moves.{configuration_of};
ghost use Rattle.exec_graph.specs.Values.{IsWithinFluents, graph_size, plain_graph};
ghost use Rattle.plan_picture.specs.Places.{
  AreWithin,
  configurations_of,
  place_from,
};
ghost use Rattle.std.specs.Prelude.{◌≡◌, ◌<◌, ℕ, IfOk, Some, length, slice_get};
ghost use Rattle.task_core.specs.States.{IsWithin};

use exec_graph::{Graph, Place};
use std::alloc::{AllocError, Global};

/// The configurations of a graph, in the order of their numbers.
pub(crate) fn places_of(alloc: Global, graph: &Graph) -> Result<Vec<Place>, AllocError>
    ensures count { IfOk result (λ places. length places.items ≡ graph_size graph.now) }
    ensures same { IfOk result (λ places. (n i : ℕ) → i < graph_size graph.now
        → slice_get (configurations_of n places.items) i
        ≡ Some ((plain_graph n graph.now).configuration i)) }
    ensures within { IfOk result (λ places. (n : ℕ) → IsWithinFluents n graph.now
        → AreWithin n places.items) }
{
    let mut places = Vec::new(alloc);
    for number in 0..graph.len() {
        places.push(Place {
            state: *graph.state(number),
            context: graph.context(number),
        })?;
    }
    Ok(places)
}

pub(crate) fn place_at(places: &[Place], number: u32) -> &Place
    requires { number < length places.now }
    ensures { slice_get places.now number ≡ Some result.now }
{
    &places[number as usize]
}

/// The first place of a configuration among others.
pub(crate) fn number_of(places: &[Place], wanted: &Place) -> Option<u32>
    requires few { length places.now < 4294967296 }
    ensures { (n : ℕ) → AreWithin n places.now → IsWithin n wanted.now.state
        → result ≡ place_from 0 (configurations_of n places.now) (configuration_of n wanted.now) }
{
    for number in 0..places.len() {
        if places[number] == *wanted {
            return Some(number as u32);
        }
    }
    None
}
