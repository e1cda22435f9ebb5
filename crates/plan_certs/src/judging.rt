//! Judges the parts of a certificate: whether its sets hold a state, and whether an action is a way
//! out of one.

ghost use Rattle.std.specs.Prelude.{◌≡◌, ◌<◌, map, length};
ghost use Rattle.std.specs.List.{list_all, list_any};
ghost use Rattle.task_core.specs.States.{vector};
ghost use Rattle.task_core.specs.Tasks.{fluent_count};
ghost use Rattle.plan_certs.specs.Certificates.{holds_state, is_no_way_out, some_holds};
ghost use Rattle.plan_certs.specs.Named.{AreSetsOf, IsCertificateOf, IsSetOf, plain_certificate, set_of};

use crate::certificates::{Certificate, StateSet};
use plan_rules::has_all;
use task_core::{Class, State, Task};

/// Whether the set holds the state: whether some of its cubes matches.
pub fn set_holds(task: &Task, set: &StateSet, state: &State) -> bool
    requires { IsSetOf (fluent_count task.now) (set_of set.now) }
    ensures { result ≡ holds_state (set_of set.now) (vector (fluent_count task.now) state.now) }
{
    for cube in &set.cubes {
        if has_all(task, cube, state) {
            return true;
        }
    }
    false
}

/// Whether some of the sets holds the state.
pub fn some_set_holds(task: &Task, sets: &[StateSet], state: &State) -> bool
    requires { AreSetsOf (fluent_count task.now) (map set_of sets.now) }
    ensures { result
        ≡ some_holds (map set_of sets.now) (vector (fluent_count task.now) state.now) }
{
    for set in sets {
        if set_holds(task, set, state) {
            return true;
        }
    }
    false
}

// Whether the sets hold one of the states between them.
fn hold_some(task: &Task, sets: &[StateSet], states: &[State]) -> bool
    requires { AreSetsOf (fluent_count task.now) (map set_of sets.now) }
    ensures { result ≡ list_any (some_holds (map set_of sets.now))
        (map (vector (fluent_count task.now)) states.now) }
{
    for state in states {
        if some_set_holds(task, sets, state) {
            return true;
        }
    }
    false
}

// Whether the sets hold all of the states between them.
fn hold_each(task: &Task, sets: &[StateSet], states: &[State]) -> bool
    requires { AreSetsOf (fluent_count task.now) (map set_of sets.now) }
    ensures { result ≡ list_all (some_holds (map set_of sets.now))
        (map (vector (fluent_count task.now)) states.now) }
{
    for state in states {
        if !some_set_holds(task, sets, state) {
            return false;
        }
    }
    true
}

/// Whether an action that leads to these states is no way out of the set of this number, counted
/// from 0.
pub fn is_no_way_out(task: &Task, certificate: &Certificate, number: usize, next: &[State]) -> bool
    requires in_task { IsCertificateOf (fluent_count task.now) certificate.now }
    requires set { number < length certificate.now.sets.items }
    ensures { result ≡ is_no_way_out certificate.now.class (plain_certificate certificate.now).sets number
        (map (vector (fluent_count task.now)) next.now) }
{
    let sets = certificate.sets.as_slice();
    match certificate.class {
        Class::Weak => hold_each(task, &sets[number..number + 1], next),
        Class::Strong => hold_some(task, &sets[number..number + 1], next),
        Class::Cyclic => {
            hold_some(task, &sets[..number], next) || hold_each(task, &sets[..number + 1], next)
        }
    }
}
