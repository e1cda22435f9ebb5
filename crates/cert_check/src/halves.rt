//! The states of a set, with its cubes put together by halves.

ghost use Rattle.std.specs.Prelude.{◌≡◌, [], ◌∷◌, ◌<◌, IsTrue, map};
ghost use Rattle.std.specs.List.{list_any};
ghost use Rattle.dd_nodes.specs.Subfunctions.{Function};
ghost use Rattle.dd_ops.specs.Operations.{and_of};
ghost use Rattle.dd_sets.specs.Frames.{Owns, OwnsAnswer};
ghost use Rattle.dd_sets.specs.LiveSets.{IsLive, IsSets, LiveSets, set_of};
ghost use Rattle.encode_task.specs.Made.{MadeOf};
ghost use Rattle.encode_task.specs.TaskSets.{cube_set};
ghost use Rattle.plan_certs.specs.Named.{IsSetOf, cube_of, set_of as cubes_in};
ghost use Rattle.plan_rules.specs.Plans.{IsCubeOf};
ghost use Rattle.preimage.specs.Preimages.{OfSomeTask};
ghost use Rattle.task_core.specs.Tasks.{fluent_count};
ghost use Rattle.task_core.specs.declared.tasks.Task.{Task as TaskOf};
ghost use Rattle.cert_check.specs.Sets.{literal_set, some_cube, states_in};

use dd_sets::{SetErr, SetId, Sets};
use encode_task::Enc;
use plan_certs::StateSet;
use task_core::Lit;

/// The lists of a set in which a literal is true, in the place of its slot.
fn with_literal(sets: &mut Sets, a: SetId, lit: Lit) -> Result<SetId, SetErr>
    requires live { IsLive sets.old a.0 }
    requires fluent { lit.fluent.0 < sets.old.vars }
    ensures { (before : LiveSets) (f : Function) → Owns before sets.old ((a.0, f) ∷ [])
        → OwnsAnswer before sets.new (and_of f (literal_set lit)) result }
{
    let fluent = sets.of_fluent(lit.fluent);
    if lit.positive {
        sets.in_both(a, fluent)
    } else {
        sets.without(a, fluent)
    }
}

/// The lists that a cube matches, in a new slot.
fn lists_of_cube(sets: &mut Sets, cube: &[Lit]) -> Result<SetId, SetErr>
    requires { IsCubeOf sets.old.vars cube.now }
    ensures { OwnsAnswer sets.old sets.new (cube_set cube.now) result }
{
    let mut all = sets.whole()?;
    for lit in cube {
        all = with_literal(sets, all, *lit)?;
    }
    Ok(all)
}

/// The lists that some of some cubes matches, in a new slot.
fn lists_of(sets: &mut Sets, cubes: &[Vec<Lit>]) -> Result<SetId, SetErr>
    requires { IsSetOf sets.old.vars (map cube_of cubes.now) }
    ensures { OwnsAnswer sets.old sets.new (some_cube (map cube_of cubes.now)) result }
{
    if cubes.is_empty() {
        return sets.none();
    }
    if cubes.len() == 1 {
        return lists_of_cube(sets, &cubes[0]);
    }
    let (front, back) = cubes.split_at(cubes.len() / 2);
    let first = lists_of(sets, front)?;
    let rest = lists_of(sets, back);
    sets.in_some(first, rest)
}

/// The lists of a set that are in another one, in the place of its slot.
fn part_in(sets: &mut Sets, a: SetId, space: SetId) -> Result<SetId, SetErr>
    requires a_live { IsLive sets.old a.0 }
    requires space_live { IsLive sets.old space.0 }
    ensures { (before : LiveSets) (f : Function) → Owns before sets.old ((a.0, f) ∷ [])
        → OwnsAnswer before sets.new (and_of f (set_of sets.old space.0)) result }
{
    let part = sets.meet(a, space);
    sets.release(a);
    part
}

/// The lists of another set that some of some cubes matches, in a new slot.
fn lists_in(sets: &mut Sets, cubes: &[Vec<Lit>], space: SetId) -> Result<SetId, SetErr>
    requires space_live { IsLive sets.old space.0 }
    requires in_task { IsSetOf sets.old.vars (map cube_of cubes.now) }
    ensures { OwnsAnswer sets.old sets.new
        (and_of (some_cube (map cube_of cubes.now)) (set_of sets.old space.0)) result }
{
    let lists = lists_of(sets, cubes)?;
    part_in(sets, lists, space)
}

/// The states that some cube of a set matches, in a new slot. Unlike the steps of `programs` it says
/// nothing of how many nodes that takes.
pub(crate) fn states_of(enc: &mut Enc, set: &StateSet) -> Result<SetId, SetErr>
    requires made { OfSomeTask enc.old }
    requires in_task { IsSetOf enc.old.sets.vars (cubes_in set.now) }
    ensures answer { (task : TaskOf) → MadeOf task enc.old → OwnsAnswer enc.old.sets enc.new.sets
        (states_in task (cubes_in set.now)) result }
    ensures same_slots { enc.new ≡ record enc.old { sets = enc.new.sets } }
    ensures sound { IsSets enc.new.sets }
{
    let space = enc.space();
    let states = lists_in(enc.sets_mut(), &set.cubes, space);
    enc.sets().sound();
    states
}
