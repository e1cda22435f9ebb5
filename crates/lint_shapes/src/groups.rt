//! The groups of a task.

ghost use Rattle.std.specs.Prelude.{◌≡◌, IfOk, IfSome, OnOk};
ghost use Rattle.mutex_groups.specs.Groups.{AreInductive, IsInductive};
ghost use Rattle.task_core.specs.States.{IsWithin, truth};
ghost use Rattle.task_core.specs.Tasks.{fluent_count};
ghost use Rattle.lint_shapes.specs.Found.{AreFound};

use crate::bindings::{bindings, constants_of, members_of};
use crate::covers::add_covers;
use crate::effort::{Effort, member_count};
use crate::shapes::{OneOf, Shape};
use crate::signatures::{Signature, signatures};
use crate::singles::single;
use crate::told::is_told;
use crate::world::{World, constant_atoms, fluent_atoms};
use mutex_groups::is_one_of;
use pddl_ast::{Domain, ObjectId, Problem};
use std::alloc::{AllocError, Global};
use task_core::{State, Task};

/// What is found so far, and how much may still be judged.
#[derive(Drop)]
pub(crate) struct Search {
    pub(crate) found: Vec<OneOf>,
    pub(crate) effort: Effort,
}

/// Shapes of groups, and their groups in the task: exactly one fluent of each is true at the start,
/// and no outcome of an action changes that. There may be more than these. The task is that of the
/// domain and the problem.
pub fn find_groups(
    alloc: Global,
    domain: &Domain,
    problem: &Problem,
    task: &Task,
) -> Result<Vec<OneOf>, AllocError>
    ensures { IfOk result (λ found. AreFound task.now found.items) }
{
    let fluents = fluent_atoms(alloc, domain, problem, task)?;
    let constants = constant_atoms(alloc, problem, &fluents)?;
    let world = World {
        alloc,
        domain,
        problem,
        task,
        fluents: &fluents,
        constants: &constants,
    };
    found_in(&world)
}

/// The shapes and groups that are found.
fn found_in(world: &World<'_>) -> Result<Vec<OneOf>, AllocError>
    ensures { IfOk result (λ found. AreFound world.now.task.now found.items) }
{
    let signatures = signatures(world)?;
    let mut search = Search {
        found: Vec::new(world.alloc),
        effort: Effort::for_task(world.task),
    };
    add_singles(world, &signatures, &mut search)?;
    add_covers(world, &signatures, &mut search)?;
    Ok(search.found)
}

/// Adds the shapes of one part, those of the wider types first.
fn add_singles(
    world: &World<'_>,
    signatures: &[Signature],
    search: &mut Search,
) -> Result<(), AllocError>
    requires { AreFound world.now.task.now search.old.found.items }
    ensures { OnOk result (AreFound world.now.task.now search.new.found.items) }
{
    for signature in signatures.iter().rev() {
        add_single(world, signature, search)?;
    }
    Ok(())
}

fn add_single(
    world: &World<'_>,
    signature: &Signature,
    search: &mut Search,
) -> Result<(), AllocError>
    requires { AreFound world.now.task.now search.old.found.items }
    ensures { OnOk result (AreFound world.now.task.now search.new.found.items) }
{
    for counted in 0..signature.types.len() {
        let shape = single(world.alloc, signature, counted)?;
        add_shape(world, shape, search)?;
    }
    Ok(())
}

/// Adds a shape, if it has groups, and none of them has one that is found already.
pub(crate) fn add_shape(
    world: &World<'_>,
    shape: Shape,
    search: &mut Search,
) -> Result<(), AllocError>
    requires { AreFound world.now.task.now search.old.found.items }
    ensures { OnOk result (AreFound world.now.task.now search.new.found.items) }
{
    let Some(chosen) = bindings(world, &shape.free)? else {
        return Ok(());
    };
    match groups_of(world, &shape, &chosen, search)? {
        Some(groups) => {
            search.found.push(OneOf { shape, groups })?;
            Ok(())
        }
        None => Ok(()),
    }
}

/// The groups of a shape that these bindings choose; `None` where one of them isn't judged to have
/// exactly one true member, or has a group that is found already, or none has two members.
fn groups_of(
    world: &World<'_>,
    shape: &Shape,
    chosen: &[Vec<ObjectId>],
    search: &mut Search,
) -> Result<Option<Vec<State>>, AllocError>
    ensures groups { IfOk result (λ found.
        IfSome found (λ groups. AreInductive world.now.task.now groups.items)) }
    ensures kept { search.new.found ≡ search.old.found }
{
    let mut groups = Vec::new(world.alloc);
    for binding in chosen {
        if !add_group(world, shape, binding, search, &mut groups)? {
            return Ok(None);
        }
    }
    if has_wide(&groups) {
        Ok(Some(groups))
    } else {
        Ok(None)
    }
}

/// Adds the group that a binding chooses, unless all of its atoms are constant. False where it isn't
/// judged to have exactly one true member, or has a group that is found already.
fn add_group(
    world: &World<'_>,
    shape: &Shape,
    binding: &[ObjectId],
    search: &mut Search,
    groups: &mut Vec<State>,
) -> Result<bool, AllocError>
    requires { AreInductive world.now.task.now groups.old.items }
    ensures groups { OnOk result (AreInductive world.now.task.now groups.new.items) }
    ensures kept { search.new.found ≡ search.old.found }
{
    let members = members_of(world, shape, binding);
    let constants = constants_of(world, shape, binding);
    match kind_of(world, &members, constants, search) {
        Kind::Settled => Ok(true),
        Kind::Group => {
            groups.push(members)?;
            Ok(true)
        }
        Kind::Neither => Ok(false),
    }
}

/// What the atoms of a binding are.
#[derive(Clone, Copy)]
enum Kind {
    /// All of them are constant, and exactly one is true.
    Settled,
    /// None of them is constant and true, and exactly one fluent is true in every reachable state.
    Group,
    /// It isn't known, or told already.
    Neither,
}

/// What the atoms of a binding are, of which these are fluents, and so many are constant and true.
fn kind_of(world: &World<'_>, members: &State, constants: usize, search: &mut Search) -> Kind
    requires { IsWithin (fluent_count world.now.task.now) members.now }
    ensures group { result ≡ Kind.Group → IsInductive world.now.task.now (truth members.now) }
    ensures kept { search.new.found ≡ search.old.found }
{
    let count = member_count(members);
    if count == 0 && constants == 1 {
        return Kind::Settled;
    }
    if count == 0 || constants != 0 || is_told(members, &search.found) {
        return Kind::Neither;
    }
    if search.effort.covers(members) && is_one_of(world.task, members) {
        Kind::Group
    } else {
        Kind::Neither
    }
}

/// Whether one of the groups has two members.
fn has_wide(groups: &[State]) -> bool {
    for members in groups {
        if member_count(members) > 1 {
            return true;
        }
    }
    false
}
