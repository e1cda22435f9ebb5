//! The objects of each type.

ghost use Rattle.std.specs.Prelude.{◌≡◌, ℕ, ◌<◌, ◌≤◌, List, [], ◌∷◌, ◌++◌, ◌⊎◌, All};
ghost use Rattle.std.specs.Prelude.{if◌then◌else◌, length, map, IfOk, OnOk, slice_index};
ghost use Rattle.ground_instances.specs.Entering.{AreBelow, entered, list_of, shared_lists};
ghost use Rattle.ground_instances.specs.Entering.{types_of};
ghost use Rattle.ground_instances.specs.Tables.{objects_at};
ghost use Rattle.pddl_ast.specs.Fits.{FitsDomain, FitsProblem};
ghost use Rattle.pddl_ast.specs.Values.{domain_value, problem_value};
ghost use Rattle.pddl_system.specs.Objects.{all_objects, is_kind_of, objects_of_type};

use crate::groups::groups_of;
use pddl_ast::{Domain, ObjectId, Problem, TypeId};
use std::alloc::{AllocError, Global};

/// The objects of each type, in lists that types with the same objects share.
#[derive(Drop)]
pub struct ObjectLists {
    /// For each type the number of its list.
    pub places: Vec<TypeId>,
    /// The lists.
    pub lists: Vec<Vec<ObjectId>>,
}

impl ObjectLists {
    /// The objects of a type.
    pub fn of(&self, type_id: TypeId) -> &[ObjectId]
        ensures { result.now
            ≡ objects_at (shared_lists self.now.places.items self.now.lists.items) type_id }
    {
        match self.places.get(type_id) {
            Some(place) => list_at(&self.lists, *place),
            None => &[],
        }
    }
}

/// The list with a number.
fn list_at(lists: &[Vec<ObjectId>], place: usize) -> &[ObjectId]
    ensures { result.now ≡ list_of lists.now place }
{
    match lists.get(place) {
        Some(list) => list,
        None => &[],
    }
}

/// The objects of each type.
pub fn objects_by_type(
    alloc: Global,
    domain: &Domain,
    problem: &Problem,
) -> Result<ObjectLists, AllocError>
    requires fits_domain { FitsDomain (domain_value domain.now) }
    requires fits_problem { FitsProblem (domain_value domain.now) (problem_value problem.now) }
    ensures { IfOk result (λ all. (t : ℕ) → objects_at (shared_lists all.places.items
        all.lists.items) t ≡ objects_of_type domain.now.parents.items
        (all_objects (domain_value domain.now) (problem_value problem.now)) t) }
{
    let types = object_types(alloc, domain, problem)?;
    let groups = groups_of(alloc, domain.parents.as_slice(), &types)?;
    let lists = lists_by_top(alloc, &groups.tops, &groups.parents, &types)?;
    Ok(ObjectLists {
        places: groups.tops,
        lists,
    })
}

/// The type of each constant and object.
fn object_types(
    alloc: Global,
    domain: &Domain,
    problem: &Problem,
) -> Result<Vec<TypeId>, AllocError>
    ensures { IfOk result (λ types. types.items
        ≡ types_of (all_objects (domain_value domain.now) (problem_value problem.now))) }
{
    let mut types = Vec::new(alloc);
    for constant in &domain.constants {
        types.push(constant.type_id)?;
    }
    for object in &problem.objects {
        types.push(object.type_id)?;
    }
    Ok(types)
}

/// A list for each type, in which those of the topmost types of groups have their objects. The
/// objects have the given types.
fn lists_by_top(
    alloc: Global,
    tops: &[TypeId],
    parents: &[TypeId],
    types: &[TypeId],
) -> Result<Vec<Vec<ObjectId>>, AllocError>
    requires all_tops { length tops.now ≡ length parents.now }
    requires tops { All (λ t. t < length parents.now) tops.now }
    requires parents { All (λ t. t < length parents.now) parents.now }
    requires types { All (λ t. t < length parents.now) types.now }
    ensures { IfOk result (λ lists. (t : ℕ) → t < length parents.now → list_of lists.items t
        ≡ entered parents.now (map (slice_index tops.now) types.now) 0 t) }
{
    let mut lists = Vec::new(alloc);
    for _ in parents {
        lists.push(Vec::new(alloc))?;
    }
    enter_all(&mut lists, tops, parents, types)?;
    Ok(lists)
}

/// Enters the objects of these types into the lists of the topmost types of their types' groups and
/// of all ancestors of these.
fn enter_all(
    lists: &mut Vec<Vec<ObjectId>>,
    tops: &[TypeId],
    parents: &[TypeId],
    types: &[TypeId],
) -> Result<(), AllocError>
    requires lists { length lists.old.items ≡ length parents.now }
    requires all_tops { length tops.now ≡ length parents.now }
    requires tops { All (λ t. t < length parents.now) tops.now }
    requires parents { All (λ t. t < length parents.now) parents.now }
    requires types { All (λ t. t < length parents.now) types.now }
    requires below { AreBelow 0 lists.old.items }
    ensures { OnOk result ((t : ℕ) → t < length parents.now → list_of lists.new.items t
        ≡ list_of lists.old.items t
        ++ entered parents.now (map (slice_index tops.now) types.now) 0 t) }
{
    for (object, type_id) in types.iter().enumerate() {
        enter(lists, parents, object, tops[*type_id])?;
    }
    Ok(())
}

/// Enters an object into the lists of a type and of all its ancestors. All objects there have
/// smaller numbers.
fn enter(
    lists: &mut Vec<Vec<ObjectId>>,
    parents: &[TypeId],
    object: ObjectId,
    type_id: TypeId,
) -> Result<(), AllocError>
    requires lists { length lists.old.items ≡ length parents.now }
    requires parents { All (λ t. t < length parents.now) parents.now }
    requires type_id { type_id < length parents.now }
    requires below { AreBelow object lists.old.items }
    ensures lists { OnOk result (length lists.new.items ≡ length lists.old.items) }
    ensures entered { OnOk result ((t : ℕ) → t < length parents.now → list_of lists.new.items t
        ≡ list_of lists.old.items t
        ++ (if is_kind_of parents.now type_id t then object ∷ [] else [])) }
{
    let mut kind = type_id;
    push_once(&mut lists[kind], object)?;
    for _ in 0..parents.len() {
        let parent = parents[kind];
        if parent == kind {
            return Ok(());
        }
        kind = parent;
        push_once(&mut lists[kind], object)?;
    }
    Ok(())
}

/// Appends an object to a list unless it is its last.
fn push_once(list: &mut Vec<ObjectId>, object: ObjectId) -> Result<(), AllocError>
    ensures { OnOk result ((before : List ℕ) → All (λ o. o < object) before
        → (list.old.items ≡ before) ⊎ (list.old.items ≡ before ++ object ∷ [])
        → list.new.items ≡ before ++ object ∷ []) }
{
    match list.last() {
        Some(last) if *last == object => Ok(()),
        _ => Ok(list.push(object)?),
    }
}
