//! What the words of both files mean.

ghost use Rattle.lint_mistakes.specs.Vocabularies.{
  is_kind,
  object_type as type_of_object,
  reaches,
  type_among as among,
  type_number as number_of_type,
};
ghost use Rattle.lint_mistakes.specs.Values.{vocabulary_value};
ghost use Rattle.pddl_ast.specs.Known.{number_in as number_of};
ghost use Rattle.std.specs.Prelude.{◌≡◌, slice_index};
ghost use Rattle.std.specs.Str.{bytes_eq};

use pddl_ast::{Named, TypeId};
use sexpr_text::{Form, Text};
use std::alloc::Global;

/// The types with their parents, the constants and the objects with their types, and the declared
/// predicates.
#[derive(Clone, Copy)]
pub(crate) struct Vocabulary<'a> {
    pub(crate) alloc: Global,
    pub(crate) types: &'a [Text],
    pub(crate) parents: &'a [TypeId],
    pub(crate) constants: &'a [Named],
    pub(crate) objects: &'a [Named],
    /// The forms after the word `:predicates`.
    pub(crate) predicates: &'a [Form],
}

impl Vocabulary<'_> {
    /// The number of a type; 0, which is `object`, where there is none of this name.
    pub(crate) fn type_number(&self, name: &Text) -> TypeId
        ensures { result ≡ number_of_type (vocabulary_value self.now) name.now }
    {
        number_in(self.types, name).unwrap_or(0)
    }

    pub(crate) fn object_type(&self, name: &Text) -> Option<TypeId>
        ensures { result ≡ type_of_object (vocabulary_value self.now) name.now }
    {
        match type_among(self.constants, name) {
            Some(type_id) => Some(type_id),
            None => type_among(self.objects, name),
        }
    }

    /// Whether the first type is the second, or has it among its ancestors.
    pub(crate) fn is_kind_of(&self, type_id: TypeId, other: TypeId) -> bool
        ensures { result ≡ is_kind (vocabulary_value self.now) type_id other }
    {
        is_under(self.parents, type_id, other)
    }
}

/// The number of a name among others.
fn number_in(names: &[Text], name: &Text) -> Option<usize>
    ensures { result ≡ number_of names.now name.now }
{
    names.iter().position(|other| is_same(name, other))
}

fn is_same(text: &Text, other: &Text) -> bool
    ensures { result ≡ bytes_eq text.now other.now }
{
    text.is(other.as_bytes())
}

/// The type of the first of some constants or objects that has this name.
fn type_among(objects: &[Named], name: &Text) -> Option<TypeId>
    ensures { result ≡ among objects.now name.now }
{
    for object in objects {
        if is_same(&object.name, name) {
            return Some(object.type_id);
        }
    }
    None
}

/// Whether the first type is the second, or has it among its ancestors.
#[tactic(auto, using(crate::proofs::Reaching::reach_here, crate::proofs::Reaching::reach_on))]
fn is_under(parents: &[TypeId], type_id: TypeId, other: TypeId) -> bool
    ensures { result ≡ reaches parents.now parents.now type_id other }
{
    let mut ancestor = type_id;
    for _ in parents {
        if ancestor == other {
            return true;
        }
        ancestor = parent_of(parents, ancestor);
    }
    ancestor == other
}

fn parent_of(parents: &[TypeId], type_id: TypeId) -> TypeId
    ensures { result ≡ slice_index parents.now type_id }
{
    parents.get(type_id).copied().unwrap_or(0)
}
