//! Types of objects.

use pddl_ast::TypeId;

/// Whether the first type is the second, or has it among its ancestors.
pub(crate) fn is_under(parents: &[TypeId], type_id: TypeId, other: TypeId) -> bool {
    let mut ancestor = type_id;
    for _ in parents {
        if ancestor == other {
            return true;
        }
        ancestor = parent_of(parents, ancestor);
    }
    ancestor == other
}

fn parent_of(parents: &[TypeId], type_id: TypeId) -> TypeId {
    parents.get(type_id).copied().unwrap_or(0)
}

/// The nearest type that both types are under; `object` where there is none.
pub(crate) fn joined(parents: &[TypeId], type_id: TypeId, other: TypeId) -> TypeId {
    let mut ancestor = type_id;
    for _ in parents {
        if is_under(parents, other, ancestor) {
            return ancestor;
        }
        ancestor = parent_of(parents, ancestor);
    }
    0
}
