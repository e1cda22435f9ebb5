//! The variables of a quantifier or of a `forall`.

use ground_instances::Setting;
use pddl_ast::TypeId;

/// All bindings of variables of these types to the objects of a setting.
#[derive(Clone, Copy)]
pub(crate) struct Bindings<'s, 't> {
    pub(crate) setting: &'s Setting,
    pub(crate) types: &'t [TypeId],
}
