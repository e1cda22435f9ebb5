//! The actions of instances.

ghost use Rattle.std.specs.Prelude.{◌≡◌, Some, IsSome};
ghost use Rattle.ground_instances.specs.Kept.{instance_of};
ghost use Rattle.ground_task.specs.Numbered.{instance_with};
ghost use Rattle.pddl_ast.specs.Values.{domain_value, schema_value};

use ground_instances::Instance;
use pddl_ast::{Domain, Schema};

/// The action that an instance is of.
pub(crate) fn schema_of<'a>(domain: &'a Domain, instance: &Instance) -> &'a Schema
    requires { IsSome (instance_of (domain_value domain.now) instance.now) }
    ensures { instance_of (domain_value domain.now) instance.now
        ≡ Some (instance_with (schema_value result.now) instance.now) }
{
    &domain.actions[instance.action]
}
