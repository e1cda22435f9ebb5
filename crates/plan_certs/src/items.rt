//! One form after another in a row.

ghost use Rattle.std.specs.Prelude.{◌≡◌};
ghost use Rattle.std.specs.Option.{option_map};
ghost use Rattle.sexpr_text.specs.Forest.{forest_of};
ghost use Rattle.sexpr_text.specs.Parts.{after_first};
ghost use Rattle.plan_rules.specs.Items.{first_item, item_of, item_span};
ghost use Rattle.plan_rules.specs.Readings.{class_named};
ghost use Rattle.plan_certs.specs.Readings.{has_sets, is_single};

use sexpr_text::{Form, Head, head_of, is_nothing};
use task_core::Class;

// Whether there is one form alone.
fn is_single(row: &[Form]) -> bool
    ensures { result ≡ is_single (forest_of row.now) }
{
    match head_of(row) {
        Head::Nothing => false,
        Head::Word(_, _, rest) => is_nothing(rest),
        Head::Group(_, _, rest) => is_nothing(rest),
    }
}

/// Whether a certificate of the class may have these forms after its class word: exactly one, or
/// one at least where it is a cyclic one.
pub(crate) fn has_sets(class: Class, row: &[Form]) -> bool
    ensures { result ≡ has_sets class (forest_of row.now) }
{
    match class {
        Class::Weak => is_single(row),
        Class::Strong => is_single(row),
        Class::Cyclic => !is_nothing(row),
    }
}
