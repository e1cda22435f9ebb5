//! Numbers as JSON, and the text of a value.

ghost use Rattle.plan_document.specs.Data.{count_data};
ghost use Rattle.plan_rules.specs.Texts.{line_feed};
ghost use Rattle.serde_json.specs.View.{view};
ghost use Rattle.serde_json.specs.Written.{compact_text, has_float};
ghost use Rattle.std.specs.Prelude.{◌≡◌, ◌++◌, IfOk, false};

use serde_json::Value;
use std::alloc::{AllocError, Global};

/// A number.
pub fn count_value(count: u32) -> Value
    ensures { view result ≡ count_data count }
{
    Value::from(u64::from(count))
}

/// The text of a value, with a line feed at its end.
pub fn value_text(alloc: Global, value: &Value) -> Result<Vec<u8>, AllocError>
    ensures { has_float (view value.now) ≡ false
        → IfOk result (λ text. text.items ≡ compact_text (view value.now) ++ line_feed) }
{
    let mut text = value.to_string(alloc)?;
    text.push('\n')?;
    Ok(text.into_bytes())
}
