// Times in JSON objects.
ghost use Rattle.std.specs.Prelude.{◌≡◌, IfOk};
ghost use Rattle.serde_json.specs.View.{view};
ghost use Rattle.xb_clock.specs.Clocks.{text_in};
ghost use Rattle.xb_clock.specs.Objects.{with_text, with_time};

use crate::times::TimeText;
use serde_json::Value;
use std::alloc::{AllocError, Global};

// An object that also has a text under a name.
fn with_text(alloc: Global, object: Value, name: &str, text: &str) -> Result<Value, AllocError>
    ensures { IfOk result (λ value. view value ≡ with_text name.now text.now (view object)) }
{
    match object {
        Value::Object(mut members) => {
            let name = String::from_str(alloc, name)?;
            let text = String::from_str(alloc, text)?;
            members.insert(name, Value::String(text))?;
            Ok(Value::Object(members))
        }
        other => Ok(other),
    }
}

/// An object that also has this time under a name, if it is one. `Err` says that memory ran out.
pub fn with_time(
    alloc: Global,
    object: Value,
    name: &str,
    time: &Option<TimeText>,
) -> Result<Value, AllocError>
    ensures { IfOk result (λ value. view value ≡ with_time name.now (text_in time.now) (view object)) }
{
    match time {
        None => Ok(object),
        Some(text) => with_text(alloc, object, name, text.as_str()),
    }
}
