// A value as a text line.
ghost use Rattle.std.specs.Prelude.{◌≡◌, ◌++◌, IfOk, codes, false, string_bytes};
ghost use Rattle.serde_json.specs.View.{view};
ghost use Rattle.serde_json.specs.Written.{compact_text, has_float};
ghost use Rattle.xb_json.specs.Lines.{IsReadBack};

use serde_json::Value;
use std::alloc::{AllocError, Global};

/// A value as one text line. `Err` says that memory ran out.
pub fn line_of(alloc: Global, value: &Value) -> Result<String, AllocError>
    ensures text { IfOk result (λ line. has_float (view value.now) ≡ false →
        string_bytes line ≡ compact_text (view value.now) ++ codes "\n") }
    ensures reads_back { IfOk result (λ line. IsReadBack (string_bytes line) (view value.now)) }
{
    let mut line = value.to_string(alloc)?;
    line.push('\n')?;
    Ok(line)
}
