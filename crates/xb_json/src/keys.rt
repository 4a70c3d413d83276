// The digits and the keys of a call as JSON.
ghost use Rattle.std.specs.Prelude.{◌≡◌, IfOk, string_bytes};
ghost use Rattle.serde_json.specs.Data.{array};
ghost use Rattle.serde_json.specs.View.{items_of, view};
ghost use Rattle.xb_json.specs.Keys.{digits_text, keys_of};

use serde_json::Value;
use std::alloc::{AllocError, Global};
use xb_model::{Digit, Key};

/// Digits, one after the other. `Err` says that memory ran out.
pub fn text_of_digits(alloc: Global, digits: &[Digit]) -> Result<String, AllocError>
    ensures { IfOk result (λ text. string_bytes text ≡ digits_text digits.now) }
{
    let mut text = String::new(alloc);
    for digit in digits {
        text.push_str(digit.name())?;
    }
    Ok(text)
}

/// The keys of the keying of these digits, by the page's names: `KP`, each digit, `ST`. `Err` says that
/// memory ran out.
pub fn keys_of(alloc: Global, digits: &[Digit]) -> Result<Value, AllocError>
    ensures { IfOk result (λ keys. view keys ≡ array (items_of (keys_of digits.now))) }
{
    let mut keys = Vec::new(alloc);
    keys.push(Value::try_from_str(alloc, Key::Kp.name())?)?;
    for digit in digits {
        keys.push(Value::try_from_str(alloc, digit.name())?)?;
    }
    keys.push(Value::try_from_str(alloc, Key::St.name())?)?;
    Ok(Value::from(keys))
}
