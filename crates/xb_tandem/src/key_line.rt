// The key that a text line says.
ghost use Rattle.std.specs.Prelude.{◌≡◌, IfErr, IfOk, Ok, option_and_then};
ghost use Rattle.serde_json.specs.Find.{as_str, get};
ghost use Rattle.serde_json.specs.View.{view};
ghost use Rattle.xb_tandem.specs.KeyLines.{IsFaultOfLine, digit_named, key_at, key_in, key_of_line, symbol_of_name, timed, whole_in};

use crate::fault::LineFault;
use crate::lines::MOST_LINE_BYTES;
use serde_json::Value;
use std::alloc::Global;
use xb_incoming::{Symbol, TimedKey};
use xb_model::Digit;

// The digit of a name of one character.
fn digit_named(name: &str) -> Option<Symbol>
    ensures { result ≡ digit_named name.now }
{
    match name.as_bytes() {
        [byte] => match Digit::from_ascii(*byte) {
            Some(digit) => Some(Symbol::Digit(digit)),
            None => None,
        },
        _ => None,
    }
}

// What the key of a name is to a register.
fn symbol_of_name(name: &str) -> Option<Symbol>
    ensures { result ≡ symbol_of_name name.now }
{
    match name {
        "KP" => Some(Symbol::Kp),
        "ST" => Some(Symbol::St),
        "ST'" => Some(Symbol::Other),
        "KP2/ST''" => Some(Symbol::Other),
        "ST'''" => Some(Symbol::Other),
        _ => digit_named(name),
    }
}

// A key that begins and lasts so long, in ms.
fn key_at(what: Symbol, begin_ms: u64, length_ms: u64) -> TimedKey
    ensures { result ≡ key_at what begin_ms length_ms }
{
    TimedKey {
        what,
        begin_ms,
        end_ms: begin_ms.saturating_add(length_ms),
    }
}

// The member of an object that is a whole number of 64 bits.
fn whole_in(object: &Value, name: &str) -> Option<u64>
    ensures { result ≡ whole_in name.now (view object.now) }
{
    object.get(name)?.as_u64()
}

// A key with the times that its object says.
fn timed(what: Symbol, object: &Value) -> Result<Option<TimedKey>, LineFault>
    ensures { result ≡ timed what (view object.now) }
{
    let Some(begin) = whole_in(object, "at_ms") else {
        return Err(LineFault::NoTimes);
    };
    let Some(length) = whole_in(object, "length_ms") else {
        return Err(LineFault::NoTimes);
    };
    Ok(Some(key_at(what, begin, length)))
}

// What the value of a member `key` is to a register.
fn symbol_of(value: &Value) -> Option<Symbol>
    ensures { result ≡ option_and_then symbol_of_name (as_str (view value.now)) }
{
    symbol_of_name(value.as_str()?)
}

// The key that a value says: of an object without a key none.
fn key_in(value: &Value) -> Result<Option<TimedKey>, LineFault>
    ensures { result ≡ key_in (view value.now) }
{
    if !value.is_object() {
        return Err(LineFault::NoObject);
    }
    let Some(name) = value.get("key") else {
        return Ok(None);
    };
    let Some(what) = symbol_of(name) else {
        return Err(LineFault::NoName);
    };
    timed(what, value)
}

/// The key that a text line says, as `mfrx --json` writes it. Of another object it is `None`.
pub(crate) fn key_of_line(alloc: Global, line: &[u8]) -> Result<Option<TimedKey>, LineFault>
    ensures key { IfOk result (λ key. key_of_line line.now ≡ Ok key) }
    ensures fault { IfErr result (IsFaultOfLine line.now) }
{
    if line.len() > MOST_LINE_BYTES {
        return Err(LineFault::TooLong);
    }
    let value = match Value::from_slice(alloc, line) {
        Ok(value) => value,
        Err(error) if error.is_memory() => return Err(LineFault::NoMemory),
        Err(_) => return Err(LineFault::NoObject),
    };
    key_in(&value)
}
