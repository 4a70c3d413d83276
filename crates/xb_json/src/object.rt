// An object of its members.
ghost use Rattle.std.specs.Prelude.{◌≡◌, IfOk};
ghost use Rattle.serde_json.specs.View.{view};
ghost use Rattle.xb_json.specs.Objects.{data_of, object_of};

use crate::keys::{keys_of, text_of_digits};
use serde_json::{Map, Value, put};
use std::alloc::{AllocError, Global};
use xb_model::Digit;

/// What a member of an object is.
#[derive(Clone, Copy)]
pub enum Member<'a> {
    /// `null`
    Null,
    /// `true` or `false`
    Bool(bool),
    /// A whole number of 0 or more.
    Number(u64),
    /// A whole number, below 0 too.
    Signed(i64),
    /// A word that the program itself says.
    Word(&'static str),
    /// A text.
    Text(&'a str),
    /// Digits, as a text.
    Digits(&'a [Digit]),
    /// The keys of the keying of these digits, as texts.
    Keys(&'a [Digit]),
    /// A copy of this value.
    Value(&'a Value),
}

// The value of a member.
fn value_of(alloc: Global, member: Member<'_>) -> Result<Value, AllocError>
    ensures { IfOk result (λ value. view value ≡ data_of member.entry) }
{
    match member {
        Member::Null => Ok(Value::Null),
        Member::Bool(is_true) => Ok(Value::from(is_true)),
        Member::Number(number) => Ok(Value::from(number)),
        Member::Signed(number) => Ok(Value::from(number)),
        Member::Word(word) => Value::try_from_str(alloc, word),
        Member::Text(text) => Value::try_from_str(alloc, text),
        Member::Digits(digits) => Ok(Value::from(text_of_digits(alloc, digits)?)),
        Member::Keys(digits) => keys_of(alloc, digits),
        Member::Value(value) => value.clone(),
    }
}

/// The object of these members, each by its name; of two of one name it has the later. `Err` says that memory
/// ran out.
///
/// `json!` would return early at each member, and whoever calls it then ends all that it owns at each: a proof
/// of ten members takes a minute that way, and some seconds by this call.
pub fn object_of(alloc: Global, members: &[(&str, Member<'_>)]) -> Result<Value, AllocError>
    ensures { IfOk result (λ value. view value ≡ object_of members.now) }
{
    let mut map = Map::new(alloc);
    for (name, member) in members {
        put(&mut map, alloc, name, value_of(alloc, *member)?)?;
    }
    Ok(Value::Object(map))
}
