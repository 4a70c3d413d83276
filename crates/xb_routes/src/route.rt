// Routes.
ghost use Rattle.std.specs.Prelude.{◌≡◌, ◌==◌, ◌&&◌, Some, length};
ghost use Rattle.std.specs.Result.{result_map_both};
ghost use Rattle.toml.specs.View.{view};
ghost use Rattle.xb_routes.specs.Keys.{keys_in, keys_of};
ghost use Rattle.xb_routes.specs.Text.{deleted_of, route_of, trunk_of};
ghost use Rattle.xb_routes.specs.Coded.{coded};
ghost use Rattle.xb_routes.specs.Codes.{IsCodeLength};

use crate::code::{Code, code_of, number_length, prefixed_of};
use crate::fault::RouteFault;
use crate::keys::{RouteWords, keys_of};
use toml::Value;
use xb_model::{Digit, Plan, PrefixDigits, Trunk};

/// What becomes of a number.
#[derive(Drop)]
pub struct Route {
    /// The trunk group that it takes.
    pub trunk: Trunk,
    /// How many of its first digits are not keyed.
    pub deleted: u8,
    /// The digits that are keyed before its own.
    pub prefixed: PrefixDigits,
}

/// A route with its code.
#[derive(Drop)]
pub struct Entry {
    /// The code of the numbers that take it.
    pub(crate) code: Code,
    /// What becomes of them.
    pub route: Route,
}

impl Entry {
    /// The digits of its code.
    pub fn code(&self) -> &[Digit]
        ensures value { result.now ≡ self.now.code }
        ensures length { IsCodeLength (length self.now.code) }
    {
        self.code.digits()
    }
}

fn trunk_of(number: i64) -> Option<Trunk>
    ensures { result ≡ trunk_of number }
{
    Trunk::new(u16::try_from(number).ok()?)
}

fn deleted_of(length: u8, number: Option<i64>) -> Option<u8>
    ensures { result ≡ deleted_of length number }
{
    match number {
        None => Some(0),
        Some(number) => match u8::try_from(number) {
            Ok(number) if number <= length => Some(number),
            _ => None,
        },
    }
}

// Whether a route keys no digit of numbers of this length.
fn keys_no_digit(number_length: u8, route: &Route) -> bool
    ensures { result ≡ ((route.now.deleted == number_length) && (length route.now.prefixed == 0)) }
{
    route.deleted == number_length && route.prefixed.digits().is_empty()
}

/// Route `i` of a table by what its four keys hold, or its first fault.
pub fn entry_of(plan: Plan, i: u32, words: RouteWords<'_>) -> Result<Entry, RouteFault>
    ensures { result_map_both coded (λ f. f) result ≡ route_of plan i (Some (keys_in words.entry)) }
{
    let Some(code) = code_of(plan, words.code) else {
        return Err(RouteFault::Code(i));
    };
    let Some(trunk) = trunk_of(words.trunk) else {
        return Err(RouteFault::Trunk(i));
    };
    let length = number_length(plan, &code);
    let Some(deleted) = deleted_of(length, words.delete) else {
        return Err(RouteFault::Delete(i));
    };
    let Some(prefixed) = prefixed_of(words.prefix) else {
        return Err(RouteFault::Prefix(i));
    };
    let route = Route {
        trunk,
        deleted,
        prefixed,
    };
    let entry = Entry { code, route };
    if keys_no_digit(length, &entry.route) {
        return Err(RouteFault::NothingToKey(i));
    }
    Ok(entry)
}

/// Route `i` of a table's text, or its first fault.
pub(crate) fn route_of(plan: Plan, i: u32, value: &Value) -> Result<Entry, RouteFault>
    ensures { result_map_both coded (λ f. f) result ≡ route_of plan i (keys_of (view value.now)) }
{
    match keys_of(value) {
        Some(words) => entry_of(plan, i, words),
        None => Err(RouteFault::Shape(i)),
    }
}
