// The route that a number takes, found by the numbers of codes.
ghost use Rattle.std.specs.Prelude.{◌≡◌, ◌≤◌, List, IfOk, IfErr, IfSome, length, option_map, take};
ghost use Rattle.xb_model.specs.declared.digits.TheConstants.{NUMBER_DIGITS};
ghost use Rattle.xb_model.specs.Routing.{CodedRoute, route_for};
ghost use Rattle.xb_routes.specs.Codes.{AreDigits};
ghost use Rattle.xb_routes.specs.Coded.{uncoded};
ghost use Rattle.xb_routes.specs.Table.{Table};
ghost use Rattle.xb_routes.specs.declared.code.TheConstants.{CODE_DIGITS};
ghost use Rattle.xb_structs.specs.declared.refusal.Refusal.TheVariants.{NotOpened};
ghost use Rattle.xb_structs.specs.Deciding.{Decides, IsLongest};
ghost use Rattle.xb_structs.specs.Digits.{digits_in};
ghost use Rattle.xb_structs.specs.Routes.{AreRoutes, Rise, numbered, numbered_first, route_in};
ghost use Rattle.xb_structs.specs.Tables.{Holds, IsOpen};

use crate::digits::digits_of;
use crate::refusal::Refusal;
use crate::route::{PlainRoute, route_of};
use crate::table::{PlainTable, parts_of};
use xb_model::{Digit, NUMBER_DIGITS, NumberDigits};
use xb_routes::{CODE_DIGITS, CODE_LENGTHS, Route, code_number};

// The route of the code with this number, among routes whose numbers rise.
fn numbered(routes: &[PlainRoute], number: u32) -> Option<Route>
    ensures { Rise routes.now → result ≡ option_map route_in (numbered number routes.now) }
{
    match routes.binary_search_by_key(&number, |route| route.code) {
        Ok(place) => Some(route_of(&routes[place])),
        Err(_) => None,
    }
}

// The route of the code that is the first digits, so many.
fn numbered_first(routes: &[PlainRoute], digits: &[Digit], count: usize) -> Option<Route>
    requires { count ≤ CODE_DIGITS }
    ensures route { Rise routes.now
        → result ≡ option_map route_in (numbered_first count digits.now routes.now) }
    ensures digits { count ≤ length digits.now → AreDigits (take count digits.now) }
{
    let code = digits.get(..count)?;
    numbered(routes, code_number(code))
}

// The route of the longest code that the digits begin with, and how many digits the code has; `None` exactly
// where they begin with no code.
fn longest(routes: &[PlainRoute], digits: &[Digit]) -> Option<(usize, Route)>
    ensures longest { (all : List CodedRoute) → AreRoutes routes.now all → IsLongest all digits.now result }
    ensures few { IfSome result (λ found. found.0 ≤ CODE_DIGITS) }
{
    for count in CODE_LENGTHS {
        if let Some(route) = numbered_first(routes, digits, count) {
            return Some((count, route));
        }
    }
    None
}

/// The route of the longest code that the digits begin with; `None` exactly where they begin with no
/// code.
pub(crate) fn look(routes: &[PlainRoute], digits: &[Digit]) -> Option<Route>
    ensures { (all : List CodedRoute) → AreRoutes routes.now all
        → result ≡ option_map uncoded (route_for all digits.now) }
{
    let (_, route) = longest(routes, digits)?;
    Some(route)
}

/// How many of the digits of a number are the code by which a table decides where it goes; `None` exactly
/// where they begin with no code of the table. Ten digits are read at most, and a byte over 9 is a 0.
/// `NotOpened` comes exactly where the table is none that was opened.
pub fn deciding(table: &PlainTable, digits: &[u8]) -> Result<Option<usize>, Refusal>
    ensures opened { IfOk result (λ _. IsOpen table.now) }
    ensures decides { IfOk result (λ found. (held : Table) → Holds table.now held →
        Decides held.routes (digits_in NUMBER_DIGITS (length digits.now) digits.now) found) }
    ensures few { IfOk result (λ found. IfSome found (λ count. count ≤ CODE_DIGITS)) }
    ensures refused { IfErr result (λ refusal. (refusal ≡ NotOpened) × (IsOpen table.now → ⊥)) }
{
    let Some(parts) = parts_of(table) else {
        return Err(Refusal::NotOpened);
    };
    let count = digits.len().min(NUMBER_DIGITS);
    let number: NumberDigits = digits_of(&digits[..count]);
    match longest(parts.routes, number.digits()) {
        Some((length, _)) => Ok(Some(length)),
        None => Ok(None),
    }
}
