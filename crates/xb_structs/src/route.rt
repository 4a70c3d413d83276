// Routes as plain numbers.
ghost use Rattle.std.specs.Prelude.{◌≡◌, length};
ghost use Rattle.xb_routes.specs.Codes.{AreDigits, IsCodeLength};
ghost use Rattle.xb_routes.specs.Coded.{coded, uncoded};
ghost use Rattle.xb_routes.specs.Places.{code_number};
ghost use Rattle.xb_structs.specs.Routes.{route_in, trunk_in};

use crate::digits::{digits_of, put_digits};
use xb_model::{PREFIX_DIGITS, Trunk};
use xb_routes::{Entry, Route, code_number};

/// A route with its code.
#[repr(C)]
#[derive(Clone, Copy, Default)]
pub struct PlainRoute {
    /// The number of its code: the decimal number that 1 and then the digits of the code write.
    pub code: u32,
    /// Its trunk group.
    pub trunk: u16,
    /// How many digits it deletes.
    pub deleted: u8,
    /// How many digits its prefix has.
    pub length: u8,
    /// The digits of its prefix, and room for more.
    pub prefix: [u8; 8],
}

// A trunk group, 0 for what is none.
fn trunk_of(number: u16) -> Trunk
    ensures { result ≡ trunk_in number }
{
    Trunk::new(number).unwrap_or_default()
}

/// What becomes of the numbers of a route.
pub(crate) fn route_of(route: &PlainRoute) -> Route
    ensures { result ≡ route_in route.now }
{
    let length = usize::from(route.length).min(PREFIX_DIGITS);
    Route {
        trunk: trunk_of(route.trunk),
        deleted: route.deleted,
        prefixed: digits_of(&route.prefix[..length]),
    }
}

/// A route of a table as plain numbers.
pub(crate) fn plain_route(entry: &Entry) -> PlainRoute
    ensures code { result.code ≡ code_number entry.now.code }
    ensures digits { AreDigits entry.now.code }
    ensures length { IsCodeLength (length entry.now.code) }
    ensures route { route_in result ≡ uncoded (coded entry.now) }
{
    let prefixed = entry.route.prefixed.digits();
    let mut prefix = [0; 8];
    put_digits(prefixed, &mut prefix);
    PlainRoute {
        code: code_number(entry.code()),
        trunk: entry.route.trunk.get(),
        deleted: entry.route.deleted,
        length: prefixed.len() as u8,
        prefix,
    }
}
