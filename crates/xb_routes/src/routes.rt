// The routes of a table, and the look-up of the one that a number takes.
ghost use Rattle.std.specs.Prelude.{◌≡◌, ◌≤◌, [], ◌∷◌, ◌++◌, IfOk, false, length, map, option_copied, option_map};
ghost use Rattle.std.specs.List.{list_any};
ghost use Rattle.xb_model.specs.Routing.{route_for};
ghost use Rattle.xb_routes.specs.Codes.{AreDigits};
ghost use Rattle.xb_routes.specs.Coded.{coded, uncoded};
ghost use Rattle.xb_routes.specs.Places.{code_number, place_of_first};
ghost use Rattle.xb_routes.specs.Text.{has_code};
ghost use Rattle.xb_routes.specs.declared.code.TheConstants.{CODE_DIGITS};

use crate::code::{CODE_LENGTHS, Code};
use crate::route::{Entry, Route};
use std::alloc::{AllocError, Global};
use std::collections::HashMap;
use std::marker::Model;
use xb_model::Digit;

/// Routes in the order of their table, no two of the same code.
#[derive(Drop)]
pub(crate) struct Routes {
    entries: Vec<Entry>,
    // where the entry of each code stands, by the code's number
    places: HashMap<u32, usize>,
}

// Clauses see the list of the routes.
impl Model for Routes {
    ghost use Rattle.std.specs.Prelude.{List, map};
    ghost use Rattle.xb_model.specs.Routing.{CodedRoute};
    ghost use Rattle.xb_routes.specs.Coded.{coded};
    ghost use Rattle.xb_routes.specs.Places.{IsIndex};

    ghost Value = { List CodedRoute };

    ghost view = { λ routes. map coded routes.entries.items };

    ghost invariant = { λ routes. IsIndex routes.places (map coded routes.entries.items) };
}

/// The decimal number that 1 and then the digits of a code write: no two codes have the same.
pub fn code_number(digits: &[Digit]) -> u32
    requires { length digits.now ≤ CODE_DIGITS }
    ensures number { result ≡ code_number digits.now }
    ensures digits { AreDigits digits.now }
{
    let mut number = 1;
    for digit in digits {
        number = 10 * number + u32::from(digit.get());
    }
    number
}

impl Routes {
    /// No routes.
    pub(crate) fn new(alloc: Global) -> Routes
        ensures { result ≡ [] }
    {
        Routes {
            entries: Vec::new(alloc),
            places: HashMap::new(alloc),
        }
    }

    /// Whether a route has the code.
    pub(crate) fn has(&self, code: &Code) -> bool
        ensures { result ≡ list_any (has_code code.now) self.now }
    {
        self.places.contains_key(&code_number(code.digits()))
    }

    /// One route more, after the others; none of these may have its code.
    pub(crate) fn push(&mut self, entry: Entry) -> Result<(), AllocError>
        requires { list_any (has_code entry.code) self.old ≡ false }
        ensures { IfOk result (λ _. self.new ≡ self.old ++ coded entry ∷ []) }
    {
        self.entries.reserve(1)?;
        let number = code_number(entry.code.digits());
        self.places.insert(number, self.entries.len())?;
        self.entries.push_reserved(entry);
        Ok(())
    }

    /// The routes, in order.
    pub(crate) fn entries(&self) -> &[Entry]
        ensures { map coded result.now ≡ self.now }
    {
        &self.entries
    }

    // Where the route stands whose code is the first digits, as many as the length.
    fn place_of(&self, digits: &[Digit], length: usize) -> Option<usize>
        requires { length ≤ CODE_DIGITS }
        ensures { result ≡ place_of_first length digits.now self.now }
    {
        let code = digits.get(..length)?;
        self.places.get(&code_number(code)).copied()
    }

    /// The route of the longest code that the digits begin with; `None` exactly where they begin
    /// with no code.
    pub(crate) fn look(&self, digits: &[Digit]) -> Option<&Route>
        ensures { option_copied result ≡ option_map uncoded (route_for self.now digits.now) }
    {
        let entries = &self.entries;
        for length in CODE_LENGTHS {
            if let Some(place) = self.place_of(digits, length) {
                return Some(&entries[place].route);
            }
        }
        None
    }
}
