// Calls: what is dialled.
ghost use Rattle.std.specs.Prelude.{◌≡◌};
ghost use Rattle.xb_calls.specs.Calls.{call_of};

use std::marker::Model;
use xb_model::{Digit, LineNo};

/// A call: a line, and the digits that it dials. Clauses see these two.
#[derive(Drop)]
pub struct Call {
    line: LineNo,
    digits: Vec<Digit>,
}

impl Model for Call {
    ghost use Rattle.xb_calls.specs.Calls.{DialledCall};

    ghost Value = { DialledCall };

    ghost view = { λ call. record { line = call.line; digits = call.digits.items } };
}

impl Call {
    /// The call of a line that dials these digits.
    pub fn new(line: LineNo, digits: Vec<Digit>) -> Call
        ensures { result ≡ call_of line digits.items }
    {
        Call { line, digits }
    }

    /// The line that dials.
    pub fn line(&self) -> LineNo
        ensures { result ≡ self.now.line }
    {
        self.line
    }

    /// The digits that are dialled, in order.
    pub fn digits(&self) -> &[Digit]
        ensures { result.now ≡ self.now.digits }
    {
        &self.digits
    }
}
