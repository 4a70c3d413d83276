// States as plain values.
ghost use Rattle.std.specs.Prelude.{◌≡◌};
ghost use Rattle.xb_register.specs.Plain.{plain_of, phase_of};

use crate::state::{Phase, RegisterState};
use crate::stored::StoredDigits;
use xb_model::{NUMBER_DIGITS, NumberDigits};

/// What the register knows of a line, as plain values: for a caller that keeps the states of its lines
/// in memory of its own, as one in C does.
#[derive(Drop)]
pub struct PlainRegister {
    /// 0 no attempt, 1 an attempt with these digits so far, 2 an attempt whose outcome was given.
    pub phase: u8,
    /// The good digits of an attempt.
    pub digits: NumberDigits,
}

// Those of any phase.
fn plain_of(phase: &Phase) -> PlainRegister
    ensures { result ≡ plain_of phase.now }
{
    match phase {
        Phase::OnHook => PlainRegister {
            phase: 0,
            digits: NumberDigits::new(),
        },
        Phase::Listening(digits) => PlainRegister {
            phase: 1,
            digits: digits.read_back(),
        },
        Phase::Done => PlainRegister {
            phase: 2,
            digits: NumberDigits::new(),
        },
    }
}

impl RegisterState {
    /// The state as plain values, from which it comes back.
    pub fn plain(&self) -> PlainRegister
        ensures value { result ≡ plain_of self.now }
        ensures back { phase_of result ≡ self.now }
    {
        plain_of(&self.phase)
    }

    /// The state of plain values. Values that no state has give one all the same: an attempt that has all
    /// its digits is one whose outcome was given, and an unknown phase is no attempt.
    pub fn of_plain(plain: &PlainRegister) -> RegisterState
        ensures { result ≡ phase_of plain.now }
    {
        let digits = plain.digits.digits();
        RegisterState::at(match plain.phase {
            1 if digits.len() < NUMBER_DIGITS => Phase::Listening(StoredDigits::of(digits)),
            1 | 2 => Phase::Done,
            _ => Phase::OnHook,
        })
    }
}
