// What is known of a line, as plain numbers.
ghost use Rattle.std.specs.Prelude.{◌≡◌, ℕ, []};
ghost use Rattle.xb_routes.specs.Table.{Table};
ghost use Rattle.xb_structs.specs.Hearing.{HasHeard};
ghost use Rattle.xb_structs.specs.Lines.{pulse_in, register_in};
ghost use Rattle.xb_structs.specs.Taking.{HasTaken};

use crate::digits::{digits_of, put_digits};
use xb_model::NUMBER_DIGITS;
use xb_pulse::{PlainPulse, PulseState};
use xb_register::{PlainRegister, RegisterState};

/// What the pulse stage knows of a line.
#[repr(C)]
#[derive(Clone, Copy)]
pub struct PulsePart {
    /// How long the make or break is so far, in ms.
    pub total: u32,
    /// In which phase the line is.
    pub phase: u8,
    /// How many breaks of the train have ended.
    pub breaks: u8,
    /// Whether the train is bad: 0 where it is not.
    pub bad: u8,
}

/// What the register knows of a line.
#[repr(C)]
#[derive(Clone, Copy)]
pub struct RegisterPart {
    /// In which phase the attempt is.
    pub phase: u8,
    /// How many digits it has.
    pub count: u8,
    /// Its digits, and room for more.
    pub digits: [u8; 10],
}

/// What is known of a line from its rows so far. All zeros is a line before its first row.
#[repr(C)]
#[derive(Clone, Copy)]
pub struct PlainLine {
    /// How many entries its rows have given. It stops at 4,294,967,295.
    pub entries: u32,
    /// What the pulse stage knows.
    pub pulse: PulsePart,
    /// What the register knows.
    pub register: RegisterPart,
}

/// The state of the pulse stage.
pub(crate) fn pulse_of(part: &PulsePart) -> PulseState
    ensures { result ≡ pulse_in part.now }
{
    PulseState::of_plain(PlainPulse {
        phase: part.phase,
        total: part.total,
        breaks: part.breaks,
        bad: part.bad != 0,
    })
}

/// The numbers of a state of the pulse stage.
pub(crate) fn pulse_part(state: PulseState) -> PulsePart
    ensures { pulse_in result ≡ state }
{
    let plain = state.plain();
    PulsePart {
        total: plain.total,
        phase: plain.phase,
        breaks: plain.breaks,
        bad: u8::from(plain.bad),
    }
}

/// The state of the register.
pub(crate) fn register_of(part: &RegisterPart) -> RegisterState
    ensures { result ≡ register_in part.now }
{
    let count = usize::from(part.count).min(NUMBER_DIGITS);
    RegisterState::of_plain(&PlainRegister {
        phase: part.phase,
        digits: digits_of(&part.digits[..count]),
    })
}

/// The numbers of a state of the register.
pub(crate) fn register_part(state: &RegisterState) -> RegisterPart
    ensures { register_in result ≡ state.now }
{
    let plain = state.plain();
    let digits = plain.digits.digits();
    let mut room = [0; 10];
    put_digits(digits, &mut room);
    RegisterPart {
        phase: plain.phase,
        count: digits.len() as u8,
        digits: room,
    }
}

impl PlainLine {
    /// A line before its first row: zeros.
    pub fn new() -> PlainLine
        ensures taken { (table : Table) → HasTaken table result [] [] }
        ensures heard { (table : Table) (number : ℕ) → HasHeard table number result [] [] }
    {
        PlainLine {
            entries: 0,
            pulse: PulsePart {
                total: 0,
                phase: 0,
                breaks: 0,
                bad: 0,
            },
            register: RegisterPart {
                phase: 0,
                count: 0,
                digits: [0; 10],
            },
        }
    }
}
