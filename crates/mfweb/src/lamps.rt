// What is known of a line, as lamps show it.
ghost use Rattle.std.specs.Prelude.{◌≡◌, ◌≤◌, length, map, take};
ghost use Rattle.xb_register.specs.Plain.{plain_of as register_numbers};
ghost use Rattle.xb_structs.specs.Digits.{digit_in};
ghost use Rattle.xb_structs.specs.HeardSignals.{pulses_of};
ghost use Rattle.xb_structs.specs.Lines.{pulse_in, register_in};
ghost use Rattle.xb_pulse.specs.Plain.{plain_of as pulse_numbers};
ghost use Rattle.mfweb.specs.Lamps.{AreLamps, elements_of, lit_digit};

use xb_model::{Digit, MOST_PULSES, NUMBER_DIGITS, NumberDigits};
use xb_pulse::{PlainPulse, PulseState};
use xb_register::{PlainRegister, RegisterState};
use xb_structs::{PlainLine, PulsePart, RegisterPart, dialled, train_elements};

/// A digit, and its lamps.
#[repr(C)]
#[derive(Clone, Copy)]
pub struct WebDigit {
    /// The digit.
    pub value: u8,
    /// Which of the five elements of the weights 0, 1, 2, 4 and 7 operate: 1 where one does.
    pub elements: [u8; 5],
}

/// What is known of a line.
#[repr(C)]
#[derive(Clone, Copy)]
pub struct WebLamps {
    /// How many entries it has given.
    pub entries: u32,
    /// How its loop is: 0 on hook, 1 between digits, 2 in a break, 3 in a make, 4 timed out, 5 closed.
    pub phase: u8,
    /// How many breaks of the next digit have ended.
    pub breaks: u8,
    /// How its attempt is: 0 there is none, 1 the register listens, 2 its outcome was given.
    pub attempt: u8,
    /// How many digits the register has of an attempt without an outcome.
    pub count: u8,
    /// These digits, and room for more.
    pub digits: [WebDigit; 10],
}

// How many pulses a digit has.
fn pulses_of(digit: u8) -> u8
    ensures { result ≡ pulses_of digit }
{
    if digit == 0 { MOST_PULSES } else { digit }
}

// The elements that operate for a digit.
fn elements_of(digit: u8) -> [u8; 5]
    ensures { result ≡ elements_of digit }
{
    train_elements(pulses_of(digit), false)
}

// A digit and its lamps.
fn lit_digit(value: u8) -> WebDigit
    ensures { result ≡ lit_digit value }
{
    WebDigit {
        value,
        elements: elements_of(value),
    }
}

// Writes digits and their lamps to the front of the room.
fn put_lit(digits: &[u8], room: &mut [WebDigit; 10])
    requires { length digits.now ≤ 10 }
    ensures { take (length digits.now) room.new ≡ map lit_digit digits.now }
{
    for (i, digit) in digits.iter().enumerate() {
        room[i] = lit_digit(*digit);
    }
}

// The state of the pulse stage as numbers that it has.
fn pulse_numbers(part: &PulsePart) -> PlainPulse
    ensures { result ≡ pulse_numbers (pulse_in part.now) }
{
    PulseState::of_plain(PlainPulse {
        phase: part.phase,
        total: part.total,
        breaks: part.breaks,
        bad: part.bad != 0,
    })
    .plain()
}

// The digits of some bytes.
fn digits_of(bytes: &[u8]) -> NumberDigits
    requires { length bytes.now ≤ NUMBER_DIGITS }
    ensures { result ≡ map digit_in bytes.now }
{
    let mut digits = NumberDigits::new();
    for byte in bytes {
        digits.push(Digit::new(*byte).unwrap_or_default());
    }
    digits
}

// How the attempt of a line is.
pub(crate) fn attempt_of(part: &RegisterPart) -> u8
    ensures { let numbers = register_numbers (register_in part.now) in result ≡ numbers.phase }
{
    let count = usize::from(part.count).min(NUMBER_DIGITS);
    let known = PlainRegister {
        phase: part.phase,
        digits: digits_of(&part.digits[..count]),
    };
    RegisterState::of_plain(&known).plain().phase
}

/// What is known of a line, as lamps show it.
pub(crate) fn lamps_of(line: &PlainLine) -> WebLamps
    ensures { AreLamps line.now result }
{
    let pulse = pulse_numbers(&line.pulse);
    let mut values = [0; 10];
    let count = dialled(line, &mut values);
    let mut digits = [lit_digit(0); 10];
    put_lit(&values[..count], &mut digits);
    WebLamps {
        entries: line.entries,
        phase: pulse.phase,
        breaks: pulse.breaks,
        attempt: attempt_of(&line.register),
        count: count as u8,
        digits,
    }
}
