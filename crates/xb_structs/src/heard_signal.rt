// What a caller hears on a line by itself.
ghost use Rattle.std.specs.Prelude.{◌≡◌};
ghost use Rattle.xb_structs.specs.HeardSignals.{pulses_of, signal_in};

use xb_model::{Digit, MOST_PULSES, Signal};

/// What a caller hears on a line by itself, as one does that has digits from a telephone network.
#[derive(Clone, Copy)]
pub enum HeardSignal {
    /// The line is seized: a call attempt begins.
    Seizure,
    /// A digit, 0 to 9.
    Digit(u8),
    /// A digit that cannot be told.
    MutilatedDigit,
    /// Nothing was dialled for too long.
    TimeOut,
    /// The line is released.
    Release,
}

// The pulses of a digit: 10 for 0.
fn pulses_of(digit: Digit) -> u8
    ensures { result ≡ pulses_of digit }
{
    if digit.get() == 0 {
        MOST_PULSES
    } else {
        digit.get()
    }
}

/// What the register is told of it; `None` for a digit over 9.
pub(crate) fn signal_of(heard: HeardSignal) -> Option<Signal>
    ensures { result ≡ signal_in heard }
{
    match heard {
        HeardSignal::Seizure => Some(Signal::Seize),
        HeardSignal::Digit(value) => match Digit::new(value) {
            Some(digit) => Some(Signal::Digit(pulses_of(digit), false)),
            None => None,
        },
        HeardSignal::MutilatedDigit => Some(Signal::Digit(0, true)),
        HeardSignal::TimeOut => Some(Signal::TimeOut),
        HeardSignal::Release => Some(Signal::Release),
    }
}
