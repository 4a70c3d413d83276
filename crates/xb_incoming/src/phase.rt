// Where a register stands.
ghost use Rattle.std.specs.Prelude.{◌≡◌};
ghost use Rattle.xb_incoming.specs.Machine.{enter, give, no_digits, number_by, one_more, opened, refuse, with_digit};

use crate::key::{MOST_COUNT, Symbol};
use xb_model::{Dialled, Digit, NUMBER_DIGITS, NumberDigits, Reason};

// The digits of a keying: the first ten, and how many there are.
#[derive(Drop)]
pub(crate) struct Keyed {
    pub(crate) first: NumberDigits,
    pub(crate) count: u8,
}

#[derive(Drop)]
pub(crate) enum Phase {
    // No keying is open.
    Idle,
    // In a keying, whose last key ended at this moment.
    Keying(Keyed, u64),
    // A keying was mutilated; the last key ended at this moment.
    Deaf(u64),
}

// What a key tells, and the phase after it.
#[derive(Drop)]
pub(crate) struct Step {
    pub(crate) outcome: Option<Dialled>,
    pub(crate) phase: Phase,
}

impl Step {
    pub(crate) fn enter(phase: Phase) -> Step
        ensures { result ≡ enter phase }
    {
        Step {
            outcome: None,
            phase,
        }
    }

    pub(crate) fn give(outcome: Dialled, phase: Phase) -> Step
        ensures { result ≡ give outcome phase }
    {
        Step {
            outcome: Some(outcome),
            phase,
        }
    }

    pub(crate) fn refuse(reason: Reason, keyed: &Keyed, phase: Phase) -> Step
        ensures { result ≡ refuse reason keyed.now phase }
    {
        Step::give(Dialled::Refused(reason, keyed.count), phase)
    }
}

fn one_more(count: u8) -> u8
    ensures { result ≡ one_more count }
{
    if count < MOST_COUNT { count + 1 } else { count }
}

impl Keyed {
    pub(crate) fn new() -> Keyed
        ensures { result ≡ no_digits }
    {
        Keyed {
            first: NumberDigits::new(),
            count: 0,
        }
    }

    // With one digit more.
    pub(crate) fn with_digit(mut self, digit: Digit) -> Keyed
        ensures { result ≡ with_digit digit self }
    {
        if self.first.digits().len() < NUMBER_DIGITS {
            self.first.push(digit);
        }
        self.count = one_more(self.count);
        self
    }

    // The number that ST ends.
    pub(crate) fn number(self) -> Dialled
        ensures { result ≡ number_by self }
    {
        if 1 <= self.count && usize::from(self.count) <= NUMBER_DIGITS {
            Dialled::Number(self.first)
        } else {
            Dialled::Refused(Reason::Unknown, self.count)
        }
    }
}

// What a key leaves of a register that has no keying.
pub(crate) fn opened(what: Symbol, end: u64) -> Phase
    ensures { result ≡ opened what end }
{
    match what {
        Symbol::Kp => Phase::Keying(Keyed::new(), end),
        _ => Phase::Idle,
    }
}
