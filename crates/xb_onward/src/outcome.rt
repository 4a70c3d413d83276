// What became of a keying, as plain numbers.
ghost use Rattle.std.specs.Prelude.{◌≡◌};
ghost use Rattle.xb_onward.specs.Outcomes.{outcome_in, reason_in, reason_number};

use xb_model::{Dialled, NUMBER_DIGITS, Reason};
use xb_structs::{digits_of, put_digits};

/// What became of a keying: a number, or why there is none.
#[repr(C)]
#[derive(Clone, Copy)]
pub struct PlainOutcome {
    /// 4 to 7 why there is no number, as marks have it: the keying was mutilated, no office has such a number, it was
    /// abandoned, it timed out. Any other is a number.
    pub kind: u8,
    /// How many digits there were; 255 stands for more, too.
    pub count: u8,
    /// The digits of a number, and room for more.
    pub digits: [u8; 10],
}

// Why there is no number; `None` where there is one.
fn reason_of(kind: u8) -> Option<Reason>
    ensures { result ≡ reason_in kind }
{
    match kind {
        4 => Some(Reason::Mutilated),
        5 => Some(Reason::Unknown),
        6 => Some(Reason::Abandoned),
        7 => Some(Reason::TimedOut),
        _ => None,
    }
}

fn reason_number(reason: Reason) -> u8
    ensures { result ≡ reason_number reason }
{
    match reason {
        Reason::Mutilated => 4,
        Reason::Unknown => 5,
        Reason::Abandoned => 6,
        Reason::TimedOut => 7,
    }
}

/// The outcome that plain numbers say.
pub(crate) fn dialled_of(outcome: &PlainOutcome) -> Dialled
    ensures { result ≡ outcome_in outcome.now }
{
    match reason_of(outcome.kind) {
        Some(reason) => Dialled::Refused(reason, outcome.count),
        None => {
            let count = usize::from(outcome.count).min(NUMBER_DIGITS);
            Dialled::Number(digits_of(&outcome.digits[..count]))
        }
    }
}

/// An outcome as plain numbers.
pub(crate) fn plain_outcome(dialled: &Dialled) -> PlainOutcome
    ensures { outcome_in result ≡ dialled.now }
{
    match dialled {
        Dialled::Refused(reason, count) => PlainOutcome {
            kind: reason_number(*reason),
            count: *count,
            digits: [0; 10],
        },
        Dialled::Number(number) => {
            let number = number.digits();
            let mut digits = [0; 10];
            put_digits(number, &mut digits);
            PlainOutcome {
                kind: 0,
                count: number.len() as u8,
                digits,
            }
        }
    }
}
