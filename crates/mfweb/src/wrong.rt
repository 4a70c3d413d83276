// What is wrong with a make or break that a row ends.
ghost use Rattle.std.specs.Prelude.{◌≡◌};
ghost use Rattle.xb_structs.specs.Lines.{pulse_in};
ghost use Rattle.mfweb.specs.Wrong.{fault_by, fault_number};

use xb_heard::{PulseFault, fault_at};
use xb_model::{Contact, GREATEST_LIMIT, Limits, MANY_BREAKS};
use xb_structs::{PlainRow, PulsePart};

// The letters of a make and of a break.
const MAKE: u32 = 77;

const BREAK: u32 = 66;

// The phases of a line in a break of a digit, and in a make of it.
const IN_BREAK: u8 = 2;

const IN_MAKE: u8 = 3;

// What is wrong with the make or break of a digit that a row ends, if it ends one and something is.
fn fault_by(limits: Limits, part: &PulsePart, row: &PlainRow) -> Option<PulseFault>
    ensures { result ≡ fault_by limits (pulse_in part.now) row.now }
{
    if row.ms == 0 {
        return None;
    }
    let total = u64::from(part.total.min(GREATEST_LIMIT));
    let breaks = usize::from(part.breaks.min(MANY_BREAKS));
    match (part.phase, row.state) {
        (IN_BREAK, MAKE) => fault_at(limits, breaks + 1, Contact::Brk, total),
        (IN_MAKE, BREAK) => fault_at(limits, breaks, Contact::Make, total),
        _ => None,
    }
}

// The number of a fault.
fn fault_number(fault: Option<PulseFault>) -> u32
    ensures { result ≡ fault_number fault }
{
    match fault {
        None => 0,
        Some(PulseFault::ShortBreak) => 1,
        Some(PulseFault::LongBreak) => 2,
        Some(PulseFault::ShortMake) => 3,
        Some(PulseFault::TooManyPulses) => 4,
    }
}

/// By a number, what is wrong with the make or break of a digit that a row ends.
pub(crate) fn wrong_by(limits: Limits, part: &PulsePart, row: &PlainRow) -> u32
    ensures { result ≡ fault_number (fault_by limits (pulse_in part.now) row.now) }
{
    fault_number(fault_by(limits, part, row))
}
