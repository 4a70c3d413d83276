// What spoils a train.
ghost use Rattle.std.specs.Prelude.{◌≡◌, ℕ, nat_lt, ◌||◌, is_some, IfSome};
ghost use Rattle.xb_heard.specs.Faults.{IsFirstFault, fault_at, first_spoiler};

use crate::run::PlacedRun;
use xb_model::{Contact, Limits, MOST_PULSES};

/// What is wrong with a run of a pulse train.
#[derive(Clone, Copy, Debug, PartialEq, Eq)]
pub enum PulseFault {
    /// A break under `pulse_min`.
    ShortBreak,
    /// A break over `pulse_max`.
    LongBreak,
    /// A make under `make_min`.
    ShortMake,
    /// The break after ten others.
    TooManyPulses,
}

/// The first run of a train that is wrong, and what is wrong with it.
#[derive(Clone, Copy, Debug, PartialEq, Eq)]
pub struct Spoiler {
    /// What is wrong.
    pub fault: PulseFault,
    /// The run.
    pub run: PlacedRun,
}

/// What is wrong with a run of a train, by itself or as the n-th break of the train; `None` if nothing is.
pub fn fault_at(limits: Limits, n: usize, contact: Contact, ms: u64) -> Option<PulseFault>
    ensures { result ≡ fault_at limits n contact ms }
{
    match contact {
        Contact::Make if ms < u64::from(limits.make_min) => Some(PulseFault::ShortMake),
        Contact::Brk if ms < u64::from(limits.pulse_min) => Some(PulseFault::ShortBreak),
        Contact::Brk if ms > u64::from(limits.pulse_max) => Some(PulseFault::LongBreak),
        Contact::Brk if n > usize::from(MOST_PULSES) => Some(PulseFault::TooManyPulses),
        _ => None,
    }
}

// The first run of a train that is wrong.
pub(crate) fn first_spoiler(limits: Limits, train: &[PlacedRun]) -> Option<Spoiler>
    ensures { result ≡ first_spoiler limits 0 train.now }
{
    let mut breaks: usize = 0;
    for run in train {
        if run.contact == Contact::Brk {
            breaks += 1;
        }
        if let Some(fault) = fault_at(limits, breaks, run.contact, run.ms) {
            return Some(Spoiler { fault, run: *run });
        }
    }
    None
}
