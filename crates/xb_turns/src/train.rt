// The pulses of a digit, as they come.
ghost use Rattle.std.specs.Prelude.{◌≡◌, ◌-◌};
ghost use Rattle.xb_turns.specs.Trains.{or_fault, or_wider, train_begun, with_break, with_make, wider};

use xb_heard::{PulseFault, fault_at};
use xb_model::{Contact, Limits};

/// The least and the greatest of some times, in ticks.
#[derive(Clone, Copy, Debug, Default, PartialEq, Eq)]
pub struct Spread {
    /// The least.
    pub least: u64,
    /// The greatest.
    pub most: u64,
}

/// What is wrong with a run of so many ms.
#[derive(Clone, Copy, Debug, PartialEq, Eq)]
pub struct Wrong {
    /// What.
    pub fault: PulseFault,
    /// How long the run is, in ms.
    pub ms: u64,
}

/// A break of a pulse, or the make after it: when it begins and how long it lasts.
#[derive(Clone, Copy, Debug, PartialEq, Eq)]
pub struct Timed {
    /// The tick at which it begins.
    pub from: u64,
    /// How many ticks it lasts.
    pub ticks: u64,
    /// How many ms it lasts, each end rounded once.
    pub ms: u64,
    /// The longest of its bounces, in ticks.
    pub bounce: u64,
}

/// Pulses, as far as they are measured. All times are in ticks.
#[derive(Clone, Copy, Debug, Default, PartialEq, Eq)]
pub struct Train {
    /// How many breaks.
    pub pulses: usize,
    /// When the first break begins.
    pub first: u64,
    /// When the last break begins.
    pub last: u64,
    /// How long the breaks before the last one are.
    pub broken: u64,
    /// The breaks.
    pub breaks: Spread,
    /// How long the last break is.
    pub latest: u64,
    /// The makes between breaks, if there are any.
    pub makes: Option<Spread>,
    /// How long the make after the last break is.
    pub resting: u64,
    /// From the first break to the second.
    pub first_period: u64,
    /// From the last break but one to the last.
    pub last_period: u64,
    /// The longest bounce.
    pub bounce: u64,
    /// What is wrong with the first run that is wrong.
    pub wrong: Option<Wrong>,
}

// The least and the greatest with one more.
fn wider(spread: Spread, ticks: u64) -> Spread
    ensures { result ≡ wider spread ticks }
{
    Spread {
        least: spread.least.min(ticks),
        most: spread.most.max(ticks),
    }
}

// The same where there may be none yet.
fn or_wider(spread: Option<Spread>, ticks: u64) -> Spread
    ensures { result ≡ or_wider spread ticks }
{
    match spread {
        Some(spread) => wider(spread, ticks),
        None => Spread {
            least: ticks,
            most: ticks,
        },
    }
}

// The fault that came first.
fn or_fault(wrong: Option<Wrong>, fault: Option<PulseFault>, ms: u64) -> Option<Wrong>
    ensures { result ≡ or_fault wrong fault ms }
{
    match (wrong, fault) {
        (Some(wrong), _) => Some(wrong),
        (None, Some(fault)) => Some(Wrong { fault, ms }),
        (None, None) => None,
    }
}

impl Train {
    /// A first break.
    pub(crate) fn begun(limits: Limits, run: Timed) -> Train
        ensures { result ≡ train_begun limits run }
    {
        Train {
            pulses: 1,
            first: run.from,
            last: run.from,
            broken: 0,
            breaks: Spread {
                least: run.ticks,
                most: run.ticks,
            },
            latest: run.ticks,
            makes: None,
            resting: 0,
            first_period: 0,
            last_period: 0,
            bounce: run.bounce,
            wrong: or_fault(None, fault_at(limits, 1, Contact::Brk, run.ms), run.ms),
        }
    }

    /// A break more.
    pub(crate) fn with_break(self, limits: Limits, run: Timed) -> Train
        ensures { result ≡ with_break limits self run }
    {
        let pulses = self.pulses.saturating_add(1);
        let period = run.from.saturating_sub(self.last);
        Train {
            pulses,
            first: self.first,
            last: run.from,
            broken: self.broken.saturating_add(self.latest),
            breaks: wider(self.breaks, run.ticks),
            latest: run.ticks,
            makes: Some(or_wider(self.makes, self.resting)),
            resting: 0,
            first_period: if self.pulses == 1 {
                period
            } else {
                self.first_period
            },
            last_period: period,
            bounce: self.bounce.max(run.bounce),
            wrong: or_fault(
                self.wrong,
                fault_at(limits, pulses, Contact::Brk, run.ms),
                run.ms,
            ),
        }
    }

    /// A make more.
    pub(crate) fn with_make(self, limits: Limits, run: Timed) -> Train
        ensures { result ≡ with_make limits self run }
    {
        Train {
            resting: run.ticks,
            bounce: self.bounce.max(run.bounce),
            wrong: or_fault(
                self.wrong,
                fault_at(limits, self.pulses, Contact::Make, run.ms),
                run.ms,
            ),
            ..self
        }
    }
}
