// The figures of a train.
ghost use Rattle.std.specs.Prelude.{◌≡◌, ◌+◌, ◌-◌, ◌*◌, ◌<◌, ◌≤◌, ◌^◌, None, length, take};
ghost use Rattle.xb_heard.specs.Figures.{extent_from, percent_of, quotient_of, share_by, speed_by, speed_of, times_of, whole_periods};
ghost use Rattle.xb_heard.specs.Figures.{wider, with_run};

use crate::joining::same_contact;
use crate::run::PlacedRun;
use xb_model::Contact;

/// So many runs are a train of which no share of breaks is given.
pub(crate) const MANY_RUNS: usize = 4_294_967_296;

/// The shortest and the longest of some runs, in ms.
#[derive(Clone, Copy, Debug, PartialEq, Eq)]
pub struct Extent {
    /// The shortest.
    pub least: u64,
    /// The longest.
    pub most: u64,
}

/// How many breaks some runs have, how long these are, and how long all are.
#[derive(Clone, Copy, Debug, PartialEq, Eq)]
pub struct Times {
    /// How many breaks.
    pub breaks: u64,
    /// How long the breaks are, in ms.
    pub open_ms: u128,
    /// How long all runs are, in ms.
    pub all_ms: u128,
}

// The times of runs and one more.
fn with_run(run: &PlacedRun, times: Times) -> Times
    requires breaks { times.breaks + 1 < 2 ^ 64 }
    requires open_ms { times.open_ms < 2 ^ 127 }
    requires all_ms { times.all_ms < 2 ^ 127 }
    ensures times { result ≡ with_run run.now times }
    ensures breaks { result.breaks ≤ times.breaks + 1 }
    ensures open_ms { result.open_ms ≤ times.open_ms + 2 ^ 64 }
    ensures all_ms { result.all_ms ≤ times.all_ms + 2 ^ 64 }
{
    let Times {
        breaks,
        open_ms,
        all_ms,
    } = times;
    let ms = u128::from(run.ms);
    if same_contact(run.contact, Contact::Brk) {
        Times {
            breaks: breaks + 1,
            open_ms: open_ms + ms,
            all_ms: all_ms + ms,
        }
    } else {
        Times {
            breaks,
            open_ms,
            all_ms: all_ms + ms,
        }
    }
}

/// The times of runs.
pub fn times_of(runs: &[PlacedRun]) -> Times
    ensures times { result ≡ times_of runs.now }
    ensures breaks { result.breaks ≤ length runs.now }
    ensures open_ms { result.open_ms ≤ length runs.now * 2 ^ 64 }
    ensures all_ms { result.all_ms ≤ length runs.now * 2 ^ 64 }
{
    let mut times = Times {
        breaks: 0,
        open_ms: 0,
        all_ms: 0,
    };
    for run in runs {
        times = with_run(run, times);
    }
    times
}

// Twice as much has no room.
const MOST_DIVISOR: u128 = (1 << 127) - 1;

/// A quotient in tenths, a half rounded up; `None` by 0.
pub fn quotient_of(number: u128, divisor: u128) -> Option<u128>
    requires { number < 2 ^ 120 }
    ensures { result ≡ quotient_of number divisor }
{
    if divisor == 0 {
        None
    } else if divisor > MOST_DIVISOR {
        Some(0)
    } else {
        Some((20 * number + divisor) / (2 * divisor))
    }
}

/// Pulses a second in tenths: so many whole periods in so many ms; `None` of 0 ms.
pub fn speed_by(periods: u128, ms: u128) -> Option<u128>
    requires { periods < 2 ^ 110 }
    ensures { result ≡ speed_by periods ms }
{
    quotient_of(1000 * periods, ms)
}

/// How much of a time is break, in tenths of a percent; `None` of no time.
pub fn share_by(broken: u128, all: u128) -> Option<u128>
    requires { broken < 2 ^ 110 }
    ensures { result ≡ share_by broken all }
{
    quotient_of(100 * broken, all)
}

// The runs of a train before its last break.
fn whole_periods(train: &[PlacedRun]) -> &[PlacedRun]
    ensures { result.now ≡ whole_periods train.entry.now }
{
    &train[..train.len().saturating_sub(1)]
}

/// Pulses a second of a train, in tenths, by the runs before its last break; `None` of a single
/// pulse.
pub(crate) fn speed_of(train: &[PlacedRun]) -> Option<u128>
    ensures { result ≡ speed_of train.now }
{
    let whole = times_of(whole_periods(train));
    speed_by(u128::from(whole.breaks), whole.all_ms)
}

/// How much of the time of a train is break, in tenths of a percent, by the runs before its last
/// break; `None` of a single pulse, and of a train of `MANY_RUNS` or more, which no deck has.
pub(crate) fn percent_of(train: &[PlacedRun]) -> Option<u128>
    ensures { result ≡ percent_of train.now }
{
    if train.len() >= MANY_RUNS {
        return None;
    }
    let whole = times_of(whole_periods(train));
    share_by(whole.open_ms, whole.all_ms)
}

// The shortest and the longest of some runs and one more.
fn wider(extent: Option<Extent>, ms: u64) -> Option<Extent>
    ensures { result ≡ wider extent ms }
{
    match extent {
        None => Some(Extent {
            least: ms,
            most: ms,
        }),
        Some(Extent { least, most }) => Some(Extent {
            least: least.min(ms),
            most: most.max(ms),
        }),
    }
}

/// The shortest and the longest of a train's runs of a contact: its breaks, or the makes between two pulses.
pub(crate) fn extent_of(train: &[PlacedRun], contact: Contact) -> Option<Extent>
    ensures { result ≡ extent_from contact None train.now }
{
    let mut extent = None;
    for run in train {
        if same_contact(run.contact, contact) {
            extent = wider(extent, run.ms);
        }
    }
    extent
}
