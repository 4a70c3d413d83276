// The figures of pulses, each rounded to a tenth once.
ghost use Rattle.std.specs.Prelude.{◌≡◌, ◌<◌, ◌≤◌, ◌^◌, ◌*◌};
ghost use Rattle.xb_turns.specs.Figures.{drift_of, share_of, speed_of, tenths_of_ms};

use crate::train::Train;
use xb_contact::Scale;
use xb_heard::{quotient_of, share_by, speed_by};

/// So many pulses are a train of which no speed is given.
pub const MANY_PULSES: usize = 16_777_216;

/// A figure in tenths, and whether it is below 0.
#[derive(Clone, Copy, Debug, PartialEq, Eq)]
pub struct Drift {
    /// Whether it is below 0.
    pub is_below: bool,
    /// In tenths.
    pub tenths: Option<u128>,
}

/// A product, which has room.
pub(crate) fn product(one: u64, other: u64) -> u128
    ensures value { result ≡ one * other }
    ensures most { result ≤ one * 18446744073709551615 }
{
    u128::from(one) * u128::from(other)
}

/// Pulses a second in tenths, by whole periods: from the first break to the last.
pub fn speed_of(scale: Scale, train: &Train) -> Option<u128>
    ensures { result ≡ speed_of scale train.now }
{
    if train.pulses >= MANY_PULSES {
        return None;
    }
    let periods = train.pulses.saturating_sub(1) as u64;
    let ticks = train.last.saturating_sub(train.first);
    speed_by(product(periods, scale.ticks), product(ticks, scale.ms))
}

/// How much of the time of whole periods is break, in tenths of a percent.
pub fn share_of(train: &Train) -> Option<u128>
    ensures { result ≡ share_of train.now }
{
    let ticks = train.last.saturating_sub(train.first);
    share_by(u128::from(train.broken), u128::from(ticks))
}

/// How much longer the last period is than the first, in tenths of a percent of the first; of three pulses or more.
pub fn drift_of(train: &Train) -> Drift
    ensures { result ≡ drift_of train.now }
{
    let (first, last) = (train.first_period, train.last_period);
    let is_below = last < first;
    if train.pulses < 3 {
        return Drift {
            is_below,
            tenths: None,
        };
    }
    let difference = if is_below { first - last } else { last - first };
    Drift {
        is_below,
        tenths: quotient_of(100 * u128::from(difference), u128::from(first)),
    }
}

/// So many ticks in tenths of a ms; none where they last 2^64 ms or more.
pub fn tenths_of_ms(scale: Scale, ticks: u64) -> Option<u128>
    ensures { result ≡ tenths_of_ms scale ticks }
{
    let all = product(ticks, scale.ms);
    if all > u128::from(u64::MAX) {
        return None;
    }
    quotient_of(all, u128::from(scale.ticks))
}
