// Where a key is measured.
ghost use Rattle.std.specs.Prelude.{◌≡◌, ◌≤◌, ◌+◌, ◌-◌, ◌*◌, ◌/◌, IfSome, None, length};
ghost use Rattle.std.specs.List.{range_with_len};
ghost use Rattle.xb_measured.specs.Stretches.{heard_on, power_at, stretch_at, stronger_place, strongest};

use crate::heard::{Heard, MeasuredTone};
use crate::onsets::onsets_of;
use crate::tones::tone_of;
use xb_ear::{Heard as HeardKey, squares};

// A window begins so many samples after the one before it.
const HOP: usize = 20;

/// A key is measured in so many samples in a row.
pub(crate) const STRETCH: usize = 200;

// They are those of so many windows, and this more.
const MORE_WINDOWS: u64 = 6;

// The samples from a window on.
fn stretch_at(kept: &[i16], place: usize) -> &[i16]
    requires { 20 * place + 200 ≤ length kept.now }
    ensures value { result.now ≡ stretch_at kept.now place }
    ensures all { length result.now ≡ 200 }
{
    &kept[HOP * place..HOP * place + STRETCH]
}

// How much the samples from a window on hold.
fn power_at(kept: &[i16], place: usize) -> u64
    requires { 20 * place + 200 ≤ length kept.now }
    ensures { result ≡ power_at kept.now place }
{
    squares(stretch_at(kept, place))
}

// The stronger of two, of equal ones the first.
fn stronger_place(kept: &[i16], best: Option<usize>, place: usize) -> Option<usize>
    requires best { IfSome best (λ b. 20 * b + 200 ≤ length kept.now) }
    requires place { 20 * place + 200 ≤ length kept.now }
    ensures value { result ≡ stronger_place kept.now best place }
    ensures fits { IfSome result (λ b. 20 * b + 200 ≤ length kept.now) }
{
    match best {
        None => Some(place),
        Some(before) => {
            if power_at(kept, before) < power_at(kept, place) {
                Some(place)
            } else {
                Some(before)
            }
        }
    }
}

// The window from which on samples hold most, of these.
fn strongest(kept: &[i16], from: usize, to: usize) -> Option<usize>
    requires { to ≤ (length kept.now - 180) / 20 }
    ensures value { result ≡ strongest kept.now None (range_with_len from (to - from)) }
    ensures fits { IfSome result (λ b. 20 * b + 200 ≤ length kept.now) }
{
    let mut best = None;
    for place in from..to {
        best = stronger_place(kept, best, place);
    }
    best
}

/// A key with its tones, as they are measured on the samples that are kept, where so many windows before these are
/// gone.
pub(crate) fn heard_on(kept: &[i16], gone: u64, key: HeardKey, blank: u64) -> Heard
    ensures { result ≡ heard_on kept.now gone key blank }
{
    let whole = kept.len().saturating_sub(STRETCH - HOP) / HOP;
    let from = key.first.saturating_sub(gone) as usize;
    let to = key.past.saturating_sub(MORE_WINDOWS).saturating_sub(gone) as usize;
    let pair = key.sight.pair;
    let (low, high) = match strongest(kept, from, to.min(whole)) {
        Some(place) => {
            let stretch = stretch_at(kept, place);
            (tone_of(stretch, pair.low), tone_of(stretch, pair.high))
        }
        None => (
            MeasuredTone {
                hz: u32::from(pair.low),
                level: key.sight.low,
            },
            MeasuredTone {
                hz: u32::from(pair.high),
                level: key.sight.high,
            },
        ),
    };
    Heard {
        sight: key.sight,
        first: key.first,
        past: key.past,
        low,
        high,
        onsets: onsets_of(kept, gone, key),
        blank,
    }
}
