// When each tone of a key began.
ghost use Rattle.std.specs.Prelude.{◌≡◌, ◌≤◌, ◌+◌, ◌*◌, length};
ghost use Rattle.xb_measured.specs.Onsets.{level_at, level_in, onsets_in, onsets_of, round_at, share_of, sounded};

use crate::heard::Onsets;
use crate::tones::square;
use crate::wave_sums::sums_of;
use xb_ear::Heard as HeardKey;
use xb_model::Tone;

// A window begins so many samples after the one before it.
const HOP: usize = 20;

// So many windows before the first one of a key, so much is looked at:
const BEFORE: usize = 8;

const WINDOWS: usize = 18;

// these are so many samples,
const ROUND: usize = 360;

// of which so many are looked at together,
const SPAN: usize = 160;

// then as many, so many later, and so on,
const STEP: usize = 40;

// and after so often the last, in which both tones sound throughout.
const LAST: usize = 5;

// How many thousandths of all are a tenth of a ms: they are 5 ms.
const TO_TENTHS: u32 = 20;

// The square of how much of a frequency is in samples.
fn level_in(samples: &[i16], hz: u16) -> u128
    requires { length samples.now ≤ 160 }
    ensures value { result ≡ level_in hz samples.now }
    ensures bound { result ≤ 21990232555520000000000000000 }
{
    let sums = sums_of(samples, hz, 0);
    square(sums.cosine) + square(sums.sine)
}

// How much of it is in those of a step.
fn level_at(round: &[i16], hz: u16, step: usize) -> u128
    requires all { length round.now ≡ 360 }
    requires few { step ≤ 5 }
    ensures value { result ≡ level_at hz round.now step }
    ensures bound { result ≤ 21990232555520000000000000000 }
{
    level_in(&round[STEP * step..STEP * step + SPAN], hz)
}

// How many thousandths a level is of the last one.
fn share_of(level: u128, last: u128) -> u32
    requires { level ≤ 21990232555520000000000000000 }
    ensures value { result ≡ share_of level last }
    ensures bound { result ≤ 1000 }
{
    (1_000 * level / last.max(1)).min(1_000) as u32
}

// How many tenths of a ms a tone has sounded.
fn sounded(round: &[i16], hz: u16) -> u32
    requires { length round.now ≡ 360 }
    ensures { result ≡ sounded hz round.now }
{
    let last = level_at(round, hz, LAST);
    let mut shares = 0;
    for step in 0..LAST {
        shares += share_of(level_at(round, hz, step), last);
    }
    shares / TO_TENTHS
}

// The samples round the beginning of a key, from a window on.
fn round_at(kept: &[i16], place: usize) -> &[i16]
    requires { 20 * place + 360 ≤ length kept.now }
    ensures value { result.now ≡ round_at kept.now place }
    ensures all { length result.now ≡ 360 }
{
    &kept[HOP * place..HOP * place + ROUND]
}

// When both tones began, by them.
fn onsets_in(round: &[i16], pair: Tone) -> Onsets
    requires { length round.now ≡ 360 }
    ensures { result ≡ onsets_in pair round.now }
{
    Onsets {
        low: sounded(round, pair.low),
        high: sounded(round, pair.high),
    }
}

/// When the tones of a key began, where the samples round its beginning are kept.
pub(crate) fn onsets_of(kept: &[i16], gone: u64, key: HeardKey) -> Option<Onsets>
    ensures { result ≡ onsets_of kept.now gone key }
{
    let first = key.first.saturating_sub(gone) as usize;
    if first < BEFORE {
        return None;
    }
    let place = first - BEFORE;
    let whole = kept.len() / HOP;
    if whole < WINDOWS || whole - WINDOWS < place {
        return None;
    }
    Some(onsets_in(round_at(kept, place), key.sight.pair))
}
