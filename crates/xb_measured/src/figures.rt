// The figures of a key.
ghost use Rattle.std.specs.Prelude.{◌≡◌};
ghost use Rattle.xb_measured.specs.Figures.{end_ms, figures_of, gap_ms, hole_ms, length_ms, ms_of, start_ms};

use crate::heard::{Heard, Onsets};
use crate::levels::tenths_of;
use crate::meaning::Meaning;
use xb_model::Tone;

// A window begins so many samples after the one before it, and a key as many after its first window.
const HOP: u128 = 20;

// The last window of a key begins one hop before the next, and has so many samples in it beyond that.
const PAST_HOP: u128 = 40;

const SAMPLES_PER_MS: u128 = 8;

/// The figures of a key that was heard.
#[derive(Clone, Copy, Debug, PartialEq, Eq)]
pub struct Figures {
    /// The two frequencies that it should have.
    pub pair: Tone,
    /// What they stand for.
    pub meaning: Meaning,
    /// When it began, in ms from the first sample.
    pub start_ms: u64,
    /// How long it lasted.
    pub length_ms: u64,
    /// The frequency of its lower tone, in Hz.
    pub low_hz: u32,
    /// That of the higher one.
    pub high_hz: u32,
    /// The level of the lower tone, in tenths of a dB, of which 872 are 0 dBm0.
    pub low: u32,
    /// The level of the higher one.
    pub high: u32,
    /// The time between the last key before it and this one; `None` of the first key.
    pub gap_ms: Option<u64>,
    /// When its tones began, where that is known.
    pub onsets: Option<Onsets>,
    /// How long the holes in it are together, in ms; 0 where there is none.
    pub hole_ms: u64,
}

// So many samples in ms, rounded down; counting stops at the greatest number that there is.
fn ms_of(samples: u128) -> u64
    ensures { result ≡ ms_of samples }
{
    (samples / SAMPLES_PER_MS).min(u128::from(u64::MAX)) as u64
}

/// When a key began, in ms from the first sample.
pub(crate) fn start_ms(key: Heard) -> u64
    ensures { result ≡ start_ms key }
{
    ms_of(HOP * u128::from(key.first) + HOP)
}

/// When a key ended, in ms from the first sample.
pub(crate) fn end_ms(key: Heard) -> u64
    ensures { result ≡ end_ms key }
{
    ms_of(HOP * u128::from(key.past) + PAST_HOP)
}

/// How long a key lasted, in ms.
pub(crate) fn length_ms(key: Heard) -> u64
    ensures { result ≡ length_ms key }
{
    ms_of(HOP * u128::from(key.past.saturating_sub(key.first)) + HOP)
}

/// The time between the last key and this one, in ms.
pub(crate) fn gap_ms(before: Option<Heard>, key: Heard) -> Option<u64>
    ensures { result ≡ gap_ms before key }
{
    let before = before?;
    let windows = u128::from(key.first.saturating_sub(before.past));
    Some(ms_of((HOP * windows).saturating_sub(HOP)))
}

// How long its holes are together.
fn hole_ms(key: Heard) -> u64
    ensures { result ≡ hole_ms key }
{
    ms_of(HOP * u128::from(key.blank))
}

/// The figures of a key, by the last key before it.
pub fn figures_of(before: Option<Heard>, key: Heard) -> Figures
    ensures { result ≡ figures_of before key }
{
    Figures {
        pair: key.sight.pair,
        meaning: Meaning::of(key.sight.pair),
        start_ms: start_ms(key),
        length_ms: length_ms(key),
        low_hz: key.low.hz,
        high_hz: key.high.hz,
        low: tenths_of(key.low.level),
        high: tenths_of(key.high.level),
        gap_ms: gap_ms(before, key),
        onsets: key.onsets,
        hole_ms: hole_ms(key),
    }
}
