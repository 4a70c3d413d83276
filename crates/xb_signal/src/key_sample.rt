// One sample of a key, whose two tones may be disturbed.
ghost use Rattle.std.specs.Prelude.{◌≡◌, ◌≤◌, unsigned_abs};
ghost use Rattle.xb_signal.specs.Shapes.{drawn, is_in_hole, keyed_sample, late_sample, starts_of, tuned, wave_from};

use crate::segment::SAMPLES_PER_MS;
use crate::shape::Shape;
use crate::wave::{scaled, wave_at};
use xb_chance::{state_after, word_of};
use xb_model::Tone;

// A frequency at a pitch in thousandths, to the nearest whole Hz, and a half up.
fn tuned(pitch: u16, hz: u16) -> u32
    ensures { result ≡ tuned pitch hz }
{
    (u32::from(hz) * u32::from(pitch) + 500) / 1_000
}

// The places of a period of 1 Hz at which the tones of a key begin.
#[derive(Clone, Copy)]
struct Starts {
    low: u16,
    high: u16,
}

// A place that is drawn: by a word of the generator that begins in the word of a state.
fn drawn(state: u64, steps: u32) -> u16
    ensures { result ≡ drawn state steps }
{
    let word = word_of(state_after(word_of(state), steps));
    (word % 8_000) as u16
}

// Where the tones of a key begin that is sent in a state of the noise.
fn starts_of(shape: &Shape, state: u64) -> Starts
    ensures { result ≡ starts_of shape.now state }
{
    if shape.is_drawn {
        Starts {
            low: drawn(state, 1),
            high: drawn(state, 2),
        }
    } else {
        Starts { low: 0, high: 0 }
    }
}

// Sample n of a frequency from a place on.
fn wave_from(place: u16, hz: u32, n: u32) -> i16
    ensures value { result ≡ wave_from place hz n }
    ensures bound { unsigned_abs result ≤ 10000 }
{
    let reached = (u64::from(place) + u64::from(hz) * u64::from(n)) % 8_000;
    wave_at(reached as usize)
}

// Sample n of a frequency that begins so many ms late, at a place, and is silent before.
fn late_sample(late_ms: u16, place: u16, hz: u32, n: u32) -> i16
    ensures value { result ≡ late_sample late_ms place hz n }
    ensures bound { unsigned_abs result ≤ 10000 }
{
    let late = u32::from(late_ms) * SAMPLES_PER_MS;
    if n < late {
        0
    } else {
        wave_from(place, hz, n - late)
    }
}

// Whether sample n of a key lies in its hole.
fn is_in_hole(shape: &Shape, n: u32) -> bool
    ensures { result ≡ is_in_hole shape.now n }
{
    let from = u32::from(shape.hole_from_ms) * SAMPLES_PER_MS;
    let end = (u32::from(shape.hole_from_ms) + u32::from(shape.hole_ms)) * SAMPLES_PER_MS;
    from <= n && n < end
}

// Sample n of a key that is sent in a state of the noise, its low tone at one amplitude and its high one at the other.
pub(crate) fn keyed_sample(
    low: u16,
    high: u16,
    shape: &Shape,
    state: u64,
    pair: Tone,
    n: u32,
) -> i32
    ensures value { result ≡ keyed_sample low high shape.now state pair n }
    ensures bound { unsigned_abs result ≤ 131070 }
{
    if is_in_hole(shape, n) {
        return 0;
    }
    let starts = starts_of(shape, state);
    let (low_hz, high_hz) = (tuned(shape.pitch, pair.low), tuned(shape.pitch, pair.high));
    let low_sample = late_sample(shape.low_late_ms, starts.low, low_hz, n);
    let high_sample = late_sample(shape.high_late_ms, starts.high, high_hz, n);
    scaled(low, low_sample) + scaled(high, high_sample)
}
