// What a word of a signal says.
ghost use Rattle.std.specs.Prelude.{◌≡◌, ◌++◌, OnOk};
ghost use Rattle.std.specs.List.{list_all};
ghost use Rattle.xb_signal.specs.Words.{digit_segments, is_digits, key_segments, number_within, segment_of, tones_of};

use crate::key_name::{Name, name_ms, pair_of};
use crate::segment::{MOST_TONES, Segment, Sound, Tones};
use std::alloc::AllocError;
use xb_contact::{is_digit, number_of};
use xb_model::{Digit, Key};
use xb_sound::Cadence;
use xb_text::{cut_at, first_piece};

/// The highest frequency, in Hz.
pub const MOST_HZ: u16 = 3_999;

/// The longest tone and the longest silence of a word, in ms.
pub(crate) const MOST_MS: u16 = 60_000;

// The number that digits write, from 1 to the most.
fn number_within(most: u16, text: &[u8]) -> Option<u16>
    ensures { result ≡ number_within most text.now }
{
    let number = number_of(text)?;
    if 1 <= number && number <= u64::from(most) {
        Some(number as u16)
    } else {
        None
    }
}

// The frequencies that a text has between `+`: one to six.
fn tones_of(text: &[u8]) -> Option<Tones>
    ensures { result ≡ tones_of text.now }
{
    let mut tones = Tones::new();
    let mut left = Some(text);
    while let Some(rest) = left {
        let (piece, later) = first_piece(b'+', rest);
        left = later;
        let hz = number_within(MOST_HZ, piece)?;
        if tones.hz().len() == MOST_TONES {
            return None;
        }
        tones.push(hz);
    }
    Some(tones)
}

// What sounds for a time: `silence:MS`, or frequencies, as `HZ+HZ:MS`.
pub(crate) fn segment_of(word: &[u8]) -> Option<Segment>
    ensures { result ≡ segment_of word.now }
{
    let (what, time) = cut_at(b':', word)?;
    let ms = number_within(MOST_MS, time)?;
    if what == b"silence".as_slice() {
        Some(Segment::silent(ms))
    } else {
        let sound = Sound::Written(tones_of(what)?);
        Some(Segment { sound, ms })
    }
}

// Whether a word is digits.
pub(crate) fn is_digits(word: &[u8]) -> bool
    ensures { result ≡ is_digits word.now }
{
    word.iter().all(|byte| is_digit(*byte))
}

// Puts a key after the segments: its tone, and the silence after it.
pub(crate) fn push_key(
    segments: &mut Vec<Segment>,
    cadence: Cadence,
    name: &Name,
) -> Result<(), AllocError>
    ensures { OnOk result (segments.new.items ≡ segments.old.items ++ key_segments cadence name.now) }
{
    let gap = Segment::silent(cadence.gap_ms);
    let tone = pair_of(name);
    let ms = name_ms(cadence, name);
    let sounding = Segment::pair(tone, ms);
    segments.push(sounding)?;
    segments.push(gap)?;
    Ok(())
}
