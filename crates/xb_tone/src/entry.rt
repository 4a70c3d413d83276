// An entry with its time.
ghost use Rattle.std.specs.Prelude.{◌≡◌, ◌≤◌, ◌*◌, length};
ghost use Rattle.xb_sound.specs.Cadences.{tone_ms};
ghost use Rattle.xb_sound.specs.Sounds.{mark_sound, sound_of};
ghost use Rattle.xb_model.specs.declared.stage.TheConstants.{MOST_OUTPUTS};
ghost use Rattle.xb_tone.specs.Entries.{is_keyed};
ghost use Rattle.xb_tone.specs.Sounds.{entry_sound};

use xb_model::{Key, LineNo, Mark, Order};
use xb_sender::marks_of;
use xb_sound::Cadence;

/// An entry of a line, and the time at which it was completed.
#[derive(Drop)]
pub struct PlacedEntry {
    /// Its line.
    pub line: LineNo,
    /// Its number among the entries of its line, from 1.
    pub number: u64,
    /// Its time, in ms from the beginning of the line's record.
    pub at_ms: u64,
    /// What was keyed, or why it was refused.
    pub order: Order,
    /// The text line that told it, from 1.
    pub text_line: u64,
}

// How many ms the tone of a key sounds.
fn tone_ms(cadence: Cadence, key: Key) -> u16
    ensures { result ≡ tone_ms cadence key }
{
    match key {
        Key::Kp => cadence.kp_ms,
        Key::Digit(_) | Key::St => cadence.key_ms,
    }
}

// How many ms a mark sounds.
fn mark_ms(cadence: Cadence, mark: &Mark) -> u64
    ensures value { result * 8 ≡ length (mark_sound cadence mark.now) }
    ensures bound { result ≤ 131070 }
{
    match mark {
        Mark::Trunk(_) => u64::from(cadence.lead_ms),
        Mark::Tone(key, _) => u64::from(tone_ms(cadence, *key)) + u64::from(cadence.gap_ms),
        Mark::Refused(_, _) => 0,
    }
}

// How many ms marks sound.
fn marks_ms(cadence: Cadence, marks: &[Mark]) -> u64
    requires { length marks.now ≤ MOST_OUTPUTS }
    ensures { result * 8 ≡ length (sound_of cadence marks.now) }
{
    let mut ms = 0u64;
    for mark in marks {
        ms += mark_ms(cadence, mark);
    }
    ms
}

impl PlacedEntry {
    /// Whether it was keyed.
    pub fn is_keyed(&self) -> bool
        ensures { result ≡ is_keyed self.now }
    {
        matches!(self.order, Order::Key(_, _))
    }

    // How many ms it sounds.
    pub(crate) fn sounds_ms(&self, cadence: Cadence) -> u64
        ensures { result * 8 ≡ length (entry_sound cadence self.now) }
    {
        let marks = marks_of(&self.order);
        marks_ms(cadence, marks.as_slice())
    }
}
