// What sounds for a time.
ghost use Rattle.std.specs.Prelude.{◌≡◌, ◌≤◌, ◌<◌, ◌++◌, ◌∷◌, [], length};
ghost use Rattle.xb_signal.specs.Segments.{pair_segment, silent};

use arrayvec::ArrayVec;
use std::marker::Model;
use xb_model::Tone;

// How many samples a ms has.
pub(crate) const SAMPLES_PER_MS: u32 = 8;

/// The most frequencies that sound together.
pub(crate) const MOST_TONES: usize = 6;

/// Frequencies that sound together, each in Hz: up to six, which take no memory of their own.
#[derive(Drop)]
pub struct Tones {
    hz: ArrayVec<u16, MOST_TONES>,
}

impl Model for Tones {
    ghost use Rattle.std.specs.Prelude.{ℕ, List, ◌≤◌, length};

    ghost Value = { List ℕ };

    ghost view = { λ tones. tones.hz.items };

    ghost invariant = { λ tones. length tones.hz.items ≤ 6 };
}

impl Tones {
    /// None.
    pub fn new() -> Tones
        ensures { result ≡ [] }
    {
        Tones {
            hz: ArrayVec::new(),
        }
    }

    /// The frequencies, in order.
    pub fn hz(&self) -> &[u16]
        ensures value { result.now ≡ self.now }
        ensures within { length self.now ≤ MOST_TONES }
    {
        &self.hz
    }

    /// One frequency more, after the others.
    pub fn push(&mut self, hz: u16)
        requires { length self.old < MOST_TONES }
        ensures { self.new ≡ self.old ++ hz ∷ [] }
    {
        self.hz.push(hz);
    }
}

/// What sounds: frequencies from a start at 0.
#[derive(Drop)]
pub enum Sound {
    /// Frequencies as they are written. It is silent where there are none.
    Written(Tones),
    /// The two frequencies of a key, which a setting may disturb.
    Keyed(Tone),
}

/// What sounds for a time.
#[derive(Drop)]
pub struct Segment {
    /// What sounds.
    pub sound: Sound,
    /// The time, in ms.
    pub ms: u16,
}

impl Segment {
    /// Silence.
    pub fn silent(ms: u16) -> Segment
        ensures { result ≡ silent ms }
    {
        Segment {
            sound: Sound::Written(Tones::new()),
            ms,
        }
    }

    /// The two frequencies of a key.
    pub fn pair(tone: Tone, ms: u16) -> Segment
        ensures { result ≡ pair_segment tone ms }
    {
        Segment {
            sound: Sound::Keyed(tone),
            ms,
        }
    }
}
