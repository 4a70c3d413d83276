// The last samples of a sound.
ghost use Rattle.std.specs.Prelude.{◌≡◌, ◌≤◌, ◌-◌, take, drop, length};

use crate::heard::Heard;
use crate::strongest_stretch::heard_on;
use std::marker::Model;
use xb_ear::Heard as HeardKey;

// So many samples are kept at most: those of a key of 120 ms, the 20 ms before it, and what comes before its end is known.
const KEPT: usize = 1_420;

// They go on by so many, which is a window.
const HOP: usize = 20;

// So many are written one after the other before those that are kept move back to the beginning.
const ROOM: usize = 8_320;

/// The last 1,400 to 1,419 samples of a sound, which begin with a window.
#[derive(Drop)]
pub(crate) struct LastSamples {
    samples: [i16; ROOM],
    begun: usize,
    filled: usize,
    // how many windows before them are gone
    gone: u64,
}

// Clauses see the samples, and how many windows are gone.
impl Model for LastSamples {
    ghost use Rattle.std.specs.Prelude.{◌<◌, ◌≤◌, ◌+◌, drop, take};
    ghost use Rattle.xb_measured.specs.Tapes.{Taped};

    ghost Value = { Taped };

    ghost view = { λ tape. record { kept = drop tape.begun (take tape.filled tape.samples); gone = tape.gone } };

    ghost invariant = { λ tape.
        (tape.begun + 1420 ≤ 8320) × (tape.begun ≤ tape.filled) × (tape.filled < tape.begun + 1420) };
}

// Moves the samples from one place to another back to the beginning.
fn move_back(samples: &mut [i16], begun: usize, filled: usize)
    requires order { begun ≤ filled }
    requires within { filled ≤ length samples.old }
    ensures moved { take (filled - begun) samples.new ≡ drop begun (take filled samples.old) }
    ensures all { length samples.new ≡ length samples.old }
{
    samples.copy_within(begun..filled, 0);
}

impl LastSamples {
    ghost use Rattle.std.specs.Prelude.{◌≡◌, [], ◌∷◌, ◌++◌, List, ℤ};
    ghost use Rattle.xb_measured.specs.Stretches.{heard_on};
    ghost use Rattle.xb_measured.specs.Tapes.{IsTapeOf};

    /// Before the first sample.
    pub(crate) fn new() -> LastSamples
        ensures { IsTapeOf result [] }
    {
        LastSamples {
            samples: [0; ROOM],
            begun: 0,
            filled: 0,
            gone: 0,
        }
    }

    /// Takes a sample.
    pub(crate) fn take(&mut self, sample: i16)
        ensures { (samples : List ℤ) → IsTapeOf self.old samples
            → IsTapeOf self.new (samples ++ sample ∷ []) }
    {
        self.samples[self.filled] = sample;
        self.filled += 1;
        if self.filled - self.begun < KEPT {
            return;
        }
        self.begun += HOP;
        self.gone = self.gone.saturating_add(1);
        if self.begun + KEPT <= ROOM {
            return;
        }
        move_back(&mut self.samples, self.begun, self.filled);
        self.filled -= self.begun;
        self.begun = 0;
    }

    /// A key that is given now, with its tones; so many of its windows were blank.
    pub(crate) fn measure(&self, key: HeardKey, blank: u64) -> Heard
        ensures { result ≡ heard_on self.now.kept self.now.gone key blank }
    {
        heard_on(
            &self.samples[self.begun..self.filled],
            self.gone,
            key,
            blank,
        )
    }
}
