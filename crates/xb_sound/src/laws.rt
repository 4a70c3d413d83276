//! What the definitions give: each law is the contract of a function that does nothing.
ghost use Rattle.xb_sound.specs.HeardKeys.{KeyingsAreHeard, KeysAreClear, KeysAreHeard, NothingClips, TonesAreClear};
ghost use Rattle.xb_sound.specs.HeardTapes.{TapesAreHeard};
ghost use Rattle.xb_sound.specs.ReadWavs.{WavsAreReadBack};
ghost use Rattle.xb_sound.specs.SineLaws.{IsSine};
ghost use Rattle.xb_sound.specs.WorkedSounds.{FirstSamples, ShortFile, ShortKeying};
ghost use Rattle.std.specs.Prelude.{◌≡◌};
ghost use Rattle.xb_sound.specs.declared.cadence.TheConstants.{LONGEST_LEAD_MS, LONGEST_MS};

/// The table is a sine.
pub fn table_is_a_sine()
    ensures { IsSine }
{}

/// In any 10 ms of the tone of a key, just its two frequencies sound.
pub fn keys_are_clear()
    ensures keys { KeysAreClear }
    ensures tones { TonesAreClear }
{}

/// What is keyed is what a receiver hears, by any cadence that sets its tones apart.
#[tactic(auto, using(crate::proofs::HeardMarks::keys_are_heard))]
pub fn keys_are_heard()
    ensures marks { KeysAreHeard }
    ensures keyings { KeyingsAreHeard }
{}

/// Of the sound of a line's tape a receiver hears just what the line's record of pulses is keyed as.
pub fn tapes_are_heard()
    ensures { TapesAreHeard }
{}

/// No sample is too great for its type, by far.
#[tactic(auto, using(crate::proofs::Levels::nothing_clips))]
pub fn nothing_clips()
    ensures { NothingClips }
{}

/// A WAV file says how long it is, and its samples are read back.
#[tactic(auto, using(crate::proofs::ReadWavs::wavs_are_read_back))]
pub fn wavs_are_read_back()
    ensures { WavsAreReadBack }
{}

/// Some sounds, and a file.
#[tactic(auto, unfolding(crate::specs::Sines::sine_table))]
pub fn worked_sounds()
    ensures first_samples { FirstSamples }
    ensures short_keying { ShortKeying }
    ensures short_file { ShortFile }
{}

/// The longest times of a cadence, in ms.
pub fn constants()
    ensures longest_lead_ms { LONGEST_LEAD_MS ≡ 60000 }
    ensures longest_ms { LONGEST_MS ≡ 10000 }
{}
