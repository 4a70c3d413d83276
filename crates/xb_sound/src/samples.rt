// The samples of marks.
ghost use Rattle.std.specs.Prelude.{◌≡◌, ◌++◌, ◌<◌, ◌^◌, IfOk, OnOk, length, map};
ghost use Rattle.std.specs.List.{range_with_len};
ghost use Rattle.xb_sound.specs.Sines.{pair_sample};
ghost use Rattle.xb_sound.specs.Sounds.{silence, tone_sound, mark_sound, sound_of};

use crate::cadence::Cadence;
use crate::sine::pair_sample;
use std::alloc::{AllocError, Global};
use xb_model::{Mark, Tone};

// How many samples a ms has.
const SAMPLES_PER_MS: u32 = 8;

// Puts silence after the samples.
fn push_silence(samples: &mut Vec<i16>, ms: u16) -> Result<(), AllocError>
    ensures { OnOk result (samples.new.items ≡ samples.old.items ++ silence ms) }
{
    let silent = u32::from(ms) * SAMPLES_PER_MS;
    samples.resize(samples.len() + silent as usize, 0)
}

// Puts a tone after the samples.
fn push_tone(samples: &mut Vec<i16>, tone: Tone, ms: u16) -> Result<(), AllocError>
    ensures { OnOk result (samples.new.items ≡ samples.old.items ++ tone_sound tone ms) }
{
    for n in 0..u32::from(ms) * SAMPLES_PER_MS {
        samples.push(pair_sample(tone, n))?;
    }
    Ok(())
}

// Puts the sound of a mark after the samples.
pub(crate) fn push_mark(
    samples: &mut Vec<i16>,
    cadence: Cadence,
    mark: &Mark,
) -> Result<(), AllocError>
    ensures { OnOk result (samples.new.items ≡ samples.old.items ++ mark_sound cadence mark.now) }
{
    match mark {
        Mark::Trunk(_) => push_silence(samples, cadence.lead_ms),
        Mark::Tone(key, tone) => {
            push_tone(samples, *tone, cadence.tone_ms(*key))?;
            push_silence(samples, cadence.gap_ms)
        }
        Mark::Refused(_, _) => Ok(()),
    }
}

/// The samples of marks, at 8,000 a second: a trunk group is the silence before its keying, a key its
/// two frequencies at equal level and the silence after them, and a refusal nothing. `Err` says that
/// memory ran out.
pub fn samples_of(alloc: Global, marks: &[Mark], cadence: Cadence) -> Result<Vec<i16>, AllocError>
    ensures { IfOk result (λ samples. samples.items ≡ sound_of cadence marks.now) }
{
    let mut samples = Vec::new(alloc);
    for mark in marks {
        push_mark(&mut samples, cadence, mark)?;
    }
    Ok(samples)
}

/// Fills the room with the first samples of a tone, for a caller that has no memory to give.
pub fn fill_tone(tone: Tone, room: &mut [i16])
    requires { length room.old < 2 ^ 32 }
    ensures { room.new ≡ map (λ n. pair_sample tone n) (range_with_len 0 (length room.old)) }
{
    for n in 0..room.len() {
        room[n] = pair_sample(tone, n as u32);
    }
}
