// Sound that is written as it is made.
ghost use Rattle.std.specs.Prelude.{◌≡◌, ◌≢◌, ◌<◌, ◌≤◌, ◌+◌, ◌*◌, ◌↔◌, ◌^◌, ◌-◌, ◌++◌, OnOk, IfErr, IfSome, IsSome, Err, length, min};
ghost use Rattle.std.specs.Io.KnownBytes.{Appends, Keeps};
ghost use Rattle.xb_text.specs.Writing.{AppendsBeginning};
ghost use Rattle.xb_sound.specs.Sounds.{mark_sound, sound_of};
ghost use Rattle.xb_sound.specs.Wavs.{header_of, pcm_of, wav_length, wav_of};

use crate::cadence::Cadence;
use crate::samples::push_mark;
use crate::wav_file::{HEADER_BYTES, push_header, push_samples};
use std::alloc::{AllocError, Global};
use std::io::Write;
use thiserror::Error;
use xb_model::Mark;
use xb_text::{WriteFault, write_whole};

// How many samples a ms has.
const SAMPLES_PER_MS: u64 = 8;

/// Why sound was not written whole.
#[derive(Clone, Copy, Debug, PartialEq, Eq, Error)]
pub enum SoundFault {
    /// The file would have more than 4,294,967,295 bytes. Nothing was written.
    #[error("the sound is too long for a WAV file")]
    TooLong,
    /// Memory ran out. The beginning of the sound was written.
    #[error("out of memory")]
    NoMemory,
    /// A write or the flush failed, or a write took no byte. The beginning of the sound was written.
    #[error("the sound could not be written")]
    Write,
}

impl From<AllocError> for SoundFault {
    ghost use Rattle.std.specs.Prelude.{◌≡◌};
    ghost use Rattle.xb_sound.specs.declared.sounding.SoundFault.TheVariants.{NoMemory};

    ghost from_gives = { λ _ e. e ≡ NoMemory };

    fn from(_error: AllocError) -> SoundFault {
        SoundFault::NoMemory
    }
}

impl From<WriteFault> for SoundFault {
    ghost use Rattle.std.specs.Prelude.{◌≡◌};
    ghost use Rattle.xb_sound.specs.declared.sounding.SoundFault.TheVariants.{Write};

    ghost from_gives = { λ _ e. e ≡ Write };

    fn from(_fault: WriteFault) -> SoundFault {
        SoundFault::Write
    }
}

// How many samples a mark sounds.
fn mark_length(cadence: Cadence, mark: &Mark) -> u64
    ensures { result ≡ length (mark_sound cadence mark.now) }
{
    match mark {
        Mark::Trunk(_) => u64::from(cadence.lead_ms) * SAMPLES_PER_MS,
        Mark::Tone(key, _) => {
            let tone = u64::from(cadence.tone_ms(*key)) * SAMPLES_PER_MS;
            tone + u64::from(cadence.gap_ms) * SAMPLES_PER_MS
        }
        Mark::Refused(_, _) => 0,
    }
}

// How many samples marks sound; 2^64 - 1 where they are more.
fn sound_length(cadence: Cadence, marks: &[Mark]) -> u64
    ensures { result ≡ min (length (sound_of cadence marks.now)) (2 ^ 64 - 1) }
{
    let mut samples = 0u64;
    for mark in marks {
        samples = samples.saturating_add(mark_length(cadence, mark));
    }
    samples
}

// How many bytes the samples of marks have, where a WAV file has room for them.
fn bytes_of_sound(cadence: Cadence, marks: &[Mark]) -> Option<u32>
    ensures variant { IsSome result ↔ (wav_length (sound_of cadence marks.now) < 2 ^ 32) }
    ensures value { IfSome result (λ n. n ≡ 2 * length (sound_of cadence marks.now)) }
    ensures fits { IfSome result (λ n. n + 44 < 2 ^ 32) }
{
    let samples = sound_length(cadence, marks);
    if samples <= (u64::from(u32::MAX) - HEADER_BYTES as u64) / 2 {
        Some(samples as u32 * 2)
    } else {
        None
    }
}

// Writes the samples of a mark.
fn write_mark<W: Write>(
    alloc: Global,
    out: &mut W,
    mark: &Mark,
    cadence: Cadence,
) -> Result<(), SoundFault>
    ensures whole { OnOk result
        (Appends (W.contents out.old) (W.contents out.new) (pcm_of (mark_sound cadence mark.now))) }
    ensures beginning { AppendsBeginning (W.contents out.old) (W.contents out.new)
        (pcm_of (mark_sound cadence mark.now)) }
    ensures fits { IfErr result (λ fault. fault ≢ SoundFault.TooLong) }
{
    let mut samples = Vec::new(alloc);
    push_mark(&mut samples, cadence, mark)?;
    let mut bytes = Vec::new(alloc);
    push_samples(&mut bytes, &samples)?;
    write_whole(out, &bytes)?;
    Ok(())
}

/// Writes the samples of marks (16 bits, the low byte first, 8,000 a second), one mark after the other.
/// It holds the samples of one mark at a time. On an `Err` the beginning of them was written.
pub fn write_samples<W: Write>(
    alloc: Global,
    out: &mut W,
    marks: &[Mark],
    cadence: Cadence,
) -> Result<(), SoundFault>
    ensures whole { OnOk result
        (Appends (W.contents out.old) (W.contents out.new) (pcm_of (sound_of cadence marks.now))) }
    ensures beginning { AppendsBeginning (W.contents out.old) (W.contents out.new)
        (pcm_of (sound_of cadence marks.now)) }
    ensures fits { IfErr result (λ fault. fault ≢ SoundFault.TooLong) }
{
    for mark in marks {
        write_mark(alloc, out, mark, cadence)?;
    }
    Ok(())
}

// Writes the header of a file with so many bytes of samples.
fn write_header<W: Write>(alloc: Global, out: &mut W, sample_bytes: u32) -> Result<(), SoundFault>
    requires { sample_bytes + 44 < 2 ^ 32 }
    ensures whole { OnOk result
        (Appends (W.contents out.old) (W.contents out.new) (header_of sample_bytes)) }
    ensures beginning { AppendsBeginning (W.contents out.old) (W.contents out.new)
        (header_of sample_bytes) }
    ensures fits { IfErr result (λ fault. fault ≢ SoundFault.TooLong) }
{
    let mut header = Vec::new(alloc);
    push_header(&mut header, sample_bytes)?;
    write_whole(out, &header)?;
    Ok(())
}

// Writes the header of a file with so many bytes of samples, and then the samples of marks.
fn write_file<W: Write>(
    alloc: Global,
    out: &mut W,
    sample_bytes: u32,
    marks: &[Mark],
    cadence: Cadence,
) -> Result<(), SoundFault>
    requires { sample_bytes + 44 < 2 ^ 32 }
    ensures whole { OnOk result (Appends (W.contents out.old) (W.contents out.new)
        (header_of sample_bytes ++ pcm_of (sound_of cadence marks.now))) }
    ensures beginning { AppendsBeginning (W.contents out.old) (W.contents out.new)
        (header_of sample_bytes ++ pcm_of (sound_of cadence marks.now)) }
    ensures fits { IfErr result (λ fault. fault ≢ SoundFault.TooLong) }
{
    write_header(alloc, out, sample_bytes)?;
    write_samples(alloc, out, marks, cadence)
}

/// Writes the WAV file of the sound of marks: PCM of 16 bits, one channel, 8,000 samples a second. It
/// holds the samples of one mark at a time: the length in the header is summed before. `TooLong` comes
/// exactly where the file would have 2^32 bytes or more, and then nothing was written; on another `Err`
/// the beginning of the file was.
pub fn write_wav<W: Write>(
    alloc: Global,
    out: &mut W,
    marks: &[Mark],
    cadence: Cadence,
) -> Result<(), SoundFault>
    ensures whole { OnOk result (Appends (W.contents out.old) (W.contents out.new)
        (wav_of (sound_of cadence marks.now))) }
    ensures beginning { AppendsBeginning (W.contents out.old) (W.contents out.new)
        (wav_of (sound_of cadence marks.now)) }
    ensures too_long { (result ≡ Err SoundFault.TooLong)
        ↔ (2 ^ 32 ≤ wav_length (sound_of cadence marks.now)) }
    ensures untouched { result ≡ Err SoundFault.TooLong → Keeps (W.contents out.old) (W.contents out.new) }
{
    let sample_bytes = bytes_of_sound(cadence, marks).ok_or(SoundFault::TooLong)?;
    write_file(alloc, out, sample_bytes, marks, cadence)
}
