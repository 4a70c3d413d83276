// The WAV file of samples.
ghost use Rattle.std.specs.Prelude.{◌≡◌, ◌++◌, ◌<◌, ◌≤◌, ◌+◌, ◌*◌, ◌↔◌, ◌^◌, IfOk, OnOk, IfErr, IfSome, IsSome, Err, length};
ghost use Rattle.xb_sound.specs.Wavs.{wav_of, header_of, format_chunk, two_bytes, four_bytes, pcm_of, wav_length};

use crate::sine::SAMPLES_PER_SECOND;
use std::alloc::{AllocError, Global};
use thiserror::Error;

/// How many bytes a WAV file has before its samples.
pub const HEADER_BYTES: usize = 44;

// The number of the format PCM.
const PCM: u16 = 1;

// How many channels there are.
const CHANNELS: u16 = 1;

// How many bytes there are in a second.
const BYTES_PER_SECOND: u32 = 16_000;

// How many bytes a sample has.
const SAMPLE_BYTES: u16 = 2;

// How many bits a sample has.
const SAMPLE_BITS: u16 = 16;

/// Why samples make no WAV file.
#[derive(Clone, Copy, Debug, PartialEq, Eq, Error)]
pub enum WavFault {
    /// The file would have more than 4,294,967,295 bytes.
    #[error("the sound is too long for a WAV file")]
    TooLong,
    /// Memory ran out.
    #[error("out of memory")]
    NoMemory,
}

impl From<AllocError> for WavFault {
    ghost use Rattle.xb_sound.specs.declared.wav_file.WavFault.TheVariants.{NoMemory};

    ghost from_gives = { λ _ e. e ≡ NoMemory };

    fn from(_error: AllocError) -> WavFault {
        WavFault::NoMemory
    }
}

// How many bytes the samples have, where the file is not too long.
fn bytes_of_samples(samples: &[i16]) -> Option<u32>
    ensures variant { IsSome result ↔ (wav_length samples.now < 2 ^ 32) }
    ensures value { IfSome result (λ n. n ≡ 2 * length samples.now) }
    ensures fits { IfSome result (λ n. n + 44 < 2 ^ 32) }
{
    if samples.len() <= (u32::MAX as usize - HEADER_BYTES) / 2 {
        Some(samples.len() as u32 * 2)
    } else {
        None
    }
}

// Puts a number of two bytes after the bytes, the low one first.
fn push_u16(out: &mut Vec<u8>, number: u16) -> Result<(), AllocError>
    ensures { OnOk result (out.new.items ≡ out.old.items ++ two_bytes number) }
{
    out.extend_from_slice(&number.to_le_bytes())
}

// Puts a number of four bytes after the bytes, the low one first.
fn push_u32(out: &mut Vec<u8>, number: u32) -> Result<(), AllocError>
    ensures { OnOk result (out.new.items ≡ out.old.items ++ four_bytes number) }
{
    out.extend_from_slice(&number.to_le_bytes())
}

// Puts the chunk that tells the format after the bytes.
fn push_format(out: &mut Vec<u8>) -> Result<(), AllocError>
    ensures { OnOk result (out.new.items ≡ out.old.items ++ format_chunk) }
{
    out.extend_from_slice(b"fmt ")?;
    push_u32(out, 16)?;
    push_u16(out, PCM)?;
    push_u16(out, CHANNELS)?;
    push_u32(out, SAMPLES_PER_SECOND)?;
    push_u32(out, BYTES_PER_SECOND)?;
    push_u16(out, SAMPLE_BYTES)?;
    push_u16(out, SAMPLE_BITS)
}

/// Puts the header of a WAV file with so many bytes of samples after the bytes. `Err` says that memory ran out.
pub fn push_header(out: &mut Vec<u8>, sample_bytes: u32) -> Result<(), AllocError>
    requires { sample_bytes + 44 < 2 ^ 32 }
    ensures { OnOk result (out.new.items ≡ out.old.items ++ header_of sample_bytes) }
{
    out.extend_from_slice(b"RIFF")?;
    push_u32(out, sample_bytes + 36)?;
    out.extend_from_slice(b"WAVE")?;
    push_format(out)?;
    out.extend_from_slice(b"data")?;
    push_u32(out, sample_bytes)
}

/// Puts samples after the bytes, of each the low byte first. `Err` says that memory ran out.
pub fn push_samples(out: &mut Vec<u8>, samples: &[i16]) -> Result<(), AllocError>
    ensures { OnOk result (out.new.items ≡ out.old.items ++ pcm_of samples.now) }
{
    for sample in samples {
        out.extend_from_slice(&sample.to_le_bytes())?;
    }
    Ok(())
}

/// The WAV file of samples: PCM of 16 bits, one channel, 8,000 samples a second. `TooLong` comes
/// exactly where the file would have 2^32 bytes or more.
pub fn wav(alloc: Global, samples: &[i16]) -> Result<Vec<u8>, WavFault>
    ensures bytes { IfOk result (λ bytes. bytes.items ≡ wav_of samples.now) }
    ensures fits { OnOk result (wav_length samples.now < 2 ^ 32) }
    ensures too_long { (result ≡ Err WavFault.TooLong) ↔ (2 ^ 32 ≤ wav_length samples.now) }
{
    let sample_bytes = bytes_of_samples(samples).ok_or(WavFault::TooLong)?;
    let mut out = Vec::with_capacity(alloc, HEADER_BYTES + sample_bytes as usize)?;
    push_header(&mut out, sample_bytes)?;
    push_samples(&mut out, samples)?;
    Ok(out)
}
