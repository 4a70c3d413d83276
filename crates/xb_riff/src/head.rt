// The head of a WAV file.
ghost use Rattle.std.specs.Prelude.{◌≡◌, ◌<◌, ◌≤◌, ◌^◌, ◌∷◌, [], ℕ, min, IfErr, IfOk, IfSome, None, Err, OnErr, length, take};
ghost use Rattle.xb_riff.specs.Heads.{FollowsPart, IsAfter, IsFormat, IsGathered, IsNewHead, RefusesHead, TakesByte, TakesHead, byte_at, coding_of, format_of, is_riff, kind_of, length_of, long_at, padded, part_length, passed, rest_of, short_at};

use crate::coding::Coding;
use arrayvec::ArrayVec;
use std::fmt;
use std::marker::Model;
use thiserror::Error;

// The most channels.
const MOST_CHANNELS: u16 = 8;

// From here on a length says that it was not known when the head was written.
const LENGTH_IS_NOT_KNOWN: u32 = 0x7fff_0000;

// The number of a format that is extended.
const EXTENSIBLE: u16 = 0xfffe;

// The fewest bytes of a chunk `fmt `.
const LEAST_FORMAT_BYTES: u32 = 16;

// All that a chunk `fmt ` says stands in so many bytes.
const MOST_FORMAT_BYTES: usize = 26;

/// Why bytes begin no WAV file whose samples can be read.
#[derive(Clone, Copy, Debug, PartialEq, Eq, Error)]
pub enum HeadFault {
    /// It does not begin with RIFF, a length and WAVE.
    NotWav,
    /// The samples come before a chunk `fmt `, or that chunk has fewer than 16 bytes.
    NoFormat,
    /// The samples are written by no `Coding`: the format's number, and the bits of a sample.
    Coding(u16, u16),
    /// There are not 1 to 8 channels.
    Channels(u16),
    /// The samples of all channels have other bytes than the format counts: those that it counts, and those that they have.
    Block(u16, u16),
    /// The file ends before its samples.
    NoData,
}

impl fmt::Display for HeadFault {
    ghost use Rattle.std.specs.Prelude.{Some};
    ghost use Rattle.xb_riff.specs.FaultTexts.{head_text};

    ghost output = { λ fault. Some (head_text fault) };

    fn fmt<W: fmt::Write>(&self, f: &mut fmt::Formatter<W>) -> fmt::Result {
        match self {
            HeadFault::NotWav => f.write_str("its first 12 bytes are not those of a WAV file"),
            HeadFault::NoFormat => f.write_str(
                "no chunk \"fmt \" says how the samples are written",
            ),
            HeadFault::Coding(format, bits) => write!(
                f,
                "the chunk \"fmt \" has format {format} of {bits} bits, and not 1 of 8, 16, 24 or 32, 3 of 32, or 6 or 7 of 8: sox IN.wav -e signed -b 16 OUT.wav"
            ),
            HeadFault::Channels(channels) => write!(
                f,
                "the chunk \"fmt \" has {channels} channels, and not 1 to 8: sox IN.wav OUT.wav remix 1"
            ),
            HeadFault::Block(counted, had) => write!(
                f,
                "the chunk \"fmt \" counts {counted} bytes for the samples of all channels, which have {had}"
            ),
            HeadFault::NoData => f.write_str("no chunk \"data\" has samples"),
        }
    }
}

// Where a head stands.
#[derive(Clone, Copy, Debug)]
enum HeadPlace {
    // In the first 12 bytes.
    Beginning,
    // In the name and the length of a chunk.
    Chunk,
    // In the chunk that says how the samples are, of so many bytes with its last odd one.
    Format(u64),
    // In a chunk that is passed over, of which so many bytes are left.
    Passed(u64),
}

/// How the samples of a WAV file are.
#[derive(Clone, Copy, Debug, PartialEq, Eq)]
pub struct WavFormat {
    /// How each is written.
    pub coding: Coding,
    /// How many channels there are, 1 to 8.
    pub channels: u8,
    /// How many samples a second each has.
    pub rate: u32,
    /// How many bytes the samples have, where the head says it.
    pub length: Option<u64>,
}

// A byte; 0 where none is.
fn byte_at(bytes: &[u8], at: usize) -> u8
    ensures { result ≡ byte_at bytes.now at }
{
    match bytes.get(at) {
        Some(byte) => *byte,
        None => 0,
    }
}

// Two bytes as a number, the lower one first.
fn short_at(bytes: &[u8], at: usize) -> u16
    requires { at < 2 ^ 32 }
    ensures { result ≡ short_at bytes.now at }
{
    u16::from_le_bytes([byte_at(bytes, at), byte_at(bytes, at + 1)])
}

// Four bytes as a number, the lowest one first.
fn long_at(bytes: &[u8], at: usize) -> u32
    requires { at < 2 ^ 32 }
    ensures { result ≡ long_at bytes.now at }
{
    u32::from_le_bytes([
        byte_at(bytes, at),
        byte_at(bytes, at + 1),
        byte_at(bytes, at + 2),
        byte_at(bytes, at + 3),
    ])
}

// The number of a format; an extended one has it further on.
fn kind_of(chunk: &[u8]) -> u16
    ensures { result ≡ kind_of chunk.now }
{
    let kind = short_at(chunk, 0);
    if kind == EXTENSIBLE {
        short_at(chunk, 24)
    } else {
        kind
    }
}

// How the samples of a format are written.
fn coding_of(kind: u16, bits: u16) -> Option<Coding>
    ensures { result ≡ coding_of kind bits }
{
    match (kind, bits) {
        (1, 8) => Some(Coding::Unsigned8),
        (1, 16) => Some(Coding::Signed16),
        (1, 24) => Some(Coding::Signed24),
        (1, 32) => Some(Coding::Signed32),
        (3, 32) => Some(Coding::Float32),
        (6, 8) => Some(Coding::ALaw),
        (7, 8) => Some(Coding::MuLaw),
        _ => None,
    }
}

// What a chunk `fmt ` says.
fn format_of(chunk: &[u8]) -> Result<WavFormat, HeadFault>
    ensures value { result ≡ format_of chunk.now }
    ensures within { IfOk result IsFormat }
{
    let (kind, bits) = (kind_of(chunk), short_at(chunk, 14));
    let channels = short_at(chunk, 2);
    let rate = long_at(chunk, 4);
    let coding = coding_of(kind, bits).ok_or(HeadFault::Coding(kind, bits))?;
    if channels == 0 || channels > MOST_CHANNELS {
        return Err(HeadFault::Channels(channels));
    }
    let block = channels * coding.width() as u16;
    if short_at(chunk, 12) != block {
        return Err(HeadFault::Block(short_at(chunk, 12), block));
    }
    Ok(WavFormat {
        coding,
        channels: channels as u8,
        rate,
        length: None,
    })
}

// The bytes of the samples, where a head says them: a program that writes to a pipe says 2 GB and more.
fn length_of(size: u32) -> Option<u64>
    ensures value { result ≡ length_of size }
    ensures bound { IfSome result (λ size. size < 2147418112) }
{
    if size < LENGTH_IS_NOT_KNOWN {
        Some(u64::from(size))
    } else {
        None
    }
}

// A file begins with RIFF, a length and WAVE.
fn is_riff(head: &[u8]) -> bool
    ensures { result ≡ is_riff head.now }
{
    head.starts_with(b"RIFF") && head.ends_with(b"WAVE")
}

// A chunk of an odd length has a byte more.
fn padded(size: u32) -> u64
    ensures { result ≡ padded size }
{
    u64::from(size) + u64::from(size % 2)
}

// So many bytes are passed over, where there are any.
fn passed(left: u64) -> HeadPlace
    ensures { result ≡ passed left }
{
    if left > 0 {
        HeadPlace::Passed(left)
    } else {
        HeadPlace::Chunk
    }
}

// What follows a part of a head.
#[derive(Clone, Copy, Debug)]
enum After {
    // Samples that are so.
    Samples(WavFormat),
    // Another part; how the samples are, if it is known, and its place.
    Part(Option<WavFormat>, HeadPlace),
}

// What follows the first 12 bytes.
fn after_beginning(head: &[u8], found: Option<WavFormat>) -> Result<After, HeadFault>
    requires { length head.now ≡ 12 }
    ensures says { FollowsPart HeadPlace.Beginning found head.now result }
    ensures within { IfOk result IsAfter }
{
    if is_riff(head) {
        Ok(After::Part(None, HeadPlace::Chunk))
    } else {
        Err(HeadFault::NotWav)
    }
}

// What follows the name and the length of a chunk.
fn after_chunk(chunk: &[u8], found: Option<WavFormat>) -> Result<After, HeadFault>
    requires whole { length chunk.now ≡ 8 }
    requires known { IfSome found IsFormat }
    ensures says { FollowsPart HeadPlace.Chunk found chunk.now result }
    ensures within { IfOk result IsAfter }
{
    let size = long_at(chunk, 4);
    if chunk.starts_with(b"data") {
        return match found {
            Some(format) => Ok(After::Samples(WavFormat {
                length: length_of(size),
                ..format
            })),
            None => Err(HeadFault::NoFormat),
        };
    }
    if !chunk.starts_with(b"fmt ") {
        return Ok(After::Part(found, passed(padded(size))));
    }
    if size < LEAST_FORMAT_BYTES {
        return Err(HeadFault::NoFormat);
    }
    Ok(After::Part(found, HeadPlace::Format(padded(size))))
}

// What follows the bytes of a chunk `fmt ` that say how the samples are.
fn after_format(chunk: &[u8], size: u64, found: Option<WavFormat>) -> Result<After, HeadFault>
    requires { length chunk.now ≡ min size 26 }
    ensures says { FollowsPart (HeadPlace.Format size) found chunk.now result }
    ensures within { IfOk result IsAfter }
{
    let format = format_of(chunk)?;
    Ok(After::Part(Some(format), passed(size - chunk.len() as u64)))
}

// What follows a part.
fn after_part(part: &[u8], place: HeadPlace, found: Option<WavFormat>) -> Result<After, HeadFault>
    requires gathered { IsGathered place }
    requires whole { length part.now ≡ part_length place }
    requires known { IfSome found IsFormat }
    ensures says { FollowsPart place found part.now result }
    ensures within { IfOk result IsAfter }
{
    match place {
        HeadPlace::Beginning => after_beginning(part, found),
        HeadPlace::Chunk => after_chunk(part, found),
        HeadPlace::Format(size) => after_format(part, size, found),
        HeadPlace::Passed(_) => Ok(After::Part(found, place)),
    }
}

// How many bytes a part has, of those that are gathered.
fn part_length(place: HeadPlace) -> u64
    ensures { result ≡ part_length place }
{
    match place {
        HeadPlace::Beginning => 12,
        HeadPlace::Chunk => 8,
        HeadPlace::Format(size) => size.min(MOST_FORMAT_BYTES as u64),
        HeadPlace::Passed(_) => 0,
    }
}

/// The reader of the head of a WAV file, up to its samples.
#[derive(Debug, Drop)]
pub struct WavHead {
    place: HeadPlace,
    found: Option<WavFormat>,
    gathered: ArrayVec<u8, MOST_FORMAT_BYTES>,
}

impl Model for WavHead {
    ghost use Rattle.xb_riff.specs.Heads.{HeadSoFar, IsWithin, so_far};

    ghost Value = { HeadSoFar };

    ghost view = { λ s. so_far s.place s.found s.gathered.items };

    ghost invariant = { λ s. IsWithin s.place s.found s.gathered.items };
}

impl WavHead {
    /// A reader that has read nothing.
    pub fn new() -> WavHead
        ensures { IsNewHead result }
    {
        WavHead {
            place: HeadPlace::Beginning,
            found: None,
            gathered: ArrayVec::new(),
        }
    }

    // A byte of a part that is gathered.
    fn gather(&mut self, byte: u8) -> Result<Option<WavFormat>, HeadFault>
        requires { IsGathered self.old.place }
        ensures taken { IfOk result (λ found. TakesByte self.old byte found self.new) }
        ensures within { IfOk result (λ found. IfSome found IsFormat) }
        ensures refused { IfErr result (RefusesHead self.old (byte ∷ [])) }
        ensures kept { OnErr result (self.new ≡ self.old) }
    {
        self.gathered.push(byte);
        if (self.gathered.len() as u64) < part_length(self.place) {
            return Ok(None);
        }
        match after_part(&self.gathered, self.place, self.found) {
            Ok(After::Samples(format)) => {
                self.gathered.clear();
                Ok(Some(format))
            }
            Ok(After::Part(found, place)) => {
                self.gathered.clear();
                self.found = found;
                self.place = place;
                Ok(None)
            }
            Err(fault) => {
                let _byte: Option<u8> = self.gathered.pop();
                Err(fault)
            }
        }
    }

    /// Takes a byte. With the last one before the samples it returns how they are. A byte is refused where no file that
    /// begins so has samples that can be read, by the fault of each; the reader then stands before it.
    pub fn take_byte(&mut self, byte: u8) -> Result<Option<WavFormat>, HeadFault>
        ensures taken { IfOk result (λ found. TakesByte self.old byte found self.new) }
        ensures within { IfOk result (λ found. IfSome found IsFormat) }
        ensures refused { IfErr result (RefusesHead self.old (byte ∷ [])) }
        ensures kept { OnErr result (self.new ≡ self.old) }
    {
        match self.place {
            HeadPlace::Passed(left) => {
                self.place = passed(left - 1);
                Ok(None)
            }
            HeadPlace::Beginning | HeadPlace::Chunk | HeadPlace::Format(_) => self.gather(byte),
        }
    }

    /// Takes bytes. Where the samples begin among them, it returns how they are, and how many bytes stand before
    /// them. After an `Err` it stands before the byte that is refused.
    pub fn take(&mut self, bytes: &[u8]) -> Result<Option<(WavFormat, usize)>, HeadFault>
        ensures taken { IfOk result (λ found. TakesHead self.old bytes.now found self.new) }
        ensures within { IfOk result (λ found. IfSome found (λ samples. samples.1 ≤ length bytes.now)) }
        ensures format { IfOk result (λ found. IfSome found (λ samples. IsFormat samples.0)) }
        ensures refused { IfErr result (RefusesHead self.old bytes.now) }
        ensures stands { OnErr result ((n : ℕ) × (n < length bytes.now)
            × TakesHead self.old (take n bytes.now) None self.new) }
    {
        for (i, byte) in bytes.iter().enumerate() {
            if let Some(format) = self.take_byte(*byte)? {
                return Ok(Some((format, i + 1)));
            }
        }
        Ok(None)
    }

    /// Why a file that ends here has no samples.
    pub fn fault_at_end(&self) -> HeadFault
        ensures { rest_of self.now [] ≡ Err result }
    {
        match self.place {
            HeadPlace::Beginning => HeadFault::NotWav,
            HeadPlace::Chunk => HeadFault::NoData,
            HeadPlace::Format(_) => HeadFault::NoData,
            HeadPlace::Passed(_) => HeadFault::NoData,
        }
    }
}
