// A signal that is written as it is made.
ghost use Rattle.std.specs.Prelude.{◌≡◌, ◌≢◌, ◌<◌, ◌≤◌, ◌+◌, ◌*◌, ◌-◌, ◌↔◌, ◌^◌, ◌++◌, Err, IfErr, IfOk, IfSome, IsSome, OnOk, length, map, min};
ghost use Rattle.std.specs.Io.KnownBytes.{Appends, Keeps};
ghost use Rattle.std.specs.List.{range_with_len};
ghost use Rattle.xb_text.specs.Writing.{AppendsBeginning};
ghost use Rattle.xb_signal.specs.Forms.{head_bytes, sample_bytes, samples_coded};
ghost use Rattle.xb_signal.specs.Segments.{samples_in, segment_sound, signal_of};
ghost use Rattle.xb_signal.specs.Moments.{moment_after, start};
ghost use Rattle.xb_signal.specs.OneSample.{sample_at};
ghost use Rattle.xb_signal.specs.Writings.{bytes_of, file_length, head_before};

use crate::block::{BLOCK_SAMPLES, Block};
use crate::fault::SignalFault;
use crate::form::Form;
use crate::moment::Moment;
use crate::sample::sample_at;
use crate::segment::{SAMPLES_PER_MS, Segment, Sound};
use crate::setting::Setting;
use crate::wav_head::push_head;
use std::alloc::Global;
use std::io::Write;
use xb_text::{WriteFault, write_whole};

// How many samples a segment has.
fn segment_length(segment: &Segment) -> u32
    ensures value { result ≡ segment.now.ms * 8 }
    ensures bound { result ≤ 524280 }
{
    u32::from(segment.ms) * SAMPLES_PER_MS
}

// How many samples segments have; 2^64 - 1 where they are more.
fn signal_length(segments: &[Segment]) -> u64
    ensures { result ≡ min (samples_in segments.now) (2 ^ 64 - 1) }
{
    let mut samples = 0u64;
    for segment in segments {
        samples = samples.saturating_add(u64::from(segment_length(segment)));
    }
    samples
}

// How many samples segments have, where a WAV file has room for them.
fn samples_of_file(form: Form, segments: &[Segment]) -> Option<u32>
    ensures variant { IsSome result ↔ (file_length form segments.now < 2 ^ 32) }
    ensures value { IfSome result (λ n. n ≡ samples_in segments.now) }
    ensures fits { IfSome result (λ n. sample_bytes form * n + head_bytes form < 2 ^ 32) }
{
    let samples = signal_length(segments);
    let room = (u32::MAX - form.head_bytes()) / form.sample_bytes();
    if samples <= u64::from(room) {
        Some(samples as u32)
    } else {
        None
    }
}

// What stands before the samples of segments: the head of a file, or nothing.
fn head_before(
    alloc: Global,
    form: Form,
    raw: bool,
    segments: &[Segment],
) -> Result<Vec<u8>, SignalFault>
    ensures head { IfOk result (λ head. head.items ≡ head_before form raw segments.now) }
    ensures too_long { result ≡ Err SignalFault.TooLong → 2 ^ 32 ≤ file_length form segments.now }
    ensures fits { IfErr result (λ f. f ≢ SignalFault.Write) }
{
    let mut head = Vec::new(alloc);
    if !raw {
        let samples = samples_of_file(form, segments).ok_or(SignalFault::TooLong)?;
        push_head(&mut head, form, samples)?;
    }
    Ok(head)
}

// The bytes of the samples of what sounds after a moment, from one sample up to another.
fn block_of(setting: &Setting, moment: Moment, sound: &Sound, from: u32, end: u32) -> Block
    requires order { from ≤ end }
    requires room { end ≤ from + BLOCK_SAMPLES }
    requires places { end ≤ 524288 }
    ensures { result ≡ samples_coded setting.now.form
        (map (λ n. sample_at setting.now moment sound.now n) (range_with_len from (end - from))) }
{
    let mut block = Block::new();
    for n in from..end {
        block.push(setting.form, sample_at(setting, moment, sound, n));
    }
    block
}

// Writes the samples of a segment after a moment.
fn write_segment<W: Write>(
    out: &mut W,
    setting: &Setting,
    moment: Moment,
    segment: &Segment,
) -> Result<(), WriteFault>
    ensures whole { OnOk result (Appends (W.contents out.old) (W.contents out.new)
        (samples_coded setting.now.form (segment_sound setting.now moment segment.now))) }
    ensures beginning { AppendsBeginning (W.contents out.old) (W.contents out.new)
        (samples_coded setting.now.form (segment_sound setting.now moment segment.now)) }
{
    let samples = segment_length(segment);
    let mut from = 0u32;
    while from < samples {
        let end = samples.min(from + BLOCK_SAMPLES);
        let block = block_of(setting, moment, &segment.sound, from, end);
        write_whole(out, block.bytes())?;
        from = end;
    }
    Ok(())
}

// Writes the samples of segments, one segment after the other.
fn write_segments<W: Write>(
    out: &mut W,
    setting: &Setting,
    segments: &[Segment],
) -> Result<(), WriteFault>
    ensures whole { OnOk result (Appends (W.contents out.old) (W.contents out.new)
        (samples_coded setting.now.form (signal_of setting.now segments.now))) }
    ensures beginning { AppendsBeginning (W.contents out.old) (W.contents out.new)
        (samples_coded setting.now.form (signal_of setting.now segments.now)) }
{
    let mut moment = Moment::start(setting.seed);
    for segment in segments {
        write_segment(out, setting, moment, segment)?;
        moment = moment.after(segment_length(segment));
    }
    Ok(())
}

/// Writes the sound of segments by a setting, 8,000 samples a second: these alone, or a WAV file of them. It holds a quarter of a second of samples at a time, and takes all its memory before it writes:
/// the length in the head is summed before. `TooLong` comes only where the file would have 2^32 bytes or more. On it
/// and on `NoMemory` nothing was written, and on `Write` the beginning was.
pub fn write_signal<W: Write>(
    alloc: Global,
    raw: bool,
    setting: &Setting,
    segments: &[Segment],
    out: &mut W,
) -> Result<(), SignalFault>
    ensures whole { OnOk result (Appends (W.contents out.old) (W.contents out.new)
        (bytes_of setting.now raw segments.now)) }
    ensures beginning { AppendsBeginning (W.contents out.old) (W.contents out.new)
        (bytes_of setting.now raw segments.now) }
    ensures too_long { result ≡ Err SignalFault.TooLong → 2 ^ 32 ≤ file_length setting.now.form segments.now }
    ensures untouched { IfErr result (λ f. f ≢ SignalFault.Write
        → Keeps (W.contents out.old) (W.contents out.new)) }
{
    let head = head_before(alloc, setting.form, raw, segments)?;
    write_whole(out, &head)?;
    write_segments(out, setting, segments)?;
    Ok(())
}
