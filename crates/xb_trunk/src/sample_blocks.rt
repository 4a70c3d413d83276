// Samples, written in blocks.
ghost use Rattle.std.specs.Prelude.{OnOk, pos, replicate};
ghost use Rattle.std.specs.Io.KnownBytes.{Appends};
ghost use Rattle.xb_sound.specs.Wavs.{pcm_of};
ghost use Rattle.xb_text.specs.Writing.{AppendsBeginning};

use crate::fault::TrunkFault;
use std::alloc::Global;
use std::io::Write;
use xb_sound::push_samples;
use xb_text::write_whole;

// How many samples of silence are written at once, so that a long row takes no more memory than a short one.
const BLOCK: u64 = 4_096;

/// Writes samples, of each the low byte first, and flushes.
pub(crate) fn write_sound<W: Write>(
    alloc: Global,
    out: &mut W,
    samples: &[i16],
) -> Result<(), TrunkFault>
    ensures whole { OnOk result (Appends (W.contents out.old) (W.contents out.new) (pcm_of samples.now)) }
    ensures beginning { AppendsBeginning (W.contents out.old) (W.contents out.new) (pcm_of samples.now) }
{
    let mut bytes = Vec::new(alloc);
    push_samples(&mut bytes, samples)?;
    write_whole(out, &bytes)?;
    Ok(())
}

// Writes so many samples of silence at once.
fn write_block<W: Write>(alloc: Global, out: &mut W, samples: usize) -> Result<(), TrunkFault>
    ensures whole { OnOk result
        (Appends (W.contents out.old) (W.contents out.new) (pcm_of (replicate samples (pos 0)))) }
    ensures beginning { AppendsBeginning (W.contents out.old) (W.contents out.new)
        (pcm_of (replicate samples (pos 0))) }
{
    let mut silent = Vec::new(alloc);
    silent.resize(samples, 0i16)?;
    write_sound(alloc, out, &silent)
}

/// Writes so many samples of silence, block by block.
pub(crate) fn write_silence<W: Write>(
    alloc: Global,
    out: &mut W,
    samples: u64,
) -> Result<(), TrunkFault>
    ensures whole { OnOk result
        (Appends (W.contents out.old) (W.contents out.new) (pcm_of (replicate samples (pos 0)))) }
    ensures beginning { AppendsBeginning (W.contents out.old) (W.contents out.new)
        (pcm_of (replicate samples (pos 0))) }
{
    for _ in 0..samples / BLOCK {
        write_block(alloc, out, BLOCK as usize)?;
    }
    write_block(alloc, out, (samples % BLOCK) as usize)
}
