// Silence that is written.
ghost use Rattle.std.specs.Prelude.{OnOk};
ghost use Rattle.std.specs.Io.KnownBytes.{Appends};
ghost use Rattle.xb_text.specs.Writing.{AppendsBeginning};
ghost use Rattle.xb_sound.specs.Sounds.{silence};
ghost use Rattle.xb_sound.specs.Wavs.{pcm_of};

use std::io::Write;
use xb_text::{WriteFault, write_whole};

// How many bytes a ms of samples has.
const BYTES_PER_MS: usize = 16;

// How many ms of silence are written at a time.
const BLOCK_MS: u64 = 512;

/// Writes the samples of so many ms of silence.
pub(crate) fn write_silence<W: Write>(out: &mut W, ms: u64) -> Result<(), WriteFault>
    ensures whole { OnOk result (Appends (W.contents out.old) (W.contents out.new) (pcm_of (silence ms))) }
    ensures beginning { AppendsBeginning (W.contents out.old) (W.contents out.new) (pcm_of (silence ms)) }
{
    let block = [0u8; BLOCK_MS as usize * BYTES_PER_MS];
    let mut written = 0u64;
    while written < ms {
        let part = (ms - written).min(BLOCK_MS);
        write_whole(out, &block[..part as usize * BYTES_PER_MS])?;
        written += part;
    }
    Ok(())
}
