// The head of the WAV file of a signal.
ghost use Rattle.std.specs.Prelude.{◌≡◌, ◌++◌, ◌<◌, ◌+◌, ◌*◌, ◌^◌, OnOk};
ghost use Rattle.xb_sound.specs.Wavs.{four_bytes};
ghost use Rattle.xb_signal.specs.Forms.{fact_chunk, head_bytes, head_of_form, mu_law_format, mu_law_head, sample_bytes};

use crate::form::Form;
use std::alloc::AllocError;
use xb_sound::push_header;

// Puts a number of four bytes after the bytes, the low one first.
fn push_long(out: &mut Vec<u8>, number: u32) -> Result<(), AllocError>
    ensures { OnOk result (out.new.items ≡ out.old.items ++ four_bytes number) }
{
    out.extend_from_slice(&number.to_le_bytes())
}

// Puts the chunk that tells the format after the bytes: of 18 bytes, mu-law (7) in one channel, 8,000 samples and bytes a
// second, one byte and 8 bits a sample, and no bytes more.
fn push_format(out: &mut Vec<u8>) -> Result<(), AllocError>
    ensures { OnOk result (out.new.items ≡ out.old.items ++ mu_law_format) }
{
    out.extend_from_slice(b"fmt \x12\0\0\0\x07\0\x01\0\x40\x1f\0\0\x40\x1f\0\0\x01\0\x08\0\0\0")
}

// Puts the chunk that tells how many samples there are after the bytes.
fn push_fact(out: &mut Vec<u8>, samples: u32) -> Result<(), AllocError>
    ensures { OnOk result (out.new.items ≡ out.old.items ++ fact_chunk samples) }
{
    out.extend_from_slice(b"fact")?;
    push_long(out, 4)?;
    push_long(out, samples)
}

// Puts the head of a WAV file of so many samples of mu-law after the bytes.
fn push_mu_law_head(out: &mut Vec<u8>, samples: u32) -> Result<(), AllocError>
    requires { samples + 58 < 2 ^ 32 }
    ensures { OnOk result (out.new.items ≡ out.old.items ++ mu_law_head samples) }
{
    out.extend_from_slice(b"RIFF")?;
    push_long(out, samples + 50)?;
    out.extend_from_slice(b"WAVE")?;
    push_format(out)?;
    push_fact(out, samples)?;
    out.extend_from_slice(b"data")?;
    push_long(out, samples)
}

// Puts the head of a WAV file of so many samples after the bytes. `Err` says that memory ran out.
pub(crate) fn push_head(out: &mut Vec<u8>, form: Form, samples: u32) -> Result<(), AllocError>
    requires { sample_bytes form * samples + head_bytes form < 2 ^ 32 }
    ensures { OnOk result (out.new.items ≡ out.old.items ++ head_of_form form samples) }
{
    match form {
        Form::Linear => push_header(out, samples * 2),
        Form::MuLaw => push_mu_law_head(out, samples),
    }
}
