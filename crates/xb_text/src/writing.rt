// Writing without loss.
ghost use Rattle.std.specs.Prelude.{OnOk};
ghost use Rattle.std.specs.Io.KnownBytes.{Appends};
ghost use Rattle.xb_text.specs.Writing.{AppendsBeginning};

use std::io::Write;

/// A write or the flush failed, or a write took no byte.
#[derive(Clone, Copy, Debug, PartialEq, Eq)]
pub struct WriteFault;

/// Writes a text and flushes: each byte on `Ok`, else the beginning of it. A write that was interrupted
/// has failed, and is not tried again.
///
/// What the contract says of bytes holds for writers whose contents contracts know (lists of bytes);
/// those of a process's standard output are not known.
pub fn write_whole<W: Write>(out: &mut W, text: &[u8]) -> Result<(), WriteFault>
    ensures whole { OnOk result (Appends (W.contents out.old) (W.contents out.new) text.now) }
    ensures beginning { AppendsBeginning (W.contents out.old) (W.contents out.new) text.now }
{
    let mut at = 0;
    while at < text.len() {
        match out.write(&text[at..]) {
            Ok(0) | Err(_) => return Err(WriteFault),
            Ok(n) => at += n,
        }
    }
    out.flush().map_err(|_| WriteFault)
}
