// Reading to an end.
ghost use Rattle.std.specs.Prelude.{◌≡◌, ◌≤◌, ◌<◌, ◌+◌, IfSome, IfOk, OnOk, length, Err};
ghost use Rattle.std.specs.Io.KnownBytes.{IsAtEnd};
ghost use Rattle.xb_text.specs.Reading.{IsLongerThan, ReadsMore, TakesSome, TakesUpTo};

use std::alloc::Global;
use std::io::Read;

// The most bytes that one read asks for.
const BUFFER_BYTES: usize = 8192;

/// Why a reader was not read to its end.
#[derive(Clone, Copy, Debug, PartialEq, Eq)]
pub enum ReadFault {
    /// A read failed, within the limit. What was read before it is lost.
    Failed,
    /// There are more bytes than the limit allows.
    TooLong,
    /// Memory ran out.
    NoMemory,
}

// Reads once, and adds what was read to `bytes`. Where the read failed nothing was taken; where memory
// ran out something was, and it is lost.
fn read_more<R: Read>(
    reader: &mut R,
    buffer: &mut [u8],
    bytes: &mut Vec<u8>,
) -> Result<usize, ReadFault>
    requires { 0 < length buffer.old }
    ensures { ReadsMore (length buffer.old) (R.remaining reader.old) (R.remaining reader.new)
        bytes.old.items bytes.new.items result }
{
    match reader.read(buffer) {
        Ok(0) => Ok(0),
        Ok(n) => match bytes.extend_from_slice(&buffer[..n]) {
            Ok(()) => Ok(n),
            Err(_) => Err(ReadFault::NoMemory),
        },
        Err(_) => Err(ReadFault::Failed),
    }
}

/// The bytes of a reader to its end, of which there are at most `limit`; no more than the first byte
/// after them is taken. A read that was interrupted has failed, and is not tried again. However few bytes
/// a read gives, the next one follows.
///
/// What the contract says of bytes holds for readers whose bytes contracts know (byte slices); those
/// of a process's standard input are not known.
pub fn read_whole<R: Read>(
    alloc: Global,
    reader: &mut R,
    limit: usize,
) -> Result<Vec<u8>, ReadFault>
    ensures whole { IfSome (R.remaining reader.old) (λ bytes. IfOk result (λ v. v.items ≡ bytes)) }
    ensures end { OnOk result (IsAtEnd (R.remaining reader.new)) }
    ensures taken { TakesUpTo (limit + 1) (R.remaining reader.old) (R.remaining reader.new) }
    ensures within { IfOk result (λ v. length v.items ≤ limit) }
    ensures too_long { result ≡ Err ReadFault.TooLong → IsLongerThan limit (R.remaining reader.old) }
    ensures failed { result ≡ Err ReadFault.Failed →
        TakesUpTo limit (R.remaining reader.old) (R.remaining reader.new) }
    ensures no_memory { result ≡ Err ReadFault.NoMemory →
        TakesSome (R.remaining reader.old) (R.remaining reader.new) }
{
    let mut bytes = Vec::new(alloc);
    let mut buffer = [0u8; BUFFER_BYTES];
    while bytes.len() <= limit {
        // one byte more than the limit allows tells that there are too many
        let room = (limit - bytes.len()).min(BUFFER_BYTES - 1) + 1;
        if read_more(reader, &mut buffer[..room], &mut bytes)? == 0 {
            return Ok(bytes);
        }
    }
    Err(ReadFault::TooLong)
}
