// Reads of a stream, and what says that one failed.
ghost use Rattle.std.specs.Prelude.{◌≡◌, ◌-◌, ◌^◌, ◌<◌, ◌≤◌, Ok, IfOk, OnErr, OnOk, length, take};
ghost use Rattle.std.specs.Io.KnownBytes.{Consumes, IsAtEnd, Keeps};
ghost use Rattle.xb_feed.specs.Reading.{reads_left};

use std::io::Read;

/// How many bytes are read at once.
pub(crate) const BUFFER_BYTES: usize = 8_192;

/// A read that failed, an interrupted one too, or a stream that had not ended after 2^64 - 1 reads. Nothing outside of
/// this file makes one: no other fault can be told as a failed read.
#[derive(Clone, Copy, Debug)]
pub struct Unread(());

/// How many reads of a stream are left.
#[derive(Drop)]
pub struct Reads {
    left: u64,
}

/// Reads once. After an `Err` the reader has the same bytes left.
pub fn read_once<R: Read>(input: &mut R, buffer: &mut [u8]) -> Result<usize, Unread>
    ensures within { IfOk result (λ n. n ≤ length buffer.old) }
    ensures bytes { IfOk result (λ n.
        Consumes (R.remaining input.old) (R.remaining input.new) (take n buffer.new)) }
    ensures end { result ≡ Ok 0 → 0 < length buffer.old → IsAtEnd (R.remaining input.new) }
    ensures kept { OnErr result (Keeps (R.remaining input.old) (R.remaining input.new)) }
{
    match input.read(buffer) {
        Ok(n) => Ok(n),
        Err(_) => Err(Unread(())),
    }
}

impl Reads {
    /// No read was made.
    pub fn new() -> Reads
        ensures { reads_left result ≡ 2 ^ 64 - 1 }
    {
        Reads { left: u64::MAX }
    }

    /// Reads once more. After an `Err` the reader has the same bytes left.
    pub fn read_once<R: Read>(&mut self, input: &mut R, buffer: &mut [u8]) -> Result<usize, Unread>
        ensures within { IfOk result (λ n. n ≤ length buffer.old) }
        ensures bytes { IfOk result (λ n.
            Consumes (R.remaining input.old) (R.remaining input.new) (take n buffer.new)) }
        ensures end { result ≡ Ok 0 → 0 < length buffer.old → IsAtEnd (R.remaining input.new) }
        ensures kept { OnErr result (Keeps (R.remaining input.old) (R.remaining input.new)) }
        ensures fewer { OnOk result (reads_left self.new < reads_left self.old) }
    {
        if self.left == 0 {
            return Err(Unread(()));
        }
        self.left -= 1;
        read_once(input, buffer)
    }
}
