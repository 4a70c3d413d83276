// The bytes of a stream, one at a time.
ghost use Rattle.std.specs.Prelude.{◌≡◌, ◌+◌, ◌<◌, [], ◌∷◌, take, drop, true, false, IfErr, IfOk, OnOk, option_map};
ghost use Rattle.std.specs.Io.KnownBytes.{Consumes, IsAtEnd, Keeps};
ghost use Rattle.csv.specs.Reading.{is_bom, strip_bom};
ghost use Rattle.xb_model.specs.declared.fault.RowFault.TheVariants as fault;
ghost use Rattle.xb_rows.specs.declared.stream_bytes.TheConstants.{HELD_BYTES};
ghost use Rattle.xb_rows.specs.StreamBytes.{GivesByte, bytes_left, held_bytes};

use std::io::Read;
use xb_model::RowFault;

// How many bytes of a stream are held at most.
const HELD_BYTES: usize = 8_192;

// The bytes of a stream, of which a byte order mark at the beginning is dropped.
#[derive(Drop)]
pub(crate) struct StreamBytes<R: Read> {
    reader: R,
    buffer: [u8; HELD_BYTES],
    // where the next byte is in the buffer
    at: usize,
    // how many bytes are in the buffer
    filled: usize,
    // whether a byte order mark was looked for
    begun: bool,
}

// Whether three bytes are a byte order mark.
fn is_mark(first: u8, second: u8, third: u8) -> bool
    ensures { result ≡ is_bom first second third }
{
    first == 0xEF && second == 0xBB && third == 0xBF
}

impl<R: Read> StreamBytes<R> {
    // The bytes of a stream.
    pub(crate) fn new(reader: R) -> StreamBytes<R>
        ensures { bytes_left R.remaining result ≡ option_map strip_bom (R.remaining reader) }
    {
        StreamBytes {
            reader,
            buffer: [0; HELD_BYTES],
            at: 0,
            filled: 0,
            begun: false,
        }
    }

    // Whether the buffer has a byte left.
    #[inline(always)]
    fn has_held(&self) -> bool
        ensures some { result ≡ true → (self.now.at < self.now.filled) × (self.now.at < HELD_BYTES) }
        ensures none { result ≡ false → drop self.now.at (take self.now.filled self.now.buffer) ≡ [] }
    {
        self.at < self.filled && self.at < HELD_BYTES
    }

    // Fills the buffer, which has no byte left, and says how many bytes it then holds.
    fn refill(&mut self) -> Result<usize, RowFault>
        requires { drop self.old.at (take self.old.filled self.old.buffer) ≡ [] }
        ensures fault { IfErr result (λ f. f ≡ fault.Read) }
        ensures keeps { OnOk result (Keeps (R.remaining self.old.reader) (held_bytes R.remaining self.new)) }
        ensures at_end { IfOk result (λ n. n ≡ 0 → IsAtEnd (R.remaining self.new.reader)) }
        ensures held { IfOk result (λ n. (self.new.at ≡ 0) × (self.new.filled ≡ n)) }
        ensures begun { self.new.begun ≡ self.old.begun }
    {
        match self.reader.read(&mut self.buffer) {
            Ok(count) => {
                self.at = 0;
                self.filled = count;
                Ok(count)
            }
            Err(_) => Err(RowFault::Read),
        }
    }

    // Reads a byte of the beginning into the buffer, if there is one.
    fn next_head(&mut self) -> Result<bool, RowFault>
        requires at { self.old.at ≡ 0 }
        requires room { self.old.filled < 3 }
        ensures fault { IfErr result (λ f. f ≡ fault.Read) }
        ensures keeps { OnOk result
            (Keeps (held_bytes R.remaining self.old) (held_bytes R.remaining self.new)) }
        ensures at_end { IfOk result (λ more. more ≡ false → IsAtEnd (R.remaining self.new.reader)) }
        ensures filled { IfOk result (λ more. (more ≡ true → self.new.filled ≡ self.old.filled + 1)
            × (more ≡ false → self.new.filled ≡ self.old.filled)) }
        ensures same { (self.new.at ≡ 0) × (self.new.begun ≡ self.old.begun) }
    {
        let mut one = [0u8];
        match self.reader.read(&mut one) {
            Ok(0) => Ok(false),
            Ok(_) => {
                self.buffer[self.filled] = one[0];
                self.filled += 1;
                Ok(true)
            }
            Err(_) => Err(RowFault::Read),
        }
    }

    // Takes a byte order mark off the beginning, and reads no further than it may be one.
    #[inline(never)]
    fn skip_mark(&mut self) -> Result<(), RowFault>
        requires at { self.old.at ≡ 0 }
        requires filled { self.old.filled ≡ 0 }
        ensures fault { IfErr result (λ f. f ≡ fault.Read) }
        ensures keeps { OnOk result (Keeps (option_map strip_bom (R.remaining self.old.reader))
            (held_bytes R.remaining self.new)) }
        ensures begun { self.new.begun ≡ self.old.begun }
    {
        if !self.next_head()? {
            return Ok(());
        }
        if self.buffer[0] != 0xEF {
            return Ok(());
        }
        if !self.next_head()? {
            return Ok(());
        }
        if self.buffer[1] != 0xBB {
            return Ok(());
        }
        if !self.next_head()? {
            return Ok(());
        }
        if is_mark(self.buffer[0], self.buffer[1], self.buffer[2]) {
            self.at = 3;
        }
        Ok(())
    }

    // Looks for a byte order mark, once.
    fn begin(&mut self) -> Result<(), RowFault>
        ensures fault { IfErr result (λ f. f ≡ fault.Read) }
        ensures keeps { OnOk result
            (Keeps (bytes_left R.remaining self.old) (held_bytes R.remaining self.new)) }
        ensures begun { OnOk result (self.new.begun ≡ true) }
    {
        if !self.begun {
            if self.at == 0 && self.filled == 0 {
                self.skip_mark()?;
            }
            self.begun = true;
        }
        Ok(())
    }

    // Fills the buffer, which has no byte left, and says whether there is a byte then.
    #[cold]
    #[inline(never)]
    fn fill(&mut self) -> Result<bool, RowFault>
        ensures fault { IfErr result (λ f. f ≡ fault.Read) }
        ensures some { IfOk result (λ more. more ≡ true → (self.new.at < self.new.filled)
            × (self.new.at < HELD_BYTES)
            × (self.new.begun ≡ true)
            × Keeps (bytes_left R.remaining self.old) (held_bytes R.remaining self.new)) }
        ensures none { IfOk result (λ more. more ≡ false → IsAtEnd (bytes_left R.remaining self.old)
            × Keeps (bytes_left R.remaining self.old) (bytes_left R.remaining self.new)) }
    {
        self.begin()?;
        if self.has_held() {
            return Ok(true);
        }
        Ok(self.refill()? > 0)
    }

    // Takes the next byte of the buffer.
    #[inline(always)]
    fn take_held(&mut self) -> u8
        requires some { self.old.at < self.old.filled }
        requires inside { self.old.at < HELD_BYTES }
        ensures byte { Consumes (held_bytes R.remaining self.old) (held_bytes R.remaining self.new)
            (result ∷ []) }
        ensures same { (self.new.filled ≡ self.old.filled) × (self.new.begun ≡ self.old.begun) }
    {
        let byte = self.buffer[self.at];
        self.at += 1;
        byte
    }

    // The next byte, `None` at the end, or that a read failed, an interrupted one too.
    #[inline(always)]
    pub(crate) fn next_byte(&mut self) -> Result<Option<u8>, RowFault>
        ensures { GivesByte (bytes_left R.remaining self.old) result (bytes_left R.remaining self.new) }
    {
        if self.has_held() {
            return Ok(Some(self.take_held()));
        }
        if self.fill()? {
            Ok(Some(self.take_held()))
        } else {
            Ok(None)
        }
    }
}
