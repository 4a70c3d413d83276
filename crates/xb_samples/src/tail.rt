// What follows the bytes of a sound.
ghost use Rattle.std.specs.Prelude.{◌≡◌, ◌++◌, ◌∷◌, ◌-◌, ◌%◌, [], ℕ, IfErr, List, OnOk, drop, false, length, not};
ghost use Rattle.xb_riff.specs.Heads.{byte_at, long_at};
ghost use Rattle.xb_samples.specs.Tails.{IsNewTail, chunks_left, follows_more, is_name, is_printed, left_after};

use std::alloc::{AllocError, Global};
use xb_contact::Refusal;

// The name and the length of a chunk have so many bytes.
const HEAD_BYTES: usize = 8;

// What follows the bytes of a sound, as far as it has come: nothing, or chunks.
#[derive(Drop)]
pub(crate) struct Tail {
    // Whether the sound has an end that is known.
    is_known: bool,
    // How many bytes have to come before the next chunk, and how many more may.
    left: u64,
    more: u64,
    // What has come of its name and its length.
    head: Vec<u8>,
    // Whether bytes have come that are no chunk.
    is_other: bool,
}

// A byte; 0 where none is.
fn byte_at(bytes: &[u8], at: usize) -> u8
    ensures { result ≡ byte_at bytes.now at }
{
    match bytes.get(at) {
        Some(byte) => *byte,
        None => 0,
    }
}

// Whether a byte is a character of ASCII that is printed.
fn is_printed(byte: u8) -> bool
    ensures { result ≡ is_printed byte }
{
    byte >= b' ' && byte <= b'~'
}

// Whether bytes begin with the name of a chunk.
fn is_name(bytes: &[u8]) -> bool
    ensures { result ≡ is_name bytes.now }
{
    is_printed(byte_at(bytes, 0))
        && is_printed(byte_at(bytes, 1))
        && is_printed(byte_at(bytes, 2))
        && is_printed(byte_at(bytes, 3))
        && !bytes.starts_with(b"RIFF")
}

// The length of a chunk, which stands after its name, the lowest byte first.
fn chunk_length(bytes: &[u8]) -> u32
    ensures { result ≡ long_at bytes.now 4 }
{
    u32::from_le_bytes([
        byte_at(bytes, 4),
        byte_at(bytes, 5),
        byte_at(bytes, 6),
        byte_at(bytes, 7),
    ])
}

// How many bytes are left after some.
pub(crate) fn left_after(left: Option<u64>, bytes: &[u8]) -> Option<u64>
    ensures { result ≡ left_after left bytes.now }
{
    match left {
        Some(n) => Some(n.saturating_sub(bytes.len() as u64)),
        None => None,
    }
}

// Bytes from a place on.
#[tactic(auto, using(std::proofs::lemmas::List::drop_all))]
fn bytes_from(bytes: &[u8], place: u64) -> &[u8]
    ensures { result.now ≡ drop place bytes.now }
{
    if place >= bytes.len() as u64 {
        return &bytes[..0];
    }
    &bytes[place as usize..]
}

impl Tail {
    // What follows a sound of so many bytes, where that is known: after an odd number a byte more may come.
    pub(crate) fn new(alloc: Global, size: Option<u64>) -> Tail
        ensures { IsNewTail size result }
    {
        let left = size.unwrap_or(0);
        Tail {
            is_known: size.is_some(),
            left,
            more: left % 2,
            head: Vec::new(alloc),
            is_other: false,
        }
    }

    // Its name and its length have come, and the chunk begins.
    fn begin_chunk(&mut self)
        ensures other { self.new.is_other ≡ not (is_name self.old.head.items) }
        ensures left { self.new.left ≡ long_at self.old.head.items 4 }
        ensures more { self.new.more ≡ long_at self.old.head.items 4 % 2 }
        ensures head { self.new.head.items ≡ [] }
        ensures known { self.new.is_known ≡ self.old.is_known }
    {
        self.is_other = !is_name(&self.head);
        self.left = u64::from(chunk_length(&self.head));
        self.more = self.left % 2;
        self.head.clear();
    }

    // A byte.
    fn take_byte(&mut self, byte: u8) -> Result<(), Refusal>
        ensures taken { OnOk result ((text : List ℕ)
            → chunks_left self.new text ≡ chunks_left self.old (byte ∷ text)) }
        ensures known { self.new.is_known ≡ self.old.is_known }
        ensures only { IfErr result (λ e. e ≡ Refusal.NoMemory) }
    {
        if self.is_other {
            return Ok(());
        }
        if self.left > 0 {
            self.left -= 1;
            return Ok(());
        }
        if self.more > 0 {
            self.more -= 1;
            return Ok(());
        }
        self.head.push(byte).map_err(AllocError::from)?;
        if self.head.len() < HEAD_BYTES {
            return Ok(());
        }
        self.begin_chunk();
        Ok(())
    }

    // Bytes, one after the other.
    fn take_bytes(&mut self, bytes: &[u8]) -> Result<(), Refusal>
        ensures taken { OnOk result ((text : List ℕ)
            → chunks_left self.new text ≡ chunks_left self.old (bytes.now ++ text)) }
        ensures known { self.new.is_known ≡ self.old.is_known }
        ensures only { IfErr result (λ e. e ≡ Refusal.NoMemory) }
    {
        for byte in bytes {
            self.take_byte(*byte)?;
        }
        Ok(())
    }

    // Takes bytes of the sound and of what follows it. Those that have to come are passed over.
    pub(crate) fn take(&mut self, bytes: &[u8]) -> Result<(), Refusal>
        ensures taken { OnOk result ((text : List ℕ)
            → follows_more self.new text ≡ follows_more self.old (bytes.now ++ text)) }
        ensures only { IfErr result (λ e. e ≡ Refusal.NoMemory) }
    {
        if !self.is_known {
            return Ok(());
        }
        let rest = bytes_from(bytes, self.left);
        self.left = self.left.saturating_sub(bytes.len() as u64);
        self.take_bytes(rest)
    }

    // Whether chunks are what has followed.
    fn has_chunks(&self) -> bool
        ensures { result ≡ chunks_left self.now [] }
    {
        !self.is_other && self.left == 0 && self.head.is_empty()
    }

    // Whether more has followed than chunks.
    pub(crate) fn is_more(&self) -> bool
        ensures { result ≡ follows_more self.now [] }
    {
        self.is_known && !self.has_chunks()
    }
}
