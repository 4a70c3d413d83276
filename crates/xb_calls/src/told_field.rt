// How a fault tells a field.
ghost use Rattle.std.specs.Prelude.{◌≡◌, take};
ghost use Rattle.xb_calls.specs.ToldFields.{visible};

use arrayvec::ArrayVec;
use std::fmt;
use std::marker::Model;

/// The most bytes of a field that a fault tells.
pub(crate) const MOST_TOLD_BYTES: usize = 40;

// A byte as it is told.
fn visible(byte: u8) -> u8
    ensures { result ≡ visible byte }
{
    if 32 <= byte && byte < 127 { byte } else { b'?' }
}

// The bytes of a field that are told.
fn beginning(field: &[u8]) -> &[u8]
    ensures { result.now ≡ take MOST_TOLD_BYTES field.now }
{
    if field.len() > MOST_TOLD_BYTES {
        &field[..MOST_TOLD_BYTES]
    } else {
        field
    }
}

/// The beginning of a field, as a fault tells it in its line: at most 40 bytes, and each that is not printable ASCII
/// is a question mark.
#[derive(Debug, Drop)]
pub struct ToldField {
    bytes: ArrayVec<u8, MOST_TOLD_BYTES>,
}

// Clauses see the bytes.
impl Model for ToldField {
    ghost use Rattle.std.specs.Prelude.{ℕ, List};

    ghost Value = { List ℕ };

    ghost view = { λ field. field.bytes.items };
}

impl ToldField {
    ghost use Rattle.std.specs.Prelude.{◌<◌, ◌∷◌, ◌++◌, [], length};
    ghost use Rattle.xb_calls.specs.ToldFields.{told};

    // Nothing.
    fn new() -> ToldField
        ensures { result ≡ [] }
    {
        ToldField {
            bytes: ArrayVec::new(),
        }
    }

    // One byte more, after the others.
    fn push(&mut self, byte: u8)
        requires { length self.old < MOST_TOLD_BYTES }
        ensures { self.new ≡ self.old ++ byte ∷ [] }
    {
        self.bytes.push(byte);
    }

    /// The bytes that are told.
    pub fn bytes(&self) -> &[u8]
        ensures { result.now ≡ self.now }
    {
        &self.bytes
    }

    // What is told of a field.
    pub(crate) fn of(field: &[u8]) -> ToldField
        ensures { result ≡ told field.now }
    {
        let mut told = ToldField::new();
        let bytes = beginning(field);
        for byte in bytes {
            told.push(visible(*byte));
        }
        told
    }
}

impl fmt::Display for ToldField {
    ghost use Rattle.std.specs.Prelude.{Some};

    ghost output = { λ field. Some field };

    fn fmt<W: fmt::Write>(&self, f: &mut fmt::Formatter<W>) -> fmt::Result {
        match str::from_utf8(self.bytes()) {
            Ok(text) => f.write_str(text),
            Err(_) => Err(fmt::Error),
        }
    }
}
