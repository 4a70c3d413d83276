// Bytes of samples on their way to a writer.
ghost use Rattle.std.specs.Prelude.{◌≡◌, ◌≤◌, ◌+◌, ◌++◌, [], length};
ghost use Rattle.xb_signal.specs.Forms.{sample_coded};

use crate::form::Form;
use arrayvec::ArrayVec;
use std::marker::Model;
use xb_riff::mu_law_byte;

// How many samples are written at once.
pub(crate) const BLOCK_SAMPLES: u32 = 2_048;

// How many bytes they have at most.
const BLOCK_BYTES: usize = 4_096;

// Bytes of samples. A block takes no memory of its own.
#[derive(Drop)]
pub(crate) struct Block {
    bytes: ArrayVec<u8, BLOCK_BYTES>,
}

impl Model for Block {
    ghost use Rattle.std.specs.Prelude.{ℕ, List, ◌≤◌, length};

    ghost Value = { List ℕ };

    ghost view = { λ block. block.bytes.items };

    ghost invariant = { λ block. length block.bytes.items ≤ 4096 };
}

impl Block {
    // None.
    pub(crate) fn new() -> Block
        ensures { result ≡ [] }
    {
        Block {
            bytes: ArrayVec::new(),
        }
    }

    // The bytes, in order.
    pub(crate) fn bytes(&self) -> &[u8]
        ensures { result.now ≡ self.now }
    {
        &self.bytes
    }

    // The bytes of one sample more, after the others.
    pub(crate) fn push(&mut self, form: Form, sample: i16)
        requires { length self.old + 2 ≤ 4096 }
        ensures { self.new ≡ self.old ++ sample_coded form sample }
    {
        match form {
            Form::Linear => {
                let bytes = sample.to_le_bytes();
                self.bytes.push(bytes[0]);
                self.bytes.push(bytes[1]);
            }
            Form::MuLaw => self.bytes.push(mu_law_byte(sample)),
        }
    }
}
