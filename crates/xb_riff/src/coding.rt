// How samples are written in bytes.
ghost use Rattle.std.specs.Prelude.{◌≡◌, ◌≤◌, length};
ghost use Rattle.xb_riff.specs.Codings.{sample_at, width};

use crate::companded::{a_law, mu_law};
use crate::float::float_sample;

/// How a sample is written.
#[derive(Clone, Copy, Debug, PartialEq, Eq)]
pub enum Coding {
    /// In eight bits, counted from 128.
    Unsigned8,
    /// In sixteen bits, the low byte first.
    Signed16,
    /// In twenty-four bits, the lowest byte first.
    Signed24,
    /// In thirty-two bits, the lowest byte first.
    Signed32,
    /// In a float of thirty-two bits (IEEE 754), the lowest byte first: the limits are -1 and 1.
    Float32,
    /// In eight bits, by A-law (G.711).
    ALaw,
    /// In eight bits, by mu-law (G.711).
    MuLaw,
}

impl Coding {
    /// How many bytes a sample has, 1 to 4.
    pub fn width(self) -> usize
        ensures value { result ≡ width self }
        ensures some { 1 ≤ result }
        ensures bound { result ≤ 4 }
    {
        match self {
            Coding::Unsigned8 | Coding::ALaw | Coding::MuLaw => 1,
            Coding::Signed16 => 2,
            Coding::Signed24 => 3,
            Coding::Signed32 | Coding::Float32 => 4,
        }
    }

    /// The sample that bytes begin with, as one of 16 bits: of 24 bits and of 32 the highest 16, of a float the nearest
    /// one.
    pub fn sample_of(self, bytes: &[u8]) -> i16
        requires { width self ≤ length bytes.now }
        ensures { result ≡ sample_at self bytes.now }
    {
        match self {
            Coding::Unsigned8 => (i16::from(bytes[0]) - 128) * 256,
            Coding::Signed16 => i16::from_le_bytes([bytes[0], bytes[1]]),
            Coding::Signed24 => i16::from_le_bytes([bytes[1], bytes[2]]),
            Coding::Signed32 => i16::from_le_bytes([bytes[2], bytes[3]]),
            Coding::Float32 => {
                float_sample(u32::from_le_bytes([bytes[0], bytes[1], bytes[2], bytes[3]]))
            }
            Coding::ALaw => a_law(bytes[0]),
            Coding::MuLaw => mu_law(bytes[0]),
        }
    }
}
