// How samples are written.
ghost use Rattle.std.specs.Prelude.{◌≡◌};
ghost use Rattle.xb_signal.specs.Forms.{head_bytes, sample_bytes};

/// How each sample of a signal is written.
#[derive(Clone, Copy, Debug, PartialEq, Eq)]
pub enum Form {
    /// In two bytes, as a whole number, the low byte first.
    Linear,
    /// In one byte, which is the nearest of mu-law (ITU-T G.711).
    MuLaw,
}

impl Form {
    // How many bytes a sample has.
    pub(crate) fn sample_bytes(self) -> u32
        ensures { result ≡ sample_bytes self }
    {
        match self {
            Form::Linear => 2,
            Form::MuLaw => 1,
        }
    }

    // How many bytes a WAV file has before its samples.
    pub(crate) fn head_bytes(self) -> u32
        ensures { result ≡ head_bytes self }
    {
        match self {
            Form::Linear => 44,
            Form::MuLaw => 58,
        }
    }
}
