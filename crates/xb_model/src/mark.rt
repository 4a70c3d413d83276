// What stands on a tape.
ghost use Rattle.std.specs.Prelude.{◌≡◌};
ghost use Rattle.xb_model.specs.Keyings.{is_ending};

use crate::digits::KEY_DIGITS;
use crate::key::{Key, Tone};
use crate::reason::Reason;
use crate::trunk::Trunk;

/// The most marks of a keying: the trunk group, KP, the most digits, and ST.
pub const KEYING_MARKS: usize = KEY_DIGITS + 3;

/// One mark of a line's tape ("Notes on Distance Dialing"; a refusal is the profile's own).
#[derive(Clone, Copy, Debug, PartialEq, Eq)]
pub enum Mark {
    /// The trunk group of a keying.
    Trunk(Trunk),
    /// A key, with its pair of tones.
    Tone(Key, Tone),
    /// Why an attempt is refused, and the count of good digits heard before, or for `Unknown` the
    /// length of the number.
    Refused(Reason, u8),
}

impl Mark {
    /// Whether an entry of the tape ends with this mark: the tone of ST, or a refusal.
    pub fn ends(&self) -> bool
        ensures { result ≡ is_ending self.now }
    {
        match self {
            Mark::Trunk(_) => false,
            Mark::Tone(key, _) => matches!(key, Key::St),
            Mark::Refused(_, _) => true,
        }
    }
}

impl Default for Mark {
    ghost use Rattle.xb_model.specs.declared.mark.Mark.TheVariants.{Refused};
    ghost use Rattle.xb_model.specs.declared.reason.Reason.TheVariants.{Abandoned};

    ghost is_default = { λ m. m ≡ Refused Abandoned 0 };

    fn default() -> Mark {
        Mark::Refused(Reason::Abandoned, 0)
    }
}
