// What comes of an attempt.
ghost use Rattle.std.specs.Prelude.{◌≡◌};

use crate::digits::NumberDigits;
use crate::reason::Reason;

/// What comes of an attempt.
#[derive(Drop)]
pub enum Dialled {
    /// The number that was dialled.
    Number(NumberDigits),
    /// Why there is none, and the count of good digits heard before.
    Refused(Reason, u8),
}

impl Default for Dialled {
    ghost use Rattle.xb_model.specs.declared.dialled.Dialled.TheVariants.{Refused};
    ghost use Rattle.xb_model.specs.declared.reason.Reason.TheVariants.{Abandoned};

    ghost is_default = { λ d. d ≡ Refused Abandoned 0 };

    fn default() -> Dialled {
        Dialled::Refused(Reason::Abandoned, 0)
    }
}
