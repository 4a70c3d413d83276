// What a sender is told.
ghost use Rattle.std.specs.Prelude.{◌≡◌};

use crate::digits::KeyDigits;
use crate::reason::Reason;
use crate::trunk::Trunk;

/// What a sender is told.
#[derive(Drop)]
pub enum Order {
    /// To key these digits on this trunk group.
    Key(Trunk, KeyDigits),
    /// Why an attempt is refused, and the count of good digits heard before, or for `Unknown` the
    /// length of the number.
    Refused(Reason, u8),
}

impl Default for Order {
    ghost use Rattle.xb_model.specs.declared.order.Order.TheVariants.{Refused};
    ghost use Rattle.xb_model.specs.declared.reason.Reason.TheVariants.{Abandoned};

    ghost is_default = { λ o. o ≡ Refused Abandoned 0 };

    fn default() -> Order {
        Order::Refused(Reason::Abandoned, 0)
    }
}
