// Trunk groups.
ghost use Rattle.std.specs.Prelude.{◌≡◌, ℕ, ◌<◌, ◌↔◌, IsSome, IfSome};

use std::marker::Model;

/// How many trunk groups there can be.
pub const TRUNKS: u16 = 10_000;

/// A trunk group, 0 to 9999.
#[derive(Clone, Copy, Debug, PartialEq, Eq)]
pub struct Trunk {
    number: u16,
}

impl Model for Trunk {
    ghost use Rattle.std.specs.Prelude.{ℕ, ◌<◌};
    ghost use Rattle.xb_model.specs.declared.trunk.TheConstants.{TRUNKS};

    ghost Value = { ℕ };

    ghost view = { λ t. t.number };

    ghost invariant = { λ t. t.number < TRUNKS };

    ghost inverse = { λ n. record { number = n } };
}

impl Trunk {
    /// The trunk group of this number; `None` over 9999.
    pub fn new(number: u16) -> Option<Trunk>
        ensures variant { IsSome result ↔ (number < TRUNKS) }
        ensures value { IfSome result (λ t. t ≡ number) }
    {
        if number < TRUNKS {
            Some(Trunk { number })
        } else {
            None
        }
    }

    /// The group's number.
    pub fn get(self) -> u16
        ensures value { result ≡ self }
        ensures below { result < TRUNKS }
    {
        self.number
    }
}

impl Default for Trunk {
    ghost is_default = { λ t. t ≡ 0 };

    fn default() -> Trunk {
        Trunk { number: 0 }
    }
}
