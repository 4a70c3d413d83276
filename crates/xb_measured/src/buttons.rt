// The blocks of a sound, as they come.
ghost use Rattle.std.specs.Prelude.{◌≡◌, ◌≤◌, length};

use crate::button_block::has_digit;
use arrayvec::ArrayVec;
use std::marker::Model;

/// How many samples a block has: 20 ms.
pub(crate) const BLOCK: usize = 160;

/// In how many blocks of a sound a digit of a push-button telephone sounds, as its samples come.
#[derive(Drop)]
pub struct Buttons {
    // the samples that stand in no whole block
    rest: ArrayVec<i16, BLOCK>,
    blocks: u64,
}

impl Model for Buttons {
    ghost use Rattle.std.specs.Prelude.{◌<◌, length};
    ghost use Rattle.xb_measured.specs.ButtonBlocks.{Pressed};

    ghost Value = { Pressed };

    ghost view = { λ buttons. record { rest = buttons.rest.items; blocks = buttons.blocks } };

    ghost invariant = { λ buttons. length buttons.rest.items < 160 };
}

impl Buttons {
    ghost use Rattle.std.specs.Prelude.{◌≡◌, [], ◌∷◌, ◌++◌, List, ℤ};
    ghost use Rattle.xb_measured.specs.ButtonBlocks.{HasTaken};

    /// Before the first sample.
    pub fn new() -> Buttons
        ensures { HasTaken result [] }
    {
        Buttons {
            rest: ArrayVec::new(),
            blocks: 0,
        }
    }

    /// Takes a sample.
    pub fn take(&mut self, sample: i16)
        ensures { (samples : List ℤ) → HasTaken self.old samples → HasTaken self.new (samples ++ sample ∷ []) }
    {
        self.rest.push(sample);
        if self.rest.len() < BLOCK {
            return;
        }
        if has_digit(&self.rest) {
            self.blocks = self.blocks.saturating_add(1);
        }
        self.rest.clear();
    }

    /// In how many blocks a digit sounds.
    pub fn blocks(&self) -> u64
        ensures { result ≡ self.now.blocks }
    {
        self.blocks
    }
}
