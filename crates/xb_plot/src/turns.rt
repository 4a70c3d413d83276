// The last digits of a line.
ghost use Rattle.std.specs.Prelude.{◌≡◌, ◌<◌, length};
ghost use Rattle.xb_plot.specs.Turns.{no_turns, with_room, with_turn};

use arrayvec::ArrayVec;
use std::marker::Model;
use xb_turns::Train;

/// How many digits of a line are drawn at most.
pub const MOST_TURNS: usize = 1_000;

/// A digit that was dialled.
#[derive(Clone, Copy, Debug, Default, PartialEq, Eq)]
pub struct Turn {
    /// Its pulses, which a pause ended.
    pub train: Train,
    /// The longest bounce up to that, in ticks.
    pub bounce: u64,
}

/// The last digits of a line, and how many older ones there were. They take no memory of their own, so that
/// each digit is taken; a value has some 150 KB.
#[derive(Drop)]
pub struct Turns {
    kept: ArrayVec<Turn, MOST_TURNS>,
    older: u64,
}

impl Model for Turns {
    ghost use Rattle.std.specs.Prelude.{◌≤◌, length};
    ghost use Rattle.xb_plot.specs.Turns.{LastTurns};

    ghost Value = { LastTurns };

    ghost view = { λ s. record { turns = s.kept.items; older = s.older } };

    ghost invariant = { λ s. length s.kept.items ≤ 1000 };
}

impl Turns {
    /// None yet.
    pub fn new() -> Turns
        ensures { result ≡ no_turns }
    {
        Turns {
            kept: ArrayVec::new(),
            older: 0,
        }
    }

    // Where there are enough, the oldest goes.
    fn make_room(&mut self)
        ensures rest { self.new ≡ with_room self.old }
        ensures room { length self.new.turns < 1000 }
    {
        if self.kept.len() >= MOST_TURNS {
            self.kept.remove(0);
            self.older = self.older.saturating_add(1);
        }
    }

    /// A digit more; where there are `MOST_TURNS`, the oldest of them goes.
    pub fn take(&mut self, turn: Turn)
        ensures { self.new ≡ with_turn self.old turn }
    {
        self.make_room();
        self.kept.push(turn);
    }

    /// These digits, in order.
    pub fn kept(&self) -> &[Turn]
        ensures { result.now ≡ self.now.turns }
    {
        &self.kept
    }

    /// How many older ones there were.
    pub fn older(&self) -> u64
        ensures { result ≡ self.now.older }
    {
        self.older
    }
}
