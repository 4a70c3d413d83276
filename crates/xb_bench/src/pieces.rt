// A contact that is settled as it comes, in ticks.
ghost use Rattle.std.specs.Prelude.{◌≡◌, ◌-◌, ◌<◌, ◌≤◌};
ghost use Rattle.xb_contact.specs.Holds.{hold_of};
ghost use Rattle.xb_contact.specs.Machine.{at_end};
ghost use Rattle.xb_bench.specs.Pieces.{begun_pieces, now_of, piece_given, pieces_after};

use std::marker::Model;
use xb_contact::{Hold, Level, Settler, Settling};

/// A contact that is settled as it comes: it takes a recording in ticks, and gives the settled record piece by piece.
#[derive(Debug, Drop)]
pub(crate) struct Pieces {
    settler: Settler,
    settling: Settling,
    // The tick up to which the recording is taken.
    taken: u64,
    // The tick up to which it is settled.
    at: u64,
}

impl Model for Pieces {
    ghost use Rattle.xb_bench.specs.Pieces.{AreCounted, Settled, settled_of};

    ghost Value = { Settled };

    ghost view = { λ s. settled_of s.settler s.settling s.at };

    ghost invariant = { λ s. AreCounted s.settling s.taken s.at };
}

impl Pieces {
    /// A contact at tick 0 of its recording, where it has this level. A run of `least` ticks is settled.
    pub(crate) fn new(least: u64, first: Level) -> Pieces
        requires { 0 < least }
        ensures { result ≡ begun_pieces least first }
    {
        Pieces {
            settler: Settler::new(least),
            settling: Settling::new(first),
            taken: 0,
            at: 0,
        }
    }

    /// The tick up to which the recording is taken.
    pub(crate) fn now(&self) -> u64
        ensures { result ≡ now_of self.now }
    {
        self.taken
    }

    /// The contact holds `level` from `now` until this tick. It returns the piece of the settled record that is certain
    /// with it, if one is: whatever comes later, it stands.
    pub(crate) fn take_until(&mut self, level: Level, until: u64) -> Option<Hold>
        requires { now_of self.old ≤ until }
        ensures after { self.new ≡ pieces_after self.old (hold_of level (until - now_of self.old)) }
        ensures given { result ≡ piece_given self.old (hold_of level (until - now_of self.old)) }
    {
        let ticks = until - self.taken;
        let piece = self.settler.take(&mut self.settling, Hold { level, ticks });
        self.taken = until;
        if let Some(hold) = piece {
            self.at += hold.ticks;
        }
        piece
    }

    /// What is left to be given where the recording ends.
    pub(crate) fn end(&self) -> Option<Hold>
        ensures { result ≡ at_end self.now.phase }
    {
        self.settling.end()
    }
}
