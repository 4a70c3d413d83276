// A contact that is listened to.
ghost use Rattle.std.specs.Prelude.{◌≡◌, ◌+◌, ◌-◌, ◌^◌, ◌<◌, ◌≤◌, ◌++◌, ◌↔◌, IsTrue};
ghost use Rattle.xb_contact.specs.Holds.{hold_of};
ghost use Rattle.xb_contact.specs.Machine.{pieces_of, unsettled};
ghost use Rattle.xb_contact.specs.Listening.{CanTake, begun_at, given_now, heard_after, now_of, told_at_end};
ghost use Rattle.xb_contact.specs.Times.{CanCount, ms_at, rounded_hold};
ghost use Rattle.xb_contact.specs.Joints.{joined_by};

use crate::hold::Hold;
use crate::joint::{Joint, joined_by, left_of};
use crate::level::Level;
use crate::scale::Scale;
use crate::settler::Settler;
use crate::settling::Settling;
use std::marker::Model;

// A piece that settles at tick `at`, in ms, after what may still grow longer.
#[tactic(auto, using(crate::proofs::RoundedHolds::ms_at_grows))]
fn in_ms(scale: Scale, most: u64, at: u64, last: Hold, piece: Hold) -> Joint
    requires some { 0 < scale.ticks }
    requires fits { CanCount scale (at + piece.ticks) }
    requires room { at + piece.ticks < 2 ^ 64 }
    requires before { last.ticks ≤ ms_at scale at }
    ensures value { result ≡ joined_by most last (rounded_hold scale at piece) }
    ensures within { result.last.ticks ≤ ms_at scale (at + piece.ticks) }
{
    let from = scale.ms_at(at);
    let ticks = scale.ms_at(at + piece.ticks) - from;
    let level = piece.level;
    joined_by(most, last, Hold { level, ticks })
}

/// A contact that is listened to: it takes a recording as it comes, in ticks, and gives the settled record in
/// ms. Memory does not grow with the recording.
#[derive(Debug, Drop)]
pub struct Listener {
    settler: Settler,
    scale: Scale,
    // From how many ms on a run is given in parts.
    most: u64,
    settling: Settling,
    // The tick up to which the recording is taken.
    taken: u64,
    // The tick up to which it is settled.
    at: u64,
    // What may still grow longer, in ms.
    last: Hold,
}

impl Model for Listener {
    ghost use Rattle.xb_contact.specs.Listening.{Heard, IsCounted, heard_of};

    ghost Value = { Heard };

    ghost view = { λ s. heard_of s.settler s.scale s.most s.settling s.at s.last };

    ghost invariant = { λ s. IsCounted s.scale s.settling s.taken s.at s.last };
}

impl Listener {
    /// A contact at tick 0 of its recording, where it has this level. A run of `least` ticks is settled, and
    /// one of `most` ms is given in parts.
    pub fn new(settler: Settler, scale: Scale, most: u64, first: Level) -> Listener
        requires some { 0 < scale.ticks }
        requires fits { CanCount scale 0 }
        ensures { result ≡ begun_at settler scale most first }
    {
        Listener {
            settler,
            scale,
            most,
            settling: Settling::new(first),
            taken: 0,
            at: 0,
            last: Hold {
                level: first,
                ticks: 0,
            },
        }
    }

    /// The tick up to which the recording is taken.
    pub fn now(&self) -> u64
        ensures { result ≡ now_of self.now }
    {
        self.taken
    }

    /// Whether the contact can be taken up to this tick: it is not before `now`, and can be counted in ms.
    pub fn can_take(&self, until: u64) -> bool
        ensures { IsTrue result ↔ CanTake self.now until }
    {
        until >= self.taken && self.scale.can_count(until)
    }

    /// The contact holds `level` from `now` until this tick. It returns the hold in ms that is certain with it,
    /// if one is: whatever comes later, it stands. Holds of one level may follow each other.
    pub fn take_until(&mut self, level: Level, until: u64) -> Option<Hold>
        requires { CanTake self.old until }
        ensures heard { self.new ≡ heard_after self.old (hold_of level (until - now_of self.old)) }
        ensures given { result ≡ given_now self.old (hold_of level (until - now_of self.old)) }
    {
        let ticks = until - self.taken;
        let piece = self.settler.take(&mut self.settling, Hold { level, ticks });
        self.taken = until;
        match piece {
            None => None,
            Some(piece) => {
                let Joint { given, last } = in_ms(self.scale, self.most, self.at, self.last, piece);
                self.at += piece.ticks;
                self.last = last;
                given
            }
        }
    }

    /// What is left to be given where the recording ends, in order.
    pub fn end(self) -> (Option<Hold>, Option<Hold>)
        ensures { pieces_of result.0 ++ pieces_of result.1 ≡ told_at_end self }
    {
        match self.settling.end() {
            None => (None, left_of(self.last)),
            Some(piece) => {
                let Joint { given, last } = in_ms(self.scale, self.most, self.at, self.last, piece);
                (given, left_of(last))
            }
        }
    }
}
