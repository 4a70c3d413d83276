// A line that is watched for seizures.
ghost use Rattle.std.specs.Prelude.{◌≡◌, ◌<◌, ◌^◌, true};
ghost use Rattle.xb_contact.specs.Seizures.{is_short_on_hook};
ghost use Rattle.xb_contact.specs.Seizing.{begun_seizing, most_withheld, passed, with_break, with_make, withheld};
ghost use Rattle.xb_contact.specs.SeizingLaws.{PassesTheSeized};

use crate::certain::{Certain, certain_with, nothing};
use crate::hold::Hold;
use crate::joint::left_of;
use crate::level::Level;
use std::marker::Model;

/// A line that is watched for seizures: it takes holds as they come, in ms, and gives them with each make that is too
/// short to seize as a break. Such a make comes where the line is on hook: at the beginning, and once it was open for
/// the release time. Memory does not grow with the recording.
#[derive(Debug, Drop)]
pub struct Seizer {
    // From how many ms on a make seizes.
    least: u64,
    // After so many ms of a break the line is on hook.
    release: u64,
    // From how many ms on a break on hook is given in parts; 0 where each make seizes.
    most: u64,
    // How many ms of a break it lacks to be on hook.
    lacks: u64,
    // How many ms of a break are withheld on hook, and how many of the make after it.
    rest: u64,
    make: u64,
}

impl Model for Seizer {
    ghost use Rattle.xb_contact.specs.Seizing.{AreFew, Seizing, seizing_of};

    ghost Value = { Seizing };

    ghost view = { λ s. seizing_of s.least s.release s.most s.lacks s.rest s.make };

    ghost invariant = { λ s. AreFew s.least s.most s.rest s.make };
}

// Whether a hold of a line that lacks so many ms of a break to be on hook is there, and shorter than `least`.
pub(crate) fn is_short_on_hook(least: u64, lacks: u64, ticks: u64) -> bool
    ensures value { result ≡ is_short_on_hook least lacks ticks }
    ensures short { result ≡ true → ticks < least }
{
    lacks == 0 && ticks < least
}

// From how many ms on a break on hook is given in parts: where each make seizes nothing is withheld.
fn most_withheld(least: u32, most: u32) -> u64
    ensures value { result ≡ most_withheld least most }
    ensures within { result < 2 ^ 32 }
{
    if least == 0 { 0 } else { u64::from(most) }
}

impl Seizer {
    /// A line that is on hook. A make of `least` ms seizes, a break of `release` ms releases it, and one of `most` ms
    /// is given in parts. Where `least` is 0 each hold is given at once, as it is.
    pub fn new(least: u32, release: u32, most: u32) -> Seizer
        requires { 0 < release }
        ensures line { result ≡ begun_seizing least release most }
        ensures passes { PassesTheSeized least release most }
    {
        Seizer {
            least: u64::from(least),
            release: u64::from(release),
            most: most_withheld(least, most),
            lacks: 0,
            rest: 0,
            make: 0,
        }
    }

    // A break that lasts.
    fn take_break(&mut self, ticks: u64) -> Certain
        ensures certain { result ≡ (with_break self.old ticks).given }
        ensures line { self.new ≡ (with_break self.old ticks).after }
    {
        let rest = self.rest + self.make;
        let room = self.most.saturating_sub(rest);
        let lacks = self.lacks.saturating_sub(ticks);
        self.lacks = lacks;
        self.make = 0;
        if is_short_on_hook(room, lacks, ticks) {
            self.rest = rest + ticks;
            return nothing();
        }
        self.rest = 0;
        let level = Level::Open;
        certain_with(rest, 0, Hold { level, ticks })
    }

    // A make that lasts.
    fn take_make(&mut self, ticks: u64) -> Certain
        ensures certain { result ≡ (with_make self.old ticks).given }
        ensures line { self.new ≡ (with_make self.old ticks).after }
    {
        let (rest, make) = (self.rest, self.make);
        let room = self.least.saturating_sub(make);
        if is_short_on_hook(room, self.lacks, ticks) {
            self.make = make + ticks;
            return nothing();
        }
        self.lacks = self.release;
        self.rest = 0;
        self.make = 0;
        let level = Level::Closed;
        certain_with(rest, make, Hold { level, ticks })
    }

    /// Takes the next hold of the line, in ms, and returns what is certain with it. A hold of 0 ms counts for nothing.
    pub fn take(&mut self, hold: Hold) -> Certain
        ensures certain { result ≡ (passed self.old hold).given }
        ensures line { self.new ≡ (passed self.old hold).after }
    {
        if hold.ticks == 0 {
            return nothing();
        }
        match hold.level {
            Level::Open => self.take_break(hold.ticks),
            Level::Closed => self.take_make(hold.ticks),
        }
    }

    /// What is left to be given where the recording ends. A make that is too short up to there is a break.
    pub fn end(self) -> Option<Hold>
        ensures { result ≡ withheld self }
    {
        left_of(Hold {
            level: Level::Open,
            ticks: self.rest + self.make,
        })
    }
}
