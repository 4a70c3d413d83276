// A line whose bell may ring.
ghost use Rattle.std.specs.Prelude.{◌≡◌};
ghost use Rattle.xb_contact.specs.Ringing.{begun_ringing, call_level, in_break, in_make, is_answering, make_lasts, rung, with_make_on, with_next_make};
ghost use Rattle.xb_contact.specs.RingingLaws.{PassesTheAnswered};

use crate::bell::Bell;
use crate::hold::Hold;
use crate::level::Level;
use crate::seizer::is_short_on_hook;
use std::marker::Model;

/// For how many ms after a burst of ringing an answer counts. Bursts come every 6 s, with 4 s between two of them.
pub const ANSWER_MS: u32 = 4500;

/// A line whose bell may ring: it takes holds as they come, in ms, and gives each at once, as it is, or as a break where
/// it is of a call that answers the bell. On hook, 8 periods in a row and more are a burst, each a make and a
/// break of 15 to 67 ms together. A call answers it whose first make begins while an answer counts; until
/// then each make on hook is given as a break. Memory does not grow with the recording.
#[derive(Debug, Drop)]
pub struct Ringer {
    // For how many ms after a burst an answer counts.
    wait: u64,
    // From how many ms on a make on hook takes the line off hook.
    least: u64,
    // After so many ms of a break the line is on hook.
    release: u64,
    // The level of the last hold.
    level: Level,
    // The level at which the makes of the call are given.
    call: Level,
    // How many ms of a break it lacks to be on hook.
    lacks: u64,
    // How many ms the make under way lacks to take the line off hook.
    wants: u64,
    bell: Bell,
}

impl Model for Ringer {
    ghost use Rattle.xb_contact.specs.Ringing.{Ringing, ringing_of};

    ghost Value = { Ringing };

    ghost view = { λ s. ringing_of s.wait s.least s.release s.level s.call s.lacks s.wants s.bell };
}

// The level at which a make is given that begins on hook: open where an answer counts.
fn call_level(bell: Bell) -> Level
    ensures { result ≡ call_level bell }
{
    if bell.waits == 0 {
        Level::Closed
    } else {
        Level::Open
    }
}

impl Ringer {
    /// A line on hook. An answer counts for `wait` ms after a burst, and where that is 0 each hold is given as it is. A
    /// make of `least` ms takes the line off hook, and a break of `release` ms puts it on hook again.
    pub fn new(wait: u32, least: u32, release: u32) -> Ringer
        ensures line { result ≡ begun_ringing wait least release }
        ensures passes { PassesTheAnswered wait least release }
    {
        Ringer {
            wait: u64::from(wait),
            least: u64::from(least),
            release: u64::from(release),
            level: Level::Open,
            call: Level::Closed,
            lacks: 0,
            wants: 0,
            bell: Bell::silent(),
        }
    }

    /// Whether the line is in a call that answers the bell: it took the line off hook, and is given as a break.
    pub fn is_answering(&self) -> bool
        ensures { result ≡ is_answering self.now }
    {
        self.lacks > 0 && self.call == Level::Open
    }

    // A break that lasts.
    fn take_break(&mut self, ticks: u64)
        ensures { self.new ≡ in_break self.old ticks }
    {
        self.level = Level::Open;
        self.lacks = self.lacks.saturating_sub(ticks);
        self.bell = self.bell.later(ticks);
    }

    // A make begins after a break.
    fn begin_make(&mut self)
        ensures { self.new ≡ with_next_make self.old }
    {
        self.level = Level::Closed;
        if self.lacks > 0 {
            return;
        }
        let bell = self.bell.with_make(self.wait);
        self.call = call_level(bell);
        self.wants = self.least;
        self.bell = bell;
    }

    // A make goes on, or begins.
    fn go_on_with_make(&mut self)
        ensures { self.new ≡ with_make_on self.old }
    {
        if self.level == Level::Open {
            self.begin_make();
        }
    }

    // A make lasts.
    fn last(&mut self, ticks: u64)
        ensures { self.new ≡ make_lasts self.old ticks }
    {
        self.level = Level::Closed;
        if is_short_on_hook(self.wants, self.lacks, ticks) {
            self.wants = self.wants.saturating_sub(ticks);
            self.bell = self.bell.later(ticks);
            return;
        }
        self.lacks = self.release;
        self.wants = 0;
        self.bell = Bell::silent();
    }

    // A make that lasts. It is given at the level that is returned.
    fn take_make(&mut self, ticks: u64) -> Level
        ensures level { result ≡ (in_make self.old ticks).call }
        ensures line { self.new ≡ in_make self.old ticks }
    {
        self.go_on_with_make();
        self.last(ticks);
        self.call
    }

    /// Takes the next hold of the line, in ms, and gives it, open where it belongs to a call that answers the bell. A
    /// hold of 0 ms is given as it is, and counts for nothing.
    pub fn take(&mut self, hold: Hold) -> Hold
        ensures given { result ≡ (rung self.old hold).given }
        ensures line { self.new ≡ (rung self.old hold).after }
    {
        let Hold { level, ticks } = hold;
        if ticks == 0 {
            return hold;
        }
        match level {
            Level::Open => {
                self.take_break(ticks);
                hold
            }
            Level::Closed => Hold {
                level: self.take_make(ticks),
                ticks,
            },
        }
    }
}
