// Keyings that wait for a wink of the far office.
ghost use Rattle.std.specs.Prelude.{◌≡◌, ◌≤◌, ◌+◌};

use std::alloc::{AllocError, Global};
use std::marker::Model;
use xb_model::{Contact, Mark};

/// The shortest make that is a wink, in ms.
pub(crate) const LEAST_WINK: u128 = 100;

/// The longest make that is a wink, in ms.
pub(crate) const MOST_WINK: u128 = 350;

/// How long before a number is keyed its wink ended, at least, in ms.
pub(crate) const AFTER_WINK: u128 = 70;

/// How long a keying waits for its wink, in ms.
pub const LONGEST_WAIT: u128 = 5_000;

/// The longest that the rows of the lead, or those of the clock, may last in all, in ms.
pub(crate) const MOST_MS: u128 = 1 << 100;

/// What becomes of the keying that waits first, with the end of a row of the clock.
#[derive(Clone, Copy, Debug, PartialEq, Eq)]
pub enum Fate {
    /// None waits.
    Idle,
    /// It waits on.
    Waits,
    /// Its wink came: it is keyed.
    Keyed,
    /// Its wink did not come in time: it never sounds.
    GivenUp,
}

/// What is settled with the end of a row of the clock.
#[derive(Drop)]
pub struct Settled {
    /// What becomes of the keying that waits first.
    pub fate: Fate,
    /// Its marks, where it is keyed or given up.
    pub marks: Vec<Mark>,
}

/// The keyings that wait for a wink of the far office, in order.
///
/// It holds their marks, and nothing that grows with the rows.
#[derive(Drop)]
pub struct StartDial {
    lead_ms: u128,
    make_ms: u128,
    now_ms: u128,
    since_ms: u128,
    wink: Option<u128>,
    waiting: Vec<Vec<Mark>>,
}

impl Model for StartDial {
    ghost use Rattle.std.specs.Prelude.{◌≤◌, IfSome, map};
    ghost use Rattle.xb_trunk.specs.Starts.{Dial};
    ghost use Rattle.xb_trunk.specs.declared.start_dial.TheConstants.{MOST_MS};

    ghost Value = { Dial };

    ghost view = { λ d. record {
      lead_ms = d.lead_ms;
      make_ms = d.make_ms;
      now_ms = d.now_ms;
      since_ms = d.since_ms;
      wink = d.wink;
      waiting = map (λ marks. marks.items) d.waiting.items;
    } };

    ghost invariant = { λ d. (d.lead_ms ≤ MOST_MS)
        × ((d.make_ms ≤ d.lead_ms)
        × ((d.now_ms ≤ MOST_MS)
        × ((d.since_ms ≤ d.now_ms)
        × IfSome d.wink (λ ended. ended ≤ d.lead_ms)))) };
}

impl StartDial {
    ghost use Rattle.std.specs.Prelude.{IfOk, OnOk, length};
    ghost use Rattle.xb_trunk.specs.Starts.{after_clock, after_lead, fate_at, is_ready, is_winked, lead_by, marks_by, no_dial, settled, wink_with, with_keying};
    ghost use Rattle.xb_trunk.specs.declared.start_dial.TheConstants.{MOST_MS};

    /// No row came, and none waits.
    pub fn new(alloc: Global) -> StartDial
        ensures { result ≡ no_dial }
    {
        StartDial {
            lead_ms: 0,
            make_ms: 0,
            now_ms: 0,
            since_ms: 0,
            wink: None,
            waiting: Vec::new(alloc),
        }
    }

    // Whether a break now ends a wink that counts.
    fn is_winked(&self) -> bool
        ensures { result ≡ is_winked self.now }
    {
        LEAST_WINK <= self.make_ms
            && self.make_ms <= MOST_WINK
            && self.since_ms + self.make_ms <= self.lead_ms
    }

    // The first wink that counts, where a break comes now.
    fn wink(&self) -> Option<u128>
        ensures { result ≡ wink_with self.now self.now.wink }
    {
        match self.wink {
            Some(ended) => Some(ended),
            None if self.is_winked() => Some(self.lead_ms),
            None => None,
        }
    }

    /// Takes a row of the lead: what it does, and for how many ms. A row of 0 ms says nothing.
    pub fn take_lead_row(&mut self, contact: Contact, ms: u32)
        requires { self.old.lead_ms + ms ≤ MOST_MS }
        ensures { self.new ≡ after_lead self.old contact ms }
    {
        if ms == 0 {
            return;
        }
        match contact {
            Contact::Make => self.make_ms += u128::from(ms),
            Contact::Brk | Contact::Close => {
                self.wink = self.wink();
                self.make_ms = 0;
            }
        }
        self.lead_ms += u128::from(ms);
    }

    // Whether a wink ended long enough before now.
    fn is_ready(&self, now: u128) -> bool
        requires { now ≤ MOST_MS }
        ensures { result ≡ is_ready now self.now.wink }
    {
        match self.wink {
            Some(ended) => ended + AFTER_WINK <= now,
            None => false,
        }
    }

    // What becomes of the first keying now.
    fn fate(&self, now: u128) -> Fate
        requires { now ≤ MOST_MS }
        ensures { result ≡ fate_at self.now now }
    {
        if self.waiting.is_empty() {
            Fate::Idle
        } else if self.is_ready(now) {
            Fate::Keyed
        } else if self.since_ms + LONGEST_WAIT <= now {
            Fate::GivenUp
        } else {
            Fate::Waits
        }
    }

    // The first keying goes, if there is one, and the next one waits from now on.
    fn go_on(&mut self, alloc: Global, now: u128) -> Vec<Mark>
        requires { now ≤ MOST_MS }
        ensures state { self.new ≡ settled self.old now Fate.Keyed }
        ensures marks { result.items ≡ marks_by Fate.Keyed self.old.waiting }
    {
        self.now_ms = now;
        self.since_ms = now;
        self.wink = None;
        if self.waiting.is_empty() {
            Vec::new(alloc)
        } else {
            self.waiting.remove(0)
        }
    }

    // The marks of a row wait, where it has any.
    fn queue(&mut self, alloc: Global, marks: &[Mark]) -> Result<(), AllocError>
        ensures { OnOk result (self.new ≡ with_keying self.old marks.now) }
    {
        if marks.is_empty() {
            return Ok(());
        }
        let mut keying = Vec::new(alloc);
        keying.extend_from_slice(marks)?;
        self.waiting.push(keying)?;
        Ok(())
    }

    /// Takes a row of the clock, of so many ms, that completes these marks: with its end the keying that waited first
    /// is keyed, given up, or waits on; and the row's marks wait, after it, where there are any. `Err` says that memory
    /// ran out.
    pub fn take_clock_row(
        &mut self,
        alloc: Global,
        ms: u32,
        marks: &[Mark],
    ) -> Result<Settled, AllocError>
        requires { self.old.now_ms + ms ≤ MOST_MS }
        ensures state { OnOk result (self.new ≡ after_clock self.old ms marks.now) }
        ensures fate { IfOk result (λ is. is.fate ≡ fate_at self.old (self.old.now_ms + ms)) }
        ensures marks { IfOk result (λ is. is.marks.items ≡ marks_by is.fate self.old.waiting) }
    {
        let now = self.now_ms + u128::from(ms);
        let fate = self.fate(now);
        let first = if fate == Fate::Waits {
            self.now_ms = now;
            Vec::new(alloc)
        } else {
            self.go_on(alloc, now)
        };
        self.queue(alloc, marks)?;
        Ok(Settled { fate, marks: first })
    }

    /// How many keyings wait.
    pub fn waiting(&self) -> usize
        ensures { result ≡ length self.now.waiting }
    {
        self.waiting.len()
    }
}
