// How a post waits for others.
ghost use Rattle.std.specs.Prelude.{◌≡◌, ◌+◌, ◌*◌, ◌/◌, nat_lt, if◌then◌else◌};
ghost use Rattle.xb_flow.specs.Pauses.{PauseView};

use rtrb::{Consumer, Producer};
use std::marker::Model;
use std::thread;
use std::time::{Clock, Duration};

/// How often a wait yields before it sleeps.
const AWAKE: u32 = 64;

/// The longest sleep that is asked for, in microseconds. A usual system adds some 55 to each.
const LONGEST_NAP: u32 = 127;

/// The most waits that find few items and yet do not have the next one sleep at once.
const MOST_CAUTION: u32 = 16_383;

/// How a post waits whose turn made no event, by what its waits have found at their end: items where
/// it wants items, and room where it has something to send. Where that was little for the ring, the
/// next wait sleeps at once, twice as long each time. Where it was half of the ring, the sleep was too
/// long; where a short one was, waits yield first, and it takes twice as many that find little until
/// one sleeps at once again. A yield leaves the processor to those that it waits for; a wait that has
/// yielded often sleeps too. Clauses see how often this wait has yielded or slept, how long it sleeps
/// at once (0 where it yields first), and how many waits are to find little before one does.
#[derive(Debug, Drop)]
pub struct Pause {
    waited: u32,
    nap: u32,
    wary: u32,
    caution: u32,
}

impl Model for Pause {
    ghost Value = { PauseView };

    ghost view = { λ pause. record {
      waited = pause.waited;
      nap = pause.nap;
      wary = pause.wary;
      caution = pause.caution;
    } };
}

// Twice as many and one more, `most` at most.
fn more(count: u32, most: u32) -> u32
    ensures { result ≡ (if nat_lt count (most / 2) then count * 2 + 1 else most) }
{
    if count < most / 2 {
        count * 2 + 1
    } else {
        most
    }
}

impl Pause {
    ghost use Rattle.std.specs.Prelude.{◌≡◌, length};
    ghost use Rattle.rtrb.specs.Ring.{known_free, known_items, producer_capacity, consumer_capacity};
    ghost use Rattle.xb_flow.specs.Pauses.{after_wait, after_over, after_yields, after_long_nap};

    /// No wait yet.
    pub fn new() -> Pause
        ensures { result ≡ record { waited = 0; nap = 0; wary = 0; caution = 0 } }
    {
        Pause {
            waited: 0,
            nap: 0,
            wary: 0,
            caution: 0,
        }
    }

    /// Waits a little: each call yields or sleeps once.
    pub fn wait<R: Clock>(&mut self, rt: &R)
        ensures { self.new ≡ after_wait self.old }
    {
        if self.nap == 0 && self.waited < AWAKE {
            thread::yield_now();
        } else {
            thread::sleep(rt, Duration::from_micros(u64::from(self.nap.max(1))));
            self.nap = more(self.nap, LONGEST_NAP);
        }
        self.waited = self.waited.saturating_add(1);
    }

    /// The wait is over, if there was one, and `found` more items (or places) were there than the one
    /// that was waited for, in a ring with room for `room`.
    pub fn over(&mut self, found: usize, room: usize)
        ensures { self.new ≡ after_over found room self.old }
    {
        if self.waited == 0 {
            return;
        }
        self.waited = 0;
        let little = found < room / 8;
        if self.nap == 0 {
            self.yielded_for(little);
        } else if found >= room / 2 {
            self.slept_too_long();
        } else {
            self.caution = 0;
            if !little {
                self.nap /= 2;
            }
        }
    }

    /// The wait for an item of this ring is over, if there was one: the first of those that came was taken.
    pub fn items_came<T>(&mut self, consumer: &Consumer<T>)
        ensures { self.new
            ≡ after_over (length (known_items consumer.now)) (consumer_capacity consumer.now) self.old }
    {
        self.over(consumer.cached_slots(), consumer.capacity());
    }

    /// The wait for room in this ring is over, if there was one: the first place was taken.
    pub fn room_came<T>(&mut self, producer: &Producer<T>)
        ensures { self.new ≡ after_over (known_free producer.now) (producer_capacity producer.now) self.old }
    {
        self.over(producer.cached_slots(), producer.capacity());
    }

    // A wait that did not sleep has found little, or more.
    fn yielded_for(&mut self, little: bool)
        ensures { self.new ≡ after_yields little self.old }
    {
        if !little {
            return;
        }
        if self.wary == 0 {
            self.nap = 1;
        } else {
            self.wary -= 1;
        }
    }

    // A wait that slept has found half of the ring or more.
    fn slept_too_long(&mut self)
        ensures { self.new ≡ after_long_nap self.old }
    {
        self.nap /= 4;
        if self.nap == 0 {
            self.caution = more(self.caution, MOST_CAUTION);
            self.wary = self.caution;
        }
    }
}
