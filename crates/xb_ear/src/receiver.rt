// A receiver, which takes one sample at a time.
ghost use Rattle.std.specs.Prelude.{◌≡◌, take, drop};

use crate::ear_parts::PlainEar;
use crate::echo_tails::{TAIL_WINDOWS, move_on, without_tail};
use crate::hearing::{Heard, Hearing, hear, silent};
use crate::hum::{beside, lessened};
use crate::levels::levels_of;
use crate::sight::{Sight, seen};
use std::marker::Model;

// How many samples a window has, and how many the next one begins later.
const WINDOW: usize = 80;

const HOP: usize = 20;

/// A receiver that takes one sample at a time, for as long as they come, and gives the keys but for the tails that a
/// room leaves of them. It keeps 80 samples, what stood out in the last 64 windows, and the least that lay beside of late.
#[derive(Drop)]
pub struct Receiver {
    window: [i16; WINDOW],
    filled: usize,
    held: [Option<Sight>; TAIL_WINDOWS],
    least: u64,
    hearing: Hearing,
}

// Clauses see the samples that the next window begins with, and what is known.
impl Model for Receiver {
    ghost use Rattle.std.specs.Prelude.{◌<◌, take};
    ghost use Rattle.xb_ear.specs.Receivers.{Receiving};

    ghost Value = { Receiving };

    ghost view = { λ receiver. record {
      recent = take receiver.filled receiver.window;
      held = receiver.held;
      least = receiver.least;
      hearing = receiver.hearing;
    } };

    ghost invariant = { λ receiver. receiver.filled < 80 };
}

// The last 60 samples of a window are the first 60 of the next one.
fn shifted(window: [i16; WINDOW]) -> [i16; WINDOW]
    ensures { take 60 result ≡ drop 20 window }
{
    let mut next = window;
    next.copy_within(HOP.., 0);
    next
}

impl Receiver {
    ghost use Rattle.std.specs.Prelude.{◌≡◌, ◌<◌, ◌↔◌, [], ◌∷◌, ◌++◌, List, ℤ, IsSome, IfSome};
    ghost use Rattle.xb_ear.specs.declared.hearing.Heard.{Heard as HeardKey};
    ghost use Rattle.xb_ear.specs.Hearings.{listed};
    ghost use Rattle.xb_ear.specs.Plain.{receiving_in};
    ghost use Rattle.xb_ear.specs.Receivers.{HasReceived, keys_of_sound};

    /// A receiver that has taken no sample.
    pub fn new() -> Receiver
        ensures { HasReceived result [] [] }
    {
        Receiver {
            window: [0; WINDOW],
            filled: 0,
            held: [None; TAIL_WINDOWS],
            least: 0,
            hearing: silent(),
        }
    }

    /// Takes a sample, and gives the key that it ends.
    pub fn take(&mut self, sample: i16) -> Option<Heard>
        ensures { (samples : List ℤ) (keys : List HeardKey) → HasReceived self.old samples keys
            → HasReceived self.new (samples ++ sample ∷ []) (keys ++ listed result) }
    {
        self.window[self.filled] = sample;
        self.filled += 1;
        if self.filled < WINDOW {
            return None;
        }
        let levels = levels_of(&self.window);
        let sight = seen(self.least, levels);
        let (hearing, key) = hear(self.hearing, without_tail(&self.held, sight));
        self.hearing = hearing;
        move_on(&mut self.held, sight);
        self.least = lessened(self.least, beside(levels));
        self.window = shifted(self.window);
        self.filled = WINDOW - HOP;
        key
    }

    /// The key that sounds where the samples end.
    pub fn finish(&self) -> Option<Heard>
        ensures { (samples : List ℤ) (keys : List HeardKey) → HasReceived self.now samples keys
            → keys ++ listed result ≡ keys_of_sound samples }
    {
        self.hearing.sounding
    }

    /// A receiver that goes on from what another knew. `None` where the window is full.
    pub fn of_parts(plain: PlainEar) -> Option<Receiver>
        ensures variant { IsSome result ↔ (plain.filled < 80) }
        ensures value { IfSome result (λ receiver. receiver ≡ receiving_in plain) }
    {
        if plain.filled >= 80 {
            return None;
        }
        let window = plain.window;
        let held = plain.held;
        Some(Receiver {
            window,
            filled: plain.filled,
            held,
            least: plain.least,
            hearing: plain.hearing,
        })
    }

    /// What it knows, from which another goes on.
    pub fn parts(&self) -> PlainEar
        ensures value { receiving_in result ≡ self.now }
        ensures few { result.filled < 80 }
    {
        let window = self.window;
        let held = self.held;
        PlainEar {
            window,
            filled: self.filled,
            held,
            least: self.least,
            hearing: self.hearing,
        }
    }
}
