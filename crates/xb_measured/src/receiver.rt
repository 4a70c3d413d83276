// A receiver that measures what it hears.
ghost use Rattle.std.specs.Prelude.{◌≡◌, List, ℤ};
ghost use Rattle.xb_ear.specs.declared.hearing.Heard.{Heard as GivenKey};
ghost use Rattle.xb_ear.specs.Receivers.{HasReceived as HasEarReceived};
ghost use Rattle.xb_measured.specs.Tapes.{IsTapeOf, heard_in};

use crate::heard::Heard;
use crate::holes::blank_of;
use crate::last_samples::LastSamples;
use std::marker::Model;
use xb_ear::{Heard as EarKey, Receiver as Ear};

/// A receiver that takes one sample at a time, and gives each key as it ends, with its tones as they are measured then
/// on the last samples. It keeps 1,420 of these beside what the receiver of `xb_ear` keeps.
#[derive(Drop)]
pub struct Receiver {
    ear: Ear,
    tape: LastSamples,
}

// Clauses see what the ear knows, and the tape.
impl Model for Receiver {
    ghost use Rattle.xb_measured.specs.Receivers.{Receiving};

    ghost Value = { Receiving };

    ghost view = { λ receiver. record { ear = receiver.ear; tape = receiver.tape } };
}

// A key that is given now, with its tones.
fn measured(ear: &Ear, tape: &LastSamples, key: EarKey) -> Heard
    ensures { (samples : List ℤ) (keys : List GivenKey) → HasEarReceived ear.now samples keys
        → IsTapeOf tape.now samples → result ≡ heard_in samples key }
{
    tape.measure(key, blank_of(ear, key))
}

impl Receiver {
    ghost use Rattle.std.specs.Prelude.{◌≡◌, [], ◌∷◌, ◌++◌, List, ℤ};
    ghost use Rattle.xb_measured.specs.declared.heard.Heard.{Heard as HeardKey};
    ghost use Rattle.xb_measured.specs.Receivers.{HasReceived, keys_of_sound, listed};

    /// A receiver that has taken no sample.
    pub fn new() -> Receiver
        ensures { HasReceived result [] [] }
    {
        Receiver {
            ear: Ear::new(),
            tape: LastSamples::new(),
        }
    }

    /// Takes a sample, and gives the key that it ends.
    pub fn take(&mut self, sample: i16) -> Option<Heard>
        ensures { (samples : List ℤ) (keys : List HeardKey) → HasReceived self.old samples keys
            → HasReceived self.new (samples ++ sample ∷ []) (keys ++ listed result) }
    {
        self.tape.take(sample);
        match self.ear.take(sample) {
            Some(key) => Some(measured(&self.ear, &self.tape, key)),
            None => None,
        }
    }

    /// The key that sounds where the samples end.
    pub fn finish(&self) -> Option<Heard>
        ensures { (samples : List ℤ) (keys : List HeardKey) → HasReceived self.now samples keys
            → keys ++ listed result ≡ keys_of_sound samples }
    {
        match self.ear.finish() {
            Some(key) => Some(measured(&self.ear, &self.tape, key)),
            None => None,
        }
    }
}
