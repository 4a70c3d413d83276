// Raw samples.
ghost use Rattle.std.specs.Prelude.{◌≡◌, ◌+◌, ◌++◌, ◌∷◌, ◌<◌, ◌≤◌, ◌^◌, [], ℕ, Ok, IfErr, IfOk, List, OnOk, length, map};
ghost use Rattle.xb_contact.specs.declared.event.Event.{Event as Saying};
ghost use Rattle.xb_contact.specs.Steps.{AddsAll, IsOnly, IsRefusedBy};
ghost use Rattle.xb_samples.specs.Pieces.{RunsOver, SamplesSay, after_piece, piece_events};
ghost use Rattle.xb_samples.specs.Samples.{IsNewBits, RefusesBits, after_sample, bit_level, bits_fault, bits_reading, bits_say, bits_state, is_of_two_with, mask_of, masks_of, rate_says, sample_events, sample_levels, sample_with, wires_in};

use crate::turns::Turns;
use std::alloc::{AllocError, Global};
use xb_contact::{Event, Level, Refusal, Scale, number_of, say};

// How long a tick is where a second has so many samples.
pub(crate) fn say_rate(events: &mut Vec<Event>, rate: Option<u64>) -> Result<(), Refusal>
    ensures said { OnOk result (AddsAll (rate_says rate) events.old.items events.new.items) }
    ensures refused { IfErr result (IsRefusedBy (rate_says rate)) }
{
    match rate {
        Some(ticks) if ticks > 0 => say(events, Event::Ticks(Scale { ms: 1_000, ticks })),
        _ => Err(Refusal::NoRate),
    }
}

/// How many wires raw samples have.
#[derive(Clone, Copy, Debug, PartialEq, Eq)]
pub enum Width {
    /// Eight, in a byte.
    Eight,
    /// Sixteen, in two bytes, the lower one first.
    Sixteen,
}

/// Samples of eight wires or sixteen, as `sigrok-cli -O binary` writes them. Each sample is a tick.
#[derive(Drop)]
pub struct Bits {
    width: Width,
    // For each wire that is asked for, its bit alone.
    masks: Vec<u16>,
    // The lower byte of the next sample, if it has come.
    lower: Option<u8>,
    // The last sample, and how many have come.
    last: Option<u16>,
    count: u64,
    turns: Turns,
}

// How many wires a sample has.
fn wires_in(width: Width) -> u64
    ensures value { result ≡ wires_in width }
    ensures most { result ≤ 16 }
{
    match width {
        Width::Eight => 8,
        Width::Sixteen => 16,
    }
}

// A bit alone.
#[tactic(auto, using(std::proofs::lemmas::Nat::one_shl))]
fn bit_alone(bit: u64) -> u16
    requires { bit < 16 }
    ensures { result ≡ 2 ^ bit }
{
    1 << (bit as u32)
}

// The bit of a wire that is named by its number, from 0 on.
fn mask_of(width: Width, name: &str) -> Option<u16>
    ensures { result ≡ mask_of width name.now }
{
    match number_of(name.as_bytes()) {
        Some(bit) if bit < wires_in(width) => Some(bit_alone(bit)),
        _ => None,
    }
}

// The bits of wires. The first one that has none is told.
fn masks_of(alloc: Global, width: Width, names: &[&str]) -> Result<Vec<u16>, Refusal>
    ensures said { IfOk result (λ masks.
        masks_of width (map (λ name. name.now) names.now) ≡ Ok masks.items) }
    ensures refused { IfErr result (IsRefusedBy (masks_of width (map (λ name. name.now) names.now))) }
{
    let mut masks = Vec::new(alloc);
    for (wire, name) in names.iter().enumerate() {
        match mask_of(width, name) {
            Some(mask) => masks.push(mask).map_err(AllocError::from)?,
            None => return Err(Refusal::NoWire(wire)),
        }
    }
    Ok(masks)
}

// The level of a wire in a sample.
fn bit_level(sample: u16, mask: u16) -> Level
    ensures { result ≡ bit_level sample mask }
{
    if sample & mask == 0 {
        Level::Open
    } else {
        Level::Closed
    }
}

// The sample that a byte completes, after the lower one, if that has come.
fn sample_with(width: Width, lower: Option<u8>, byte: u8) -> Option<u16>
    ensures { result ≡ sample_with width lower byte }
{
    match width {
        Width::Eight => Some(u16::from(byte)),
        Width::Sixteen => match lower {
            None => None,
            Some(lower) => Some(u16::from_le_bytes([lower, byte])),
        },
    }
}

impl Bits {
    /// A reader of the wires of these names, which are their numbers, from 0 on. Without a rate, or with another name,
    /// it is refused, and so is any such recording.
    pub fn new(
        alloc: Global,
        width: Width,
        names: &[&str],
        rate: Option<u64>,
        events: &mut Vec<Event>,
    ) -> Result<Bits, Refusal>
        ensures wires { IfOk result (IsNewBits width (map (λ name. name.now) names.now)) }
        ensures rate { OnOk result (AddsAll (rate_says rate) events.old.items events.new.items) }
        ensures refused { IfErr result (λ e. (bytes : List ℕ)
            → IsRefusedBy (bits_say width (map (λ name. name.now) names.now) rate bytes) e) }
    {
        let masks = masks_of(alloc, width, names)?;
        say_rate(events, rate)?;
        let turns = Turns::new(&masks);
        Ok(Bits {
            width,
            masks,
            lower: None,
            last: None,
            count: 0,
            turns,
        })
    }

    // The levels of the wires in a sample.
    fn say_sample(&self, sample: u16, events: &mut Vec<Event>) -> Result<(), Refusal>
        ensures said { OnOk result
            (events.new.items ≡ events.old.items ++ sample_levels 0 self.now.masks.items sample) }
        ensures only { IfErr result (λ e. e ≡ Refusal.NoMemory) }
    {
        for (wire, mask) in self.masks.iter().enumerate() {
            say(events, Event::Level(wire, bit_level(sample, *mask)))?;
        }
        Ok(())
    }

    // A sample.
    fn take_sample(&mut self, sample: u16, events: &mut Vec<Event>) -> Result<(), Refusal>
        ensures events { OnOk result
            (events.new.items ≡ events.old.items ++ sample_events (bits_state self.old) sample) }
        ensures state { OnOk result (bits_state self.new ≡ after_sample (bits_state self.old) sample) }
        ensures over { IfErr result (RunsOver self.old.count 1) }
        ensures only { IfErr result (IsOnly Refusal.TooLate) }
    {
        if self.last != Some(sample) {
            say(events, Event::At(self.count))?;
            self.say_sample(sample, events)?;
            self.last = Some(sample);
        }
        self.lower = None;
        self.turns = self.turns.after(sample);
        match self.count.checked_add(1) {
            Some(count) => self.count = count,
            None => return Err(Refusal::TooLate),
        }
        Ok(())
    }

    // Whether a sample has two bytes, by this one more: of eight wires, too many in a row go back.
    fn is_of_two_with(&self, byte: u8) -> bool
        ensures { result ≡ is_of_two_with (bits_state self.now) byte }
    {
        match self.width {
            Width::Eight => self.turns.after(u16::from(byte)).are_too_many(),
            Width::Sixteen => false,
        }
    }

    // A byte, whatever the wires do.
    fn put_byte(&mut self, byte: u8, events: &mut Vec<Event>) -> Result<(), Refusal>
        ensures events { OnOk result
            (events.new.items ≡ events.old.items ++ bits_reading.says (bits_state self.old) byte) }
        ensures state { OnOk result (bits_state self.new ≡ bits_reading.next (bits_state self.old) byte) }
        ensures count { OnOk result (self.new.count ≤ self.old.count + 1) }
        ensures over { IfErr result (RunsOver self.old.count 1) }
        ensures only { IfErr result (IsOnly Refusal.TooLate) }
    {
        match sample_with(self.width, self.lower, byte) {
            Some(sample) => self.take_sample(sample, events),
            None => {
                self.lower = Some(byte);
                Ok(())
            }
        }
    }

    // A byte.
    fn take_byte(&mut self, byte: u8, events: &mut Vec<Event>) -> Result<(), Refusal>
        ensures events { OnOk result
            (events.new.items ≡ events.old.items ++ bits_reading.says (bits_state self.old) byte) }
        ensures state { OnOk result (bits_state self.new ≡ bits_reading.next (bits_state self.old) byte) }
        ensures count { OnOk result (self.new.count ≤ self.old.count + 1) }
        ensures faults { OnOk result ((text : List ℕ)
            → bits_fault (bits_state self.new) text ≡ bits_fault (bits_state self.old) (byte ∷ text)) }
        ensures refused { IfErr result (RefusesBits (bits_state self.old) (byte ∷ [])) }
    {
        if self.is_of_two_with(byte) {
            return Err(Refusal::TwoBytes);
        }
        self.put_byte(byte, events)
    }

    // Bytes, one after the other.
    fn take_bytes(&mut self, bytes: &[u8], events: &mut Vec<Event>) -> Result<(), Refusal>
        ensures events { OnOk result
            (events.new.items ≡ events.old.items
            ++ piece_events bits_reading (bits_state self.old) bytes.now) }
        ensures state { OnOk result
            (bits_state self.new ≡ after_piece bits_reading (bits_state self.old) bytes.now) }
        ensures faults { OnOk result ((text : List ℕ)
            → bits_fault (bits_state self.new) text ≡ bits_fault (bits_state self.old) (bytes.now ++ text)) }
        ensures refused { IfErr result (RefusesBits (bits_state self.old) bytes.now) }
    {
        for byte in bytes {
            self.take_byte(*byte, events)?;
        }
        Ok(())
    }

    /// Takes bytes of samples, and adds what they say to `events`, also up to where they go. More than 2^64 - 1 samples
    /// are refused, and the first sample of eight wires by which 250 in a row have gone back, of the wires
    /// that are asked for: `TwoBytes`. After an `Err` the reader is not to be used again.
    pub fn take(&mut self, bytes: &[u8], events: &mut Vec<Event>) -> Result<(), Refusal>
        requires { events.old.items ≡ [] }
        ensures said { OnOk result ((text : List ℕ) (later : List Saying)
            → SamplesSay bits_reading (bits_state self.new) text later
            → SamplesSay bits_reading (bits_state self.old) (bytes.now ++ text)
            (events.new.items ++ later)) }
        ensures faults { OnOk result ((text : List ℕ)
            → bits_fault (bits_state self.new) text ≡ bits_fault (bits_state self.old) (bytes.now ++ text)) }
        ensures refused { IfErr result (RefusesBits (bits_state self.old) bytes.now) }
    {
        self.take_bytes(bytes, events)?;
        say(events, Event::At(self.count))
    }

    /// The end: the wires hold their levels up to where the samples go.
    pub fn end(&self, events: &mut Vec<Event>) -> Result<(), Refusal>
        requires { events.old.items ≡ [] }
        ensures said { OnOk result (SamplesSay bits_reading (bits_state self.now) [] events.new.items) }
        ensures only { IfErr result (λ e. e ≡ Refusal.NoMemory) }
    {
        say(events, Event::At(self.count))
    }

    /// How many samples have come.
    pub fn count(&self) -> u64
        ensures { result ≡ (bits_state self.now).count }
    {
        self.count
    }
}
