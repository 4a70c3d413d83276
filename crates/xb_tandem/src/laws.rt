//! What the definitions give: each law is the contract of a function that does nothing.
ghost use Rattle.xb_tandem.specs.Constants.{AreConstants};
ghost use Rattle.xb_tandem.specs.Entries.{PagesAreTapes, PulsesAreHeard};

/// The most bytes of a text line, the two silences of a register, and the most digits that it counts, each as it is.
pub fn constants()
    ensures { AreConstants }
{}

/// The page is that of the entries of the outcomes that are keyed or refused, as `mfbank` prints entries; where no
/// trunk group takes dial pulses, it is that of the tape of all outcomes.
#[tactic(auto, using(crate::proofs::Pages::pages_are_tapes))]
pub fn pages_are_tapes()
    ensures { PagesAreTapes }
{}

/// With `--rows` the rows dial the numbers that go out by dial pulses. So every office whose plan completes them, and
/// whose limits ten pulses a second fit, hears and keys exactly these numbers, in order.
#[tactic(auto, using(crate::proofs::Heard::pulses_are_heard))]
pub fn pulses_are_heard()
    ensures { PulsesAreHeard }
{}
