//! What the definitions give: each law is the contract of a function that does nothing.
ghost use Rattle.xb_worn.specs.FieldLaws.{CompleteIsHeard, ExtraPulse, LostPulse, NumbersStay, OneOutcome, SpoiledMutilates};
ghost use Rattle.xb_worn.specs.HeardCalls.{OutcomesAreHeard};
ghost use Rattle.xb_worn.specs.Unworn.{UnwornDials};
ghost use Rattle.xb_worn.specs.WorkedFaults.{EndsAtFault, PlacesOfFaults, PulsesAtFault, WornDials};

/// Of each line an office hears exactly what is said of its calls, whatever rows of other lines stand between its own.
pub fn outcomes_are_heard()
    ensures { OutcomesAreHeard }
{}

/// Without faults a dial that is not worn sends exactly what is dialled.
pub fn an_unworn_dial_dials()
    ensures { UnwornDials }
{}

/// Where no break hangs up, one outcome comes of a call.
pub fn one_outcome_of_a_call()
    ensures { OneOutcome }
{}

/// A call with a spoiled digit is refused as mutilated, with the count of the digits before it, where these neither are
/// nor begin with a complete number.
pub fn a_spoiled_digit_mutilates()
    ensures { SpoiledMutilates }
{}

/// What follows a complete number is ignored, spoiled digits too; and a number that was heard stays, whatever pulses
/// come after it.
pub fn what_follows_is_ignored()
    ensures digits { CompleteIsHeard }
    ensures pulses { NumbersStay }
{}

/// A good digit of two pulses or more that loses one is heard as the digit of one pulse less; one with an extra pulse
/// as that of one more, and of eleven as none.
pub fn a_pulse_lost_or_more_changes_the_digit()
    ensures lost { LostPulse }
    ensures extra { ExtraPulse }
{}

/// Calls with one fault, on both sides of each limit.
#[tactic(auto, unfolding(crate::specs::Sending::pulses_from))]
pub fn calls_with_a_fault()
    ensures pulses { PulsesAtFault }
    ensures ends { EndsAtFault }
{}

/// Calls of worn dials, and places that are not there.
#[tactic(auto, unfolding(crate::specs::Sending::pulses_from))]
pub fn calls_of_worn_dials()
    ensures dials { WornDials }
    ensures places { PlacesOfFaults }
{}
