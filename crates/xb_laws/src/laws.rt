//! What the definitions give: each law is the contract of a function that does nothing but cite.
ghost use Rattle.xb_laws.specs.Dialled.{DialledIsRegistered};
ghost use Rattle.xb_laws.specs.Network.{DialledInTurn, OfficesInTurn};
ghost use Rattle.xb_laws.specs.Tandem.{NumbersAreRegistered, TapeIsRegistered};
ghost use Rattle.xb_laws.specs.Timed.{TimesAreTold};
ghost use Rattle.xb_laws.specs.Worked.{AreSentAsWorked};
ghost use Rattle.xb_laws.specs.Tuned.{KeysAreTold, StandardKeysAreTold};
ghost use Rattle.xb_laws.specs.TraceTapes.{TracesAreRecorded, TracesMakeTheTape};
ghost use Rattle.xb_laws.specs.RowDigits.{RowsHaveTheDigits};

use xb_calls::laws::dialled_is_heard;
use xb_ear::laws::disturbed_keys_are_heard;

/// The times of a key are those that a receiver tells of it, once it is measured.
#[tactic(auto, using(crate::proofs::Told::times_told))]
pub fn times_are_told()
    ensures { TimesAreTold }
{}

/// **What an office keys on a line is what the register of the next office takes**: of the sound of a line's tape,
/// disturbed as far as the ear bears, one outcome for each keying, in order, with its digits; and the tape of the next
/// office are their entries by its own routes. The time-out of the register is 12 ms or more longer than the silence
/// after each tone.
pub fn keyed_is_taken()
    ensures { TapeIsRegistered }
{
    disturbed_keys_are_heard();
}

/// So of the numbers that the first office hears on the line.
pub fn numbers_are_registered()
    ensures { NumbersAreRegistered }
{
    disturbed_keys_are_heard();
}

/// **The numbers that are dialled on a line are, by its office's routes, the numbers that the next office's register
/// takes**, in order, one outcome each; and the tape of that office is their entries by its own routes.
pub fn dialled_is_registered()
    ensures { DialledIsRegistered }
{
    dialled_is_heard();
    numbers_are_registered();
}

/// **So it is of any number of offices, one after the other**, each of which hears what the one before it keys,
/// disturbed anew: the last one's register takes just what the routes of all before it make of the numbers, in order,
/// one outcome each; and its tape are their entries by its own routes.
pub fn offices_in_turn()
    ensures { OfficesInTurn }
{
    disturbed_keys_are_heard();
}

/// So of the numbers that are dialled on a line of the first office.
pub fn dialled_in_turn()
    ensures { DialledInTurn }
{
    dialled_is_heard();
    offices_in_turn();
}

/// Worked cases of numbers that go through offices in turn, reckoned by hand.
pub fn numbers_are_sent_as_worked()
    ensures { AreSentAsWorked }
{}

/// **Of a clean key that is not detuned a receiver tells both frequencies to the Hz, and the level and the twist that
/// were asked for to the tenth of a dB**: whichever two of the six they are, at all levels from -30.0 to 0.0 dBm0, with
/// any twist between these, and wherever in the key the 200 samples begin.
#[tactic(auto, using(crate::proofs::TunedTold::keys_are_told))]
pub fn keys_are_told()
    ensures { KeysAreTold }
{}

/// So of a key with no option -7.2 dBm0 are told, with no twist.
#[tactic(auto, using(crate::proofs::Standard::standard_keys_are_told))]
pub fn standard_keys_are_told()
    ensures { StandardKeysAreTold }
{}

/// **What `mfloop` writes of a trace makes the tape of the rows that were dialled**, by any plan, limits and routes: where
/// an eighth of the time of the bounces is shorter than the settling, and each run is as long as both together.
pub fn the_trace_makes_the_tape_of_its_rows()
    ensures is_recorded { TracesAreRecorded }
    ensures tape { TracesMakeTheTape }
{}

/// **What `mfbench` tells of a line is what `mfhear` tells of the rows that `mfloop` writes of it**: of a recording that
/// `mfbench` takes, and a line each make of which seizes and whose runs settle in 1 ms or more, as its words ask for, the
/// digits that are told have the pulses and the first fault of those of the report, by any plan and the same limits.
pub fn the_rows_have_the_digits()
    ensures { RowsHaveTheDigits }
{}
