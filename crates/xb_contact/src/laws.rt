//! What settling, listening and watching for seizures come to: each law is the contract of a function that does
//! nothing. The definitions are in `specs/`: `Holds` (recordings), `Settled` (the settled record), `Machine` (the
//! machine hold by hold), `Bounces` (records that bounce), `Times` (from ticks to ms), `Joints` (holds joined as they
//! come), `Listening` (a contact that is listened to), `Seizures` (which makes seize), `Seizing` (the machine that
//! passes them, hold by hold), `Rings` (which calls answer the bell), `Ringing` (the machine
//! that makes breaks of these, hold by hold), and the statements in `SettledLaws`, `TimeLaws`, `SeizingLaws` and
//! `RingingLaws`.
ghost use Rattle.std.specs.Prelude.{ℕ, ◌<◌};
ghost use Rattle.xb_contact.specs.SettledLaws.{SettlesTheRecord, GivesForGood, IsExactUnderBounces, LeavesLongRuns};
ghost use Rattle.xb_contact.specs.SettledLaws.{IsSettledForGood, KeepsTime, HasLongRuns, HasRuns, GoesByRuns};
ghost use Rattle.xb_contact.specs.SeizingLaws.{KeepsAllTime, LeavesAllAtZero, LeavesSeizures, PassesAllTime, PassesEachHold};
ghost use Rattle.xb_contact.specs.SeizingLaws.{PassesForGood, PassesTheSeized};
ghost use Rattle.xb_contact.specs.Nights.{CountsAfterBursts, LeavesOwnCalls};
ghost use Rattle.xb_contact.specs.RingingLaws.{LeavesCalls, OpensAnswers, PassesTheAnswered, RingsAllTime};
ghost use Rattle.xb_contact.specs.RingingLaws.{RingsEachHold, RingsForGood, SeizesTheAnswered};
ghost use Rattle.xb_contact.specs.TimeLaws.{TellsTheRecord, RoundsOnce, PlacesHold};

/// What the machine gives of any recording, and what is left at its end, are the settled record; what it has
/// given at any time stands, whatever comes later.
pub fn settles_the_record()
    ensures whole { (least : ℕ) → 0 < least → SettlesTheRecord least }
    ensures for_good { GivesForGood }
{}

/// Let each run of a clean record be `least + most` ticks or longer, and let bounces shorter than `least`
/// disturb its first `most` ticks, each beginning at the run's own level. Then the settled record is the
/// clean one.
pub fn is_exact_under_bounces()
    ensures { IsExactUnderBounces }
{}

/// Runs of `least` ticks and more stay as they are, and settling again changes nothing.
pub fn is_settled_for_good()
    ensures long_runs { LeavesLongRuns }
    ensures again { IsSettledForGood }
{}

/// The settled record has the recording's time, and runs of `least` ticks and more alone, whose levels
/// alternate; where nothing settled it is one run, at the level of the beginning. It goes by the recording's
/// runs, however they were cut into holds.
pub fn is_a_record()
    ensures time { KeepsTime }
    ensures long { HasLongRuns }
    ensures runs { HasRuns }
    ensures cuts { GoesByRuns }
{}

/// What is given of a recording has the runs of its settled record, the times of their ends in ms: however the
/// recording was cut into holds, and in however many parts a long run was given.
pub fn tells_the_record()
    ensures { TellsTheRecord }
{}

/// The ms of what is given are the recording's time, rounded once; and each run of a record ends at its own
/// time, rounded, however many stand before it.
pub fn rounds_once()
    ensures all { RoundsOnce }
    ensures places { PlacesHold }
{}

/// What is given of a line has the runs of its record in which each make on hook that is too short to seize is a
/// break; what was given stands, whatever comes later; no time is lost or added; and where each make seizes, each hold
/// is given as it is.
pub fn passes_the_seized()
    ensures whole { (least release most : ℕ) → 0 < release → PassesTheSeized least release most }
    ensures for_good { PassesForGood }
    ensures time { PassesAllTime }
    ensures each { PassesEachHold }
{}

/// No time of the record is lost or added, and it stays as it is where each make on hook lasts long enough, so where
/// each make seizes.
pub fn leaves_seizures()
    ensures time { KeepsAllTime }
    ensures long { LeavesSeizures }
    ensures zero { LeavesAllAtZero }
{}

/// What is given of a line has the runs of its record in which each call that answers the bell is a break, and so has
/// what the seizing takes of it; what was given stands, whatever comes later; no time is lost or added; and where no
/// answer counts, each hold is given as it is.
pub fn passes_the_answered()
    ensures whole { (wait least release : ℕ) → PassesTheAnswered wait least release }
    ensures seized { SeizesTheAnswered }
    ensures for_good { RingsForGood }
    ensures time { RingsAllTime }
    ensures each { RingsEachHold }
{}

/// A call that answers a burst leaves only an open line, from the end of the burst to the release. So of a night of
/// ringing and of calls the seizing gets exactly the calls that begin where no answer counts. One counts after each
/// burst, which is 8 periods or more, and a record in which no burst stands stays as it is.
pub fn opens_answers_alone()
    ensures answers { OpensAnswers }
    ensures night { LeavesOwnCalls }
    ensures bursts { CountsAfterBursts }
    ensures others { LeavesCalls }
{}
