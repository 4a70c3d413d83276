// The tape station: a keying of nine marks on line 7, and two refusals on line 16.
ghost use Rattle.std.specs.Prelude.{◌≡◌, [], IfSome};
ghost use Rattle.rtrb.specs.Ring.{received};

use crate::decks::ABANDONED;
use crate::outcome::Outcome;
use crate::refusal::Aim;
use rtrb::{Consumer, Producer};
use std::alloc::{AllocError, Global};
use std::sync::Wait;
use std::time::Clock;
use test_kit::marks::{digit_tone, tone};
use xb_model::{Key, LineNo, Mark, On, Trunk};
use xb_posts::TapeStation;
use xb_ring::{Flow, NoGate, Turn, link};

// Room for all marks and the End.
const RING: usize = 16;

// How many turns are enough, one of them refused.
const TURNS: usize = 32;

type MarkInput = Consumer<Flow<On<Mark>>>;

// The marks that 234 5678 gets, of which 56 5678 is keyed on trunk group 17.
fn marks_of_seven() -> Option<[Mark; 9]> {
    let [five, six] = [digit_tone(5)?, digit_tone(6)?];
    let [seven, eight] = [digit_tone(7)?, digit_tone(8)?];
    let [start, end] = [tone(Key::Kp, 1100, 1700), tone(Key::St, 1500, 1700)];
    let trunk = Mark::Trunk(Trunk::new(17)?);
    Some([trunk, start, five, six, five, six, seven, eight, end])
}

fn lines() -> Option<(LineNo, LineNo)> {
    Some((LineNo::new(7)?, LineNo::new(16)?))
}

fn push_marks(output: &mut Producer<Flow<On<Mark>>>, line: LineNo, marks: &[Mark]) -> bool {
    for mark in marks {
        let what = *mark;
        if output.push(Flow::Item(On { line, what })).is_err() {
            return false;
        }
    }
    true
}

// Sends the marks and the End; `None` where they do not fit.
fn fill(output: &mut Producer<Flow<On<Mark>>>) -> Option<()> {
    let (keyed, refused) = lines()?;
    let marks = marks_of_seven()?;
    let are_sent = push_marks(output, keyed, &marks) && push_marks(output, refused, &ABANDONED);
    if are_sent {
        output.push(Flow::End).ok()
    } else {
        None
    }
}

// The end of a ring that holds the marks and the End, of which nothing was received.
fn filled_ring(alloc: Global) -> Option<MarkInput>
    ensures { IfSome result (λ input. received input ≡ []) }
{
    let (mut output, input) = link(alloc, RING).ok()?;
    match fill(&mut output) {
        Some(()) => Some(input),
        None => None,
    }
}

// A tape station before that ring.
fn filled_tape(alloc: Global) -> Option<TapeStation> {
    let input = filled_ring(alloc)?;
    TapeStation::new(alloc, input).ok()
}

// Whether the station has all marks.
fn has_all(tape: &TapeStation) -> bool {
    let (Some((keyed, refused)), Some(marks)) = (lines(), marks_of_seven()) else {
        return false;
    };
    tape.marks(keyed) == marks.as_slice() && tape.marks(refused) == ABANDONED.as_slice()
}

// How many marks the station has.
fn count_marks(tape: &TapeStation) -> usize {
    match lines() {
        Some((keyed, refused)) => tape
            .marks(keyed)
            .len()
            .saturating_add(tape.marks(refused).len()),
        None => 0,
    }
}

fn turn_of(tape: &mut TapeStation) -> Result<Turn, AllocError> {
    tape.turn()
}

// Turns to the End, and whether one was refused; `None` where a refusal changes the marks, or the end
// does not come.
fn turn_to_end(tape: &mut TapeStation) -> Option<bool> {
    let mut was_refused = false;
    for _ in 0..TURNS {
        let before = count_marks(tape);
        match turn_of(tape) {
            Ok(Turn::Ended) => return Some(was_refused),
            Ok(Turn::Moved) => {}
            Err(_) if !was_refused && count_marks(tape) == before => was_refused = true,
            _ => return None,
        }
    }
    None
}

/// Makes a tape station, which has no marks.
pub fn try_new(alloc: Global, aim: Aim) -> Option<Outcome> {
    let input = filled_ring(alloc)?;
    aim.take(alloc)?;
    Some(match TapeStation::new(alloc, input) {
        Ok(tape) => Outcome::ample_where(count_marks(&tape) == 0 && !tape.has_ended()),
        Err(_) => Outcome::NoMemory,
    })
}

fn judge_turns(tape: &mut TapeStation, alloc: Global, aim: Aim) -> Option<Outcome> {
    aim.take(alloc)?;
    Some(match turn_to_end(tape) {
        Some(true) => Outcome::no_memory_where(has_all(tape)),
        Some(false) => Outcome::ample_where(has_all(tape)),
        None => Outcome::Wrong,
    })
}

/// Makes the turns of a tape station, which go on after a refusal to the same marks.
pub fn try_turns(alloc: Global, aim: Aim) -> Option<Outcome> {
    let mut tape = filled_tape(alloc)?;
    judge_turns(&mut tape, alloc, aim)
}

fn judge_serve<R: Wait + Clock>(
    rt: &R,
    tape: &mut TapeStation,
    alloc: Global,
    aim: Aim,
) -> Option<Outcome> {
    aim.take(alloc)?;
    Some(match tape.serve(rt, &NoGate) {
        Ok(()) => Outcome::ample_where(has_all(tape)),
        Err(_) => Outcome::no_memory_where(tape.has_ended()),
    })
}

// Whether nothing is left in the ring of a tape station.
fn is_drained(tape: TapeStation) -> bool {
    let (mut input, _tapes) = tape.into_parts();
    input.pop().is_err()
}

/// Serves a tape station, which also after a refusal takes all up to the End and the End.
pub fn try_serve<R: Wait + Clock>(rt: &R, alloc: Global, aim: Aim) -> Option<Outcome> {
    let mut tape = filled_tape(alloc)?;
    let outcome = judge_serve(rt, &mut tape, alloc, aim);
    match (outcome, is_drained(tape)) {
        (Some(_), false) => Some(Outcome::Wrong),
        (outcome, _) => outcome,
    }
}
