// The chain with one owner, on one thread.
use crate::chain::{Parts, parts_of_deck};
use crate::decks::{are_marks, lines};
use crate::outcome::Outcome;
use crate::refusal::Aim;
use std::alloc::{AllocError, Global};
use xb_model::{LineNo, Mark};
use xb_replay::Replay;
use xb_ring::{Post, Turn};

// The posts of two senders.
const POSTS: [Post; 9] = [
    Post::Feed,
    Post::Pulse,
    Post::Register,
    Post::Translate,
    Post::Deal,
    Post::Send(0),
    Post::Send(1),
    Post::Gather,
    Post::Tape,
];

// How many rounds of all posts are enough, one turn of them refused.
const ROUNDS: usize = 400;

// The contract of a turn is wide, and is read here alone.
fn turn_of(chain: &mut Replay<'_>, post: Post) -> Result<Turn, AllocError> {
    chain.turn(post)
}

fn marks_of<'a>(chain: &'a Replay<'_>, line: LineNo) -> &'a [Mark] {
    chain.marks(line)
}

fn has_ended(chain: &Replay<'_>) -> bool {
    chain.ended()
}

// How many marks the chain has.
fn count_marks(chain: &Replay<'_>) -> usize {
    match lines() {
        Some((caller, seizing)) => marks_of(chain, caller)
            .len()
            .saturating_add(marks_of(chain, seizing).len()),
        None => 0,
    }
}

// One turn of a post: whether it was refused; `None` where that is not for the tape to say, or changes
// the marks.
fn is_refused(chain: &mut Replay<'_>, post: Post) -> Option<bool> {
    let before = count_marks(chain);
    match turn_of(chain, post) {
        Ok(_) => Some(false),
        Err(_) if post == Post::Tape && count_marks(chain) == before => Some(true),
        Err(_) => None,
    }
}

// A turn of each post: how many were refused.
fn round_of(chain: &mut Replay<'_>) -> Option<usize> {
    let mut refused: usize = 0;
    for post in POSTS {
        if is_refused(chain, post)? {
            refused = refused.saturating_add(1);
        }
    }
    Some(refused)
}

// Rounds to the end, and how many turns were refused; `None` where the end does not come.
fn rounds_to_end(chain: &mut Replay<'_>) -> Option<usize> {
    let mut refused: usize = 0;
    for _ in 0..ROUNDS {
        if has_ended(chain) {
            return Some(refused);
        }
        refused = refused.saturating_add(round_of(chain)?);
    }
    None
}

fn has_all(chain: &Replay<'_>) -> bool {
    lines().is_some_and(|(caller, seizing)| are_marks(
        marks_of(chain, caller),
        marks_of(chain, seizing),
    ))
}

fn is_blank(chain: &Replay<'_>) -> bool {
    !has_ended(chain) && count_marks(chain) == 0
}

fn judge_turns(chain: &mut Replay<'_>, alloc: Global, aim: Aim) -> Option<Outcome> {
    aim.take(alloc)?;
    Some(match rounds_to_end(chain) {
        Some(0) => Outcome::ample_where(has_all(chain)),
        Some(1) => Outcome::no_memory_where(has_all(chain)),
        _ => Outcome::Wrong,
    })
}

fn make_replay(alloc: Global, parts: &Parts, aim: Aim) -> Option<Outcome> {
    aim.take(alloc)?;
    Some(match Replay::new(alloc, &parts.rows, &parts.table, 2, 1) {
        Ok(replay) => Outcome::ample_where(is_blank(&replay)),
        Err(_) => Outcome::NoMemory,
    })
}

fn play(alloc: Global, parts: &Parts, aim: Aim) -> Option<Outcome> {
    match Replay::new(alloc, &parts.rows, &parts.table, 2, 1) {
        Ok(mut replay) => judge_turns(&mut replay, alloc, aim),
        Err(_) => None,
    }
}

/// Makes a replay, which has no marks.
pub fn try_replay(alloc: Global, aim: Aim) -> Option<Outcome> {
    let parts = parts_of_deck(alloc)?;
    make_replay(alloc, &parts, aim)
}

/// Makes the turns of a replay, which go on after a refusal to the same marks.
pub fn try_turns(alloc: Global, aim: Aim) -> Option<Outcome> {
    let parts = parts_of_deck(alloc)?;
    play(alloc, &parts, aim)
}
