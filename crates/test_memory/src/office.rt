// A whole deck, and the program by its words.
use crate::decks::{PAGE, deck, faulty_deck};
use crate::held::Held;
use crate::outcome::Outcome;
use crate::refusal::Aim;
use std::alloc::{AllocError, Global};
use std::sync::Wait;
use std::thread::Threads;
use std::time::Clock;
use xb_model::RowFault;
use xb_office::{DONE, FAULT, OfficeFault, attend, operate};

/// Writes the page of the deck.
pub fn try_operate<R: Threads + Wait + Clock + Sync>(
    rt: &R,
    alloc: Global,
    aim: Aim,
) -> Option<Outcome> {
    aim.take(alloc)?;
    let mut deck = deck();
    let mut out = Held::new();
    let operated = operate(rt, alloc, &mut deck, &mut out, 2, 4);
    let is_empty = out.text().is_empty();
    Some(match operated {
        Ok(()) => Outcome::ample_where(out.text() == PAGE.as_bytes()),
        Err(OfficeFault::NoMemory) if is_empty => Outcome::NoMemory,
        Err(OfficeFault::Bank(_)) if is_empty => Outcome::NoThread,
        Err(_) => Outcome::Wrong,
    })
}

/// Tells the fault of a deck.
pub fn try_faulty<R: Threads + Wait + Clock + Sync>(
    rt: &R,
    alloc: Global,
    aim: Aim,
) -> Option<Outcome> {
    aim.take(alloc)?;
    let mut deck = faulty_deck();
    let mut out = Held::new();
    let operated = operate(rt, alloc, &mut deck, &mut out, 2, 4);
    let is_empty = out.text().is_empty();
    Some(match operated {
        Err(OfficeFault::Rows(RowFault::Fields(3))) => Outcome::ample_where(is_empty),
        Err(OfficeFault::NoMemory) => Outcome::no_memory_where(is_empty),
        Ok(()) | Err(_) => Outcome::Wrong,
    })
}

// The words of the command line.
fn words(alloc: Global) -> Result<Vec<String>, AllocError> {
    let mut words = Vec::new(alloc);
    for word in ["mfbank", "--senders", "2", "--ring", "4"] {
        words.push(word.to_string(alloc)?)?;
    }
    Ok(words)
}

// What the program came to, by its status, its page and its line.
fn judge(status: u8, page: &[u8], line: &[u8]) -> Outcome {
    if status == DONE {
        return Outcome::ample_where(page == PAGE.as_bytes() && line.is_empty());
    }
    if status != FAULT || !page.is_empty() {
        return Outcome::Wrong;
    }
    if line == b"mfbank: out of memory\n".as_slice() {
        Outcome::NoMemory
    } else if line.starts_with(b"mfbank: the post ") && line.ends_with(b" could not be started\n") {
        Outcome::NoThread
    } else {
        Outcome::Wrong
    }
}

fn attend_to<R: Threads + Wait + Clock + Sync>(
    rt: &R,
    alloc: Global,
    words: Vec<String>,
) -> Outcome {
    let mut deck = deck();
    let mut out = Held::new();
    let mut err = Held::new();
    let status = attend(rt, alloc, words, &mut deck, &mut out, &mut err);
    judge(status, out.text(), err.text())
}

/// Attends to the words and the deck.
pub fn try_attend<R: Threads + Wait + Clock + Sync>(
    rt: &R,
    alloc: Global,
    aim: Aim,
) -> Option<Outcome> {
    let words = words(alloc).ok()?;
    aim.take(alloc)?;
    Some(attend_to(rt, alloc, words))
}
