// Decks that are malformed, or as large as they may be.
use crate::office::faults::FAULTS;
use crate::office::hostile_decks::{Hostile, LARGE, LONG, ODD, Part};
use crate::office::office::{check, usual_deck};
use std::alloc::{AllocError, Global};
use std::process::Abort;
use std::sync::Wait;
use std::test::Fail;
use std::thread::Threads;
use std::time::Clock;
use test_kit::attempts::OPERATOR_CALL;
use test_kit::decks::TABLE;

fn push_times(deck: &mut Vec<u8>, count: usize, bytes: &[u8]) -> Result<(), AllocError> {
    for _ in 0..count {
        deck.extend_from_slice(bytes)?;
    }
    Ok(())
}

fn push_part(deck: &mut Vec<u8>, part: Part, call: &[u8]) -> Result<(), AllocError> {
    match part {
        Part::Table => deck.extend_from_slice(TABLE.as_bytes()),
        Part::Call => deck.extend_from_slice(call),
        Part::Bytes(bytes) => deck.extend_from_slice(bytes),
        Part::Times(count, bytes) => push_times(deck, count, bytes),
    }
}

/// The deck of its parts; `call` stands after the table of the operator call's deck.
pub fn deck_of_parts(alloc: Global, parts: &[Part], call: &[u8]) -> Result<Vec<u8>, AllocError> {
    let mut deck = Vec::new(alloc);
    for part in parts {
        push_part(&mut deck, *part, call)?;
    }
    Ok(deck)
}

fn check_hostile<H: Threads + Wait + Clock + Abort + Sync>(
    rt: &H,
    alloc: Global,
    hostile: &Hostile,
    call: &[u8],
) -> Result<(), Fail> {
    let deck = deck_of_parts(alloc, hostile.deck, call)?;
    check(rt, alloc, hostile.name, &deck, hostile.gives)
}

fn check_all<H: Threads + Wait + Clock + Abort + Sync>(
    rt: &H,
    alloc: Global,
    decks: &[Hostile],
) -> Result<(), Fail> {
    let operator = usual_deck(alloc, &OPERATOR_CALL)?;
    let call = operator.as_bytes().get(TABLE.len()..).unwrap_or(&[]);
    for hostile in decks {
        check_hostile(rt, alloc, hostile, call)?;
    }
    Ok(())
}

fn with_cr_lf(alloc: Global, deck: &str) -> Result<String, AllocError> {
    let mut with_cr = String::new(alloc);
    for line in deck.lines() {
        with_cr.push_str(line)?;
        with_cr.push_str("\r\n")?;
    }
    Ok(with_cr)
}

// The lines of a deck may end with CR LF.
fn check_cr_lf<H: Threads + Wait + Clock + Abort + Sync>(
    rt: &H,
    alloc: Global,
) -> Result<(), Fail> {
    let deck = usual_deck(alloc, &OPERATOR_CALL)?;
    let with_cr = with_cr_lf(alloc, deck.as_str())?;
    check(
        rt,
        alloc,
        "CR LF",
        with_cr.as_bytes(),
        Ok(OPERATOR_CALL.page),
    )
}

#[test]
fn malformed_decks(rt: HostRuntime) -> Result<(), Fail> {
    for decks in [FAULTS, LONG, ODD] {
        check_all(&rt, rt.alloc(), decks)?;
    }
    check_cr_lf(&rt, rt.alloc())
}

#[test]
fn large_decks(rt: HostRuntime) -> Result<(), Fail> {
    check_all(&rt, rt.alloc(), LARGE)
}
