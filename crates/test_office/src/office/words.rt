// The program by its words: its status, its page and its line.
use crate::office::office::usual_deck;
use std::alloc::{AllocError, Global};
use std::io::{ErrorKind, Write};
use std::process::Abort;
use std::sync::Wait;
use std::test::Fail;
use std::thread::Threads;
use std::time::Clock;
use test_kit::attempts::OPERATOR_CALL;
use test_kit::decks::page_of;
use test_kit::{Short, words_of};
use xb_office::{DONE, FAULT, WORDS_REFUSED, attend};

// A make of a day and one millisecond.
const OVER_A_DAY: &str = "---\nline,state,ms\n7,M,86400001\n";

const LINE_OF_OVER_A_DAY: &str = "mfbank: loop rows: record 1 has a wrong ms\n";

const USAGE: &str = "mfbank: usage: mfbank [--senders N] [--ring N]\n";

// Words after the program's name that are accepted.
const ACCEPTED: &[&[&str]] = &[
    &[],
    &["--ring", "1"],
    &["--ring=1024"],
    &["--senders", "1"],
    &["--senders", "8"],
    &["--ring", "2", "--senders=3"],
    &["--ring", "007", "--senders", "+4"],
];

// Words after the program's name that are refused.
const REFUSED: &[&[&str]] = &[
    &["--ring", "0"],
    &["--ring", "1025"],
    &["--ring", "x"],
    &["--ring"],
    &["--ring="],
    &["--ring", "4294967295"],
    &["--ring", "4294967296"],
    &["--ring", "65537"],
    &["--senders", "0"],
    &["--senders", "9"],
    &["--senders", "-1"],
    &["--senders", "2", "--senders", "2"],
    &["deck"],
    &["--help"],
    &["-h"],
    &["--version"],
];

// Runs the program by these words over a deck; returns its status, and what it left of the deck.
fn run_by<R: Threads + Wait + Clock + Sync, E: Write>(
    rt: &R,
    alloc: Global,
    words: &[&str],
    deck: &str,
    page: &mut Vec<u8>,
    err: &mut E,
) -> Result<(u8, usize), AllocError> {
    let words = words_of(alloc, "mfbank", words)?;
    let mut reader = deck.as_bytes();
    let status = attend(rt, alloc, words, &mut reader, page, err);
    Ok((status, reader.len()))
}

// By these words the program gives this status, page and line, and leaves so much of the deck.
fn check_run<R: Threads + Wait + Clock + Abort + Sync>(
    rt: &R,
    alloc: Global,
    words: &[&str],
    deck: &str,
    wanted: (u8, &str, &str, usize),
) -> Result<(), Fail> {
    let mut page: Vec<u8> = Vec::new(alloc);
    let mut line: Vec<u8> = Vec::new(alloc);
    let (status, unread) = run_by(rt, alloc, words, deck, &mut page, &mut line)?;
    assert!(rt; status == wanted.0, "{words:?}");
    assert!(rt; page.as_slice() == wanted.1.as_bytes(), "{words:?}");
    assert!(rt; line.as_slice() == wanted.2.as_bytes(), "{words:?}");
    assert!(rt; unread == wanted.3, "{words:?}");
    Ok(())
}

#[test]
fn words_give_the_page_or_the_usage(rt: HostRuntime) -> Result<(), Fail> {
    let deck = usual_deck(rt.alloc(), &OPERATOR_CALL)?;
    let page = page_of(rt.alloc(), OPERATOR_CALL.page)?;
    let wanted = (DONE, page.as_str(), "", 0);
    for words in ACCEPTED {
        check_run(&rt, rt.alloc(), words, deck.as_str(), wanted)?;
    }
    let wanted = (WORDS_REFUSED, "", USAGE, deck.len());
    for words in REFUSED {
        check_run(&rt, rt.alloc(), words, deck.as_str(), wanted)?;
    }
    Ok(())
}

// A line that finds so much room is cut there, and the status stays.
fn check_cut_line<R: Threads + Wait + Clock + Abort + Sync>(
    rt: &R,
    alloc: Global,
    words: &[&str],
    room: usize,
    status: u8,
    line: &str,
) -> Result<(), Fail> {
    let mut page: Vec<u8> = Vec::new(alloc);
    let mut err = Short::new(alloc, room, Some(ErrorKind::Other));
    let (got, _unread) = run_by(rt, alloc, words, OVER_A_DAY, &mut page, &mut err)?;
    assert!(rt; got == status, "{room}");
    assert!(rt; page.is_empty(), "{room}");
    assert!(rt;
        line.as_bytes().get(..room) == Some(err.taken.as_slice()),
        "{room}"
    );
    Ok(())
}

// The line is whole, or cut where its writer fails.
#[test]
fn a_fault_is_one_line(rt: HostRuntime) -> Result<(), Fail> {
    let wanted = (FAULT, "", LINE_OF_OVER_A_DAY, 0);
    check_run(&rt, rt.alloc(), &["--senders", "2"], OVER_A_DAY, wanted)?;
    for room in 0..30 {
        check_cut_line(&rt, rt.alloc(), &["--help"], room, WORDS_REFUSED, USAGE)?;
        check_cut_line(&rt, rt.alloc(), &[], room, FAULT, LINE_OF_OVER_A_DAY)?;
    }
    Ok(())
}
