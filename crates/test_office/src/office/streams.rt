// Streams that fail after each of their bytes, and streams that give or take little at a time.
use crate::office::office::{operate_on, usual_deck};
use std::alloc::{AllocError, Global};
use std::io::{ErrorKind, Read, Write};
use std::process::Abort;
use std::sync::Wait;
use std::test::Fail;
use std::thread::Threads;
use std::time::Clock;
use test_kit::attempts::SEVEN_DIGITS;
use test_kit::decks::page_of;
use test_kit::{Halting, Short};
use xb_office::OfficeFault;

// How a stream fails. An interrupted call has failed as any other.
const KINDS: [ErrorKind; 2] = [ErrorKind::Other, ErrorKind::Interrupted];

// The deck and the page of seven digits.
#[derive(Drop)]
struct Texts {
    deck: String,
    page: String,
}

fn make_texts(alloc: Global) -> Result<Texts, Fail> {
    let deck = usual_deck(alloc, &SEVEN_DIGITS)?;
    let page = page_of(alloc, SEVEN_DIGITS.page)?;
    Ok(Texts { deck, page })
}

fn operated<R: Read, W: Write, H: Threads + Wait + Clock + Sync>(
    rt: &H,
    alloc: Global,
    deck: &mut R,
    out: &mut W,
) -> Result<(), OfficeFault> {
    operate_on(rt, alloc, deck, out, 3, 2)
}

// A reader that fails after so many bytes is not read again, and no page is written.
fn check_reader<H: Threads + Wait + Clock + Abort + Sync>(
    rt: &H,
    alloc: Global,
    deck: &[u8],
    after: usize,
    kind: ErrorKind,
) {
    let mut reader = Halting::failing(deck, deck.len(), after, kind);
    let mut page: Vec<u8> = Vec::new(alloc);
    let result = operated(rt, alloc, &mut reader, &mut page);
    assert!(rt; result == Err(OfficeFault::Read), "{kind:?} after {after}");
    assert!(rt; reader.has_failed, "{kind:?} after {after}");
    assert_eq!(rt; reader.read_again, 0, "{kind:?} after {after}");
    assert!(rt; page.is_empty(), "{kind:?} after {after}");
}

fn check_readers<H: Threads + Wait + Clock + Abort + Sync>(
    rt: &H,
    alloc: Global,
    deck: &[u8],
    kind: ErrorKind,
) {
    for after in 0..=deck.len() {
        check_reader(rt, alloc, deck, after, kind);
    }
}

#[test]
fn readers_fail_after_each_byte(rt: HostRuntime) -> Result<(), Fail> {
    let texts = make_texts(rt.alloc())?;
    for kind in KINDS {
        check_readers(&rt, rt.alloc(), texts.deck.as_bytes(), kind);
    }
    Ok(())
}

// What a writer took is this, and it was not called again once it had failed.
fn check_short(rt: &impl Abort, out: &Short, taken: &[u8], failed: usize) {
    assert_eq!(rt; out.taken.as_slice(), taken);
    assert_eq!(rt; out.failed, failed);
}

// A writer that fails after so many bytes of the page gets those, and no further call.
fn check_writer<H: Threads + Wait + Clock + Abort + Sync>(
    rt: &H,
    alloc: Global,
    deck: &[u8],
    beginning: &[u8],
    fault: Option<ErrorKind>,
) {
    let mut reader = deck;
    let mut out = Short::new(alloc, beginning.len(), fault);
    let result = operated(rt, alloc, &mut reader, &mut out);
    assert!(rt; result == Err(OfficeFault::Write), "{fault:?}");
    check_short(rt, &out, beginning, 1);
}

fn check_writers<H: Threads + Wait + Clock + Abort + Sync>(
    rt: &H,
    alloc: Global,
    texts: &Texts,
    fault: Option<ErrorKind>,
) {
    let page = texts.page.as_bytes();
    for room in 0..page.len() {
        check_writer(rt, alloc, texts.deck.as_bytes(), &page[..room], fault);
    }
}

fn check_flush<H: Threads + Wait + Clock + Abort + Sync>(
    rt: &H,
    alloc: Global,
    texts: &Texts,
    kind: ErrorKind,
) {
    let mut reader = texts.deck.as_bytes();
    let mut out = Short::new(alloc, texts.page.len(), None);
    out.flush = Some(kind);
    let result = operated(rt, alloc, &mut reader, &mut out);
    assert!(rt; result == Err(OfficeFault::Write), "{kind:?}");
    check_short(rt, &out, texts.page.as_bytes(), 1);
}

#[test]
fn writers_fail(rt: HostRuntime) -> Result<(), Fail> {
    let texts = make_texts(rt.alloc())?;
    for kind in KINDS {
        check_writers(&rt, rt.alloc(), &texts, Some(kind));
        check_flush(&rt, rt.alloc(), &texts, kind);
    }
    // a write that takes no byte
    check_writers(&rt, rt.alloc(), &texts, None);
    Ok(())
}

// A short write is no failure.
fn check_step<H: Threads + Wait + Clock + Abort + Sync>(
    rt: &H,
    alloc: Global,
    texts: &Texts,
    step: usize,
) {
    let mut reader = texts.deck.as_bytes();
    let mut out = Short::new(alloc, texts.page.len(), None);
    out.step = step;
    let result = operated(rt, alloc, &mut reader, &mut out);
    assert!(rt; result == Ok(()), "{step}");
    check_short(rt, &out, texts.page.as_bytes(), 0);
}

// Adds empty lines after the rows, so that the deck has so many bytes.
fn lengthen(deck: &mut String, length: usize) -> Result<(), AllocError> {
    for _ in deck.len()..length {
        deck.push('\n')?;
    }
    Ok(())
}

#[test]
fn streams_take_and_give_little_at_a_time(rt: HostRuntime) -> Result<(), Fail> {
    let mut texts = make_texts(rt.alloc())?;
    for step in [1, 3] {
        check_step(&rt, rt.alloc(), &texts, step);
    }
    lengthen(&mut texts.deck, 150_000)?;
    let mut reader = Halting::new(texts.deck.as_bytes(), 1);
    let mut out = Short::new(rt.alloc(), texts.page.len(), None);
    assert!(rt; operated(&rt, rt.alloc(), &mut reader, &mut out) == Ok(()));
    assert!(rt; reader.rest.is_empty());
    check_short(&rt, &out, texts.page.as_bytes(), 0);
    Ok(())
}
