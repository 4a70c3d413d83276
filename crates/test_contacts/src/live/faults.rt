// Streams that fail: exactly the entries before the fault are printed.
use crate::live::called::Mflive;
use crate::live::reckoned::{BEGINNING, END, END_EVENTS, EVENTS, KEYED, LAST, REFUSED, joined};
use std::alloc::Global;
use std::io::ErrorKind;
use std::process::Abort;
use std::test::Fail;
use test_kit::{Gives, Halting, Short, check_streams, check_writes};

// After how many bytes of the deck reading fails, and what is printed then. Record 23, which completes the
// second entry, is the last of the beginning.
const READS: &[(usize, &[&[u8]])] = &[
    (0, &[]),
    (BEGINNING.len() - 10, &[]),
    (BEGINNING.len() - 8, &[KEYED]),
    (BEGINNING.len() - 2, &[KEYED]),
    (BEGINNING.len(), &[KEYED, REFUSED]),
    (BEGINNING.len() + END.len(), &[KEYED, REFUSED]),
];

// Reads so many bytes of a deck, so many at a time, and then fails: these entries are printed, and nothing is read
// again.
fn check_read(
    rt: &impl Abort,
    alloc: Global,
    words: &[&str],
    deck: &[u8],
    place: usize,
    printed: &[u8],
) -> Result<(), Fail> {
    for step in [1, 40, 4096] {
        let mut reader = Halting::failing(deck, step, place, ErrorKind::Interrupted);
        let mut out = Short::new(alloc, usize::MAX, None);
        let wanted = Gives {
            status: 1,
            written: printed,
            line: b"mflive: the deck could not be read\n",
        };
        check_streams(alloc, &Mflive, words, &mut reader, &mut out, wanted)?;
        assert_eq!(rt; reader.read_again, 0, "{place}");
    }
    Ok(())
}

#[test]
fn prints_what_comes_before_a_read_that_fails(rt: HostRuntime) -> Result<(), Fail> {
    let deck = joined(rt.alloc(), &[BEGINNING, END])?;
    for (place, printed) in READS {
        let printed = joined(rt.alloc(), printed)?;
        check_read(&rt, rt.alloc(), &[], &deck, *place, &printed)?;
    }
    check_read(
        &rt,
        rt.alloc(),
        &["--events"],
        &deck,
        BEGINNING.len(),
        EVENTS,
    )
}

// The line of a write or a flush that failed.
const NOT_WRITTEN: &[u8] = b"mflive: the entries could not be written\n";

// How much room there is.
const ROOMS: &[usize] = &[
    0,
    1,
    KEYED.len() - 1,
    KEYED.len(),
    KEYED.len() + REFUSED.len(),
    KEYED.len() + REFUSED.len() + LAST.len() - 1,
];

// Takes an entry, and fails to flush it: nothing is written after it.
fn check_flush(rt: &impl Abort, alloc: Global) -> Result<(), Fail> {
    let mut reader = Halting::new(BEGINNING, 40);
    let mut out = Short::new(alloc, 4096, None);
    out.flush = Some(ErrorKind::Other);
    let wanted = Gives {
        status: 1,
        written: KEYED,
        line: NOT_WRITTEN,
    };
    check_streams(alloc, &Mflive, &[], &mut reader, &mut out, wanted)?;
    assert_eq!(rt; out.failed, 1);
    Ok(())
}

#[test]
fn prints_the_beginning_where_a_write_fails(rt: HostRuntime) -> Result<(), Fail> {
    let deck = joined(rt.alloc(), &[BEGINNING, END])?;
    check_writes(rt.alloc(), &Mflive, &[], &deck, ROOMS, NOT_WRITTEN)?;
    let rooms = [0, 1, EVENTS.len(), EVENTS.len() + END_EVENTS.len() - 1];
    check_writes(
        rt.alloc(),
        &Mflive,
        &["--events"],
        &deck,
        &rooms,
        NOT_WRITTEN,
    )?;
    check_flush(&rt, rt.alloc())
}
