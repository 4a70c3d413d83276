// Pages of worked tapes.
use crate::stages::tapes::{line, put};
use std::alloc::Global;
use std::process::Abort;
use std::test::Fail;
use test_kit::Beside;
use test_kit::marks::{keying, unended};
use xb_model::{LineNo, Mark, Reason};
use xb_tape::{Tapes, page};

// An entry: the trunk group and the digits of a keyed call, or a refusal with its count.
#[derive(Drop)]
enum Entry<'a> {
    Keyed(u16, &'a [u8]),
    Refused(Reason, u8),
}

use Entry::{Keyed, Refused};

// Puts an entry on the tape of a line.
fn put_entry(tapes: &mut Tapes, alloc: Global, line: LineNo, entry: &Entry) -> Result<(), Fail> {
    match entry {
        Keyed(trunk, digits) => put(tapes, line, &keying(alloc, *trunk, digits)?)?,
        Refused(reason, heard) => put(tapes, line, &[Mark::Refused(*reason, *heard)])?,
    }
    Ok(())
}

// Tapes with these entries.
fn tapes_of(rt: &impl Abort, alloc: Global, entries: &[(u16, Entry)]) -> Result<Tapes, Fail> {
    let mut tapes = Tapes::new(alloc)?;
    for (number, entry) in entries {
        put_entry(&mut tapes, alloc, line(rt, *number), entry)?;
    }
    Ok(tapes)
}

// Checks the page of tapes.
fn check_tapes(rt: &impl Abort, alloc: Global, tapes: &Tapes, text: &str) -> Result<(), Fail> {
    let page = page(alloc, tapes)?;
    let beside = Beside {
        came: &page,
        wanted: text.as_bytes(),
    };
    assert!(rt; beside.came == beside.wanted, "{beside}");
    Ok(())
}

// Checks the page of tapes with these entries.
fn check_page(
    rt: &impl Abort,
    alloc: Global,
    entries: &[(u16, Entry)],
    text: &str,
) -> Result<(), Fail> {
    let tapes = tapes_of(rt, alloc, entries)?;
    check_tapes(rt, alloc, &tapes, text)
}

// Entries, and the page of them. Entries of one line are counted from 1, each line by itself, whatever their
// order in time.
const PAGES: &[(&[(u16, Entry)], &str)] = &[
    (&[], "KEYED 0 REFUSED 0\n"),
    (
        &[(7, Keyed(17, &[5, 6, 5, 6, 7, 8]))],
        "0007 1 KEYED 0017 KP:1100+1700 5:900+1300 6:1100+1300 5:900+1300 6:1100+1300 \
        7:700+1500 8:900+1500 ST:1500+1700\n\
        KEYED 1 REFUSED 0\n",
    ),
    (
        &[(
            20,
            Keyed(9999, &[1, 2, 3, 4, 5, 6, 7, 8, 9, 9, 9, 9, 9, 9, 9]),
        )],
        "0020 1 KEYED 9999 KP:1100+1700 1:700+900 2:700+1100 3:900+1100 4:700+1300 5:900+1300 \
        6:1100+1300 7:700+1500 8:900+1500 \
        9:1100+1500 9:1100+1500 9:1100+1500 9:1100+1500 9:1100+1500 9:1100+1500 9:1100+1500 ST:1500+1700\n\
        KEYED 1 REFUSED 0\n",
    ),
    (
        &[
            (41, Refused(Reason::Abandoned, 6)),
            (8, Refused(Reason::Mutilated, 1)),
            (32, Refused(Reason::TimedOut, 6)),
            (2, Refused(Reason::Unknown, 3)),
        ],
        "0002 1 REFUSED UNKNOWN 3\n\
        0008 1 REFUSED MUTILATED 1\n\
        0032 1 REFUSED TIMEDOUT 6\n\
        0041 1 REFUSED ABANDONED 6\n\
        KEYED 0 REFUSED 4\n",
    ),
    (
        &[
            (9999, Keyed(1, &[0])),
            (0, Refused(Reason::Unknown, 7)),
            (9999, Keyed(3, &[4, 1, 1])),
            (0, Refused(Reason::Abandoned, 0)),
        ],
        "0000 1 REFUSED UNKNOWN 7\n\
        0000 2 REFUSED ABANDONED 0\n\
        9999 1 KEYED 0001 KP:1100+1700 0:1300+1500 ST:1500+1700\n\
        9999 2 KEYED 0003 KP:1100+1700 4:700+1300 1:700+900 1:700+900 ST:1500+1700\n\
        KEYED 2 REFUSED 2\n",
    ),
];

// The beginning of a keyed call.
fn put_unended(alloc: Global, tapes: &mut Tapes, line: LineNo) -> Result<(), Fail> {
    put(tapes, line, &unended(alloc, 3, &[4, 1])?)?;
    Ok(())
}

// Marks after the last ending mark of a line are no entry.
#[test]
fn pages_of_entries_and_unended_marks(rt: HostRuntime) -> Result<(), Fail> {
    for (entries, text) in PAGES {
        check_page(&rt, rt.alloc(), entries, text)?;
    }
    let mut tapes = tapes_of(&rt, rt.alloc(), &[(5, Keyed(1, &[0]))])?;
    put_unended(rt.alloc(), &mut tapes, line(&rt, 5))?;
    let text = "0005 1 KEYED 0001 KP:1100+1700 0:1300+1500 ST:1500+1700\n\
        KEYED 1 REFUSED 0\n";
    check_tapes(&rt, rt.alloc(), &tapes, text)
}
