// Pages that are joined, and pages that are damaged or out of their place, written by hand.
use std::alloc::Global;
use std::test::Fail;
use test_kit::check_texts;
use xb_model::LINES;
use xb_parts::{Damage, Joiner, LineRange, PartPage, PartsFault, join_pages};

/// The page of the lines before 9999.
pub const FIRST: &[u8] = b"0000 1 REFUSED UNKNOWN 3\n\
0007 1 KEYED 0001 KP:1100+1700 0:1300+1500 ST:1500+1700\n\
0007 2 REFUSED ABANDONED 0\n\
KEYED 1 REFUSED 2\n";

const NONE: &[u8] = b"KEYED 0 REFUSED 0\n";

/// The page of line 9999.
pub const LAST: &[u8] =
    b"9999 1 KEYED 0003 KP:1100+1700 4:700+1300 1:700+900 1:700+900 ST:1500+1700\n\
KEYED 1 REFUSED 0\n";

/// The page of both.
pub const WHOLE: &[u8] = b"0000 1 REFUSED UNKNOWN 3\n\
0007 1 KEYED 0001 KP:1100+1700 0:1300+1500 ST:1500+1700\n\
0007 2 REFUSED ABANDONED 0\n\
9999 1 KEYED 0003 KP:1100+1700 4:700+1300 1:700+900 1:700+900 ST:1500+1700\n\
KEYED 2 REFUSED 2\n";

// Parts as they are named: the first line, the line after the last, and the page.
type Named = (u16, u16, &'static [u8]);

// What pages make.
fn join(alloc: Global, named: &[Named]) -> Result<Vec<u8>, PartsFault> {
    let mut parts = Vec::new(alloc);
    for (first, end, page) in named {
        let lines = LineRange {
            first: *first,
            end: *end,
        };
        parts
            .push(PartPage { lines, page })
            .map_err(|_| PartsFault::NoMemory)?;
    }
    join_pages(alloc, &parts)
}

// Parts, and the page that they make.
const JOINED: &[(&[Named], &[u8])] = &[
    (
        &[(0, 8, FIRST), (8, 9_999, NONE), (9_999, LINES, LAST)],
        WHOLE,
    ),
    (&[(0, LINES, WHOLE)], WHOLE),
    (
        &[(0, 0, NONE), (0, LINES, WHOLE), (LINES, LINES, NONE)],
        WHOLE,
    ),
    (&[(0, LINES, NONE)], NONE),
];

#[test]
fn parts_are_joined_or_do_not_join(rt: HostRuntime) -> Result<(), Fail> {
    for (parts, whole) in JOINED {
        let page = join(rt.alloc(), parts)?;
        assert_eq!(rt; page.as_slice(), *whole);
    }
    for (parts, fault) in APART {
        assert_eq!(rt; join(rt.alloc(), parts).err(), Some(*fault));
    }
    Ok(())
}

// Parts that are missing or out of their place, and pages of other lines.
const APART: &[(&[Named], PartsFault)] = &[
    (&[], PartsFault::Missing(0)),
    (&[(0, 8, FIRST)], PartsFault::Missing(8)),
    (&[(0, 9_999, FIRST)], PartsFault::Missing(9_999)),
    (&[(0, 8, FIRST), (9_999, LINES, LAST)], PartsFault::Lines(2)),
    (&[(8, LINES, LAST)], PartsFault::Lines(1)),
    (&[(8, LINES, LAST), (0, 8, FIRST)], PartsFault::Lines(1)),
    (
        &[(0, 8, FIRST), (0, 8, FIRST), (8, LINES, LAST)],
        PartsFault::Lines(2),
    ),
    (&[(0, 9, FIRST), (8, LINES, LAST)], PartsFault::Lines(2)),
    (&[(0, LINES + 1, WHOLE)], PartsFault::Lines(1)),
    (&[(0, 8, FIRST), (8, 7, NONE)], PartsFault::Lines(2)),
    (&[(0, 8, LAST), (8, LINES, FIRST)], PartsFault::PastEnd(1)),
    (&[(0, 7, FIRST), (7, LINES, NONE)], PartsFault::PastEnd(1)),
];

// Nothing of a part that has a fault is counted.
#[test]
fn joiner_goes_on_after_a_fault(rt: HostRuntime) {
    let alloc = rt.alloc();
    let all = LineRange {
        first: 0,
        end: LINES,
    };
    let mut joiner = Joiner::new();
    let cut = joiner.take(all, &WHOLE[..40]).err();
    assert_eq!(rt; cut, Some(PartsFault::Part(1, Damage::NoTotals)));
    assert_eq!(rt; joiner.totals(alloc).err(), Some(PartsFault::Missing(0)));
    let entries = joiner.take(all, WHOLE).expect(&rt, "a sound page");
    assert_eq!(rt; entries.len() + "KEYED 2 REFUSED 2\n".len(), WHOLE.len());
    let totals = joiner.totals(alloc).expect(&rt, "all lines");
    assert_eq!(rt; totals.as_str(), "KEYED 2 REFUSED 2\n");
}

// A page that is cut after any of its bytes is no page.
// What is wrong with the page of the lines from 8 on.
const DAMAGED: &[(&[u8], Damage)] = &[
    (b"", Damage::NoTotals),
    (b"0008 1 REFUSED UNKNOWN 3\n", Damage::NoTotals),
    (b"KEYED 0 REFUSED 0", Damage::NoTotals),
    (b"0008 1 REFUSED UNKNO", Damage::NoTotals),
    (b"KEYED 0 REFUSED 1\n", Damage::WrongTotals),
    (b"KEYED 00 REFUSED 0\n", Damage::WrongTotals),
    (b"KEYED 0 REFUSED 0 \n", Damage::WrongTotals),
    (b"KEYED\n", Damage::WrongTotals),
    (
        b"0008 1 KEYED 0001\nKEYED 0 REFUSED 1\n",
        Damage::WrongTotals,
    ),
    (b"KEYED 0 REFUSED 0\n\n", Damage::GoesOn),
    (b"KEYED 0 REFUSED 0\nKEYED 0 REFUSED 0\n", Damage::GoesOn),
    (b"\nKEYED 0 REFUSED 0\n", Damage::NoEntry(1)),
    (b"0008 1 KEYED 0001\n9 1 KEYED 0001\n", Damage::NoEntry(2)),
    (b"000a 1 KEYED 0001\n", Damage::NoEntry(1)),
    (b"0008 1 KEPT 0001\n", Damage::NoEntry(1)),
    (b"0008 2 KEYED 0001\n", Damage::OutOfOrder(1)),
    (
        b"0008 1 KEYED 0001\n0008 3 KEYED 0001\n",
        Damage::OutOfOrder(2),
    ),
    (
        b"0009 1 KEYED 0001\n0008 1 KEYED 0001\n",
        Damage::OutOfOrder(2),
    ),
    (
        b"0008 1 KEYED 0001\n0009 2 KEYED 0001\n",
        Damage::OutOfOrder(2),
    ),
    (b"0008 01 KEYED 0001\n", Damage::OutOfOrder(1)),
    (FIRST, Damage::Overlaps),
    (b"0007 1 KEYED 0001\n", Damage::Overlaps),
    (
        b"0008 1 KEYED 00\xff7 KP:11 rubbish\nKEYED 1 REFUSED 0\n",
        Damage::WrongKey(1),
    ),
    (
        b"0008 1 KEYED 0001\n0008 2 KEYED 0001 ST:1500+4000\nKEYED 2 REFUSED 0\n",
        Damage::WrongKey(2),
    ),
    (
        b"0008 1 REFUSED\nKEYED 0 REFUSED 1\n",
        Damage::WrongRefusal(1),
    ),
    (
        b"0008 1 REFUSED NOTHING -5\nKEYED 0 REFUSED 1\n",
        Damage::WrongRefusal(1),
    ),
];

#[test]
fn names_each_damage(rt: HostRuntime) {
    for length in 0..WHOLE.len() {
        let cut = join(rt.alloc(), &[(0, LINES, &WHOLE[..length])]).err();
        assert_eq!(rt;
            cut,
            Some(PartsFault::Part(1, Damage::NoTotals)),
            "{length}"
        );
    }
    for (page, damage) in DAMAGED {
        let parts = [(0, 8, FIRST), (8, LINES, *page)];
        let wanted = PartsFault::Part(2, *damage);
        let got = join(rt.alloc(), &parts).err();
        assert_eq!(rt; got, Some(wanted), "{}", page.escape_ascii());
    }
}

// Faults, and their words.
const WORDS: &[(PartsFault, &str)] = &[
    (
        PartsFault::Lines(2),
        "part 2: its lines do not follow those of the part before",
    ),
    (
        PartsFault::Part(2, Damage::NoTotals),
        "part 2: the page ends without its totals",
    ),
    (
        PartsFault::Part(2, Damage::WrongTotals),
        "part 2: the totals are not those of the entries",
    ),
    (
        PartsFault::Part(2, Damage::GoesOn),
        "part 2: the page goes on after its totals",
    ),
    (
        PartsFault::Part(2, Damage::NoEntry(7)),
        "part 2: line 7 is no entry",
    ),
    (
        PartsFault::Part(2, Damage::WrongKey(7)),
        "part 2: line 7 has a wrong trunk group or key",
    ),
    (
        PartsFault::Part(2, Damage::WrongRefusal(7)),
        "part 2: line 7 has a wrong refusal",
    ),
    (
        PartsFault::Part(2, Damage::OutOfOrder(7)),
        "part 2: line 7 is out of its order",
    ),
    (
        PartsFault::Part(2, Damage::Overlaps),
        "part 2: the first line belongs to an earlier part",
    ),
    (
        PartsFault::PastEnd(2),
        "part 2: the page has a line of a later part",
    ),
    (PartsFault::Missing(250), "no part has line 250"),
];

#[test]
fn words_of_faults(rt: HostRuntime) -> Result<(), Fail> {
    check_texts(rt.alloc(), WORDS)
}
