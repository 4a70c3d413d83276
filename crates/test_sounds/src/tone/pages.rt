// Pages read back, and pages that are damaged.
use std::test::Fail;
use xb_model::{Digit, Key, Mark, Reason, Tone};
use xb_page::{MOST_PAGE_BYTES, PageFault, page_entries};

// The line, the number, the refusal and how many marks each entry of a page has.
type Entries = &'static [(u16, usize, Option<(Reason, u8)>, usize)];

const PAGES: &[(&[u8], Entries)] = &[
    (b"KEYED 0 REFUSED 0\n", &[]),
    (
        b"0007 1 REFUSED UNKNOWN 3\n\
0007 2 KEYED 0017 KP:1100+1700 0:1300+1500 ST:1500+1700\n\
0042 1 KEYED 0001 KP:1100+1700 ST:1500+1700\n\
9999 1 REFUSED TIMEDOUT 255\n\
KEYED 2 REFUSED 2\n",
        &[
            (7, 1, Some((Reason::Unknown, 3)), 1),
            (7, 2, None, 4),
            (42, 1, None, 3),
            (9999, 1, Some((Reason::TimedOut, 255)), 1),
        ],
    ),
    (
        b"0000 1 REFUSED MUTILATED 0\n0000 2 REFUSED ABANDONED 6\nKEYED 0 REFUSED 2\n",
        &[
            (0, 1, Some((Reason::Mutilated, 0)), 1),
            (0, 2, Some((Reason::Abandoned, 6)), 1),
        ],
    ),
];

// Texts that are no pages, and their first faults.
const FAULTS: &[(&[u8], PageFault)] = &[
    (b"", PageFault::NoTotals(1)),
    (b"\n", PageFault::Line(1)),
    (b"7 1 REFUSED UNKNOWN 3\n", PageFault::Line(1)),
    (b"x007 1 REFUSED UNKNOWN 3\n", PageFault::Line(1)),
    (
        b"0007 1 REFUSED UNKNOWN 3\n0006 1 REFUSED UNKNOWN 3\nKEYED 0 REFUSED 2\n",
        PageFault::Early(2),
    ),
    (b"0007 0 REFUSED UNKNOWN 3\n", PageFault::Number(1)),
    (b"0007 01 REFUSED UNKNOWN 3\n", PageFault::Number(1)),
    (
        b"0007 1 REFUSED UNKNOWN 3\n0007 1 REFUSED UNKNOWN 3\nKEYED 0 REFUSED 2\n",
        PageFault::Number(2),
    ),
    (
        b"0007 1 REFUSED UNKNOWN 3\n0008 2 REFUSED UNKNOWN 3\nKEYED 0 REFUSED 2\n",
        PageFault::Number(2),
    ),
    (b"0007 1 keyed 0001\n", PageFault::Kind(1)),
    (b"0007 1\n", PageFault::Kind(1)),
    (b"0007 1 KEYED 001\n", PageFault::Key(1)),
    (b"0007 1 KEYED 0001 KX:1100+1700\n", PageFault::Key(1)),
    (b"0007 1 KEYED 0001 KP:1100+4000\n", PageFault::Key(1)),
    (b"0007 1 KEYED 0001 KP:1111+1701\n", PageFault::Key(1)),
    (b"0007 1 KEYED 0001 6:900+1300\n", PageFault::Key(1)),
    (b"0007 1 KEYED 0001 6:1300+1100\n", PageFault::Key(1)),
    (
        b"0007 1 KEYED 0001\n0007 2 KEYED 0001 1:1501+900\n",
        PageFault::Key(2),
    ),
    (b"0007 1 KEYED 0001  KP:1100+1700\n", PageFault::Key(1)),
    (b"0007 1 REFUSED UNKNOWN\n", PageFault::Refusal(1)),
    (b"0007 1 REFUSED NOTHING 3\n", PageFault::Refusal(1)),
    (b"0007 1 REFUSED UNKNOWN 256\n", PageFault::Refusal(1)),
    (
        b"0007 1 REFUSED UNKNOWN 3\nKEYED 1 REFUSED 0\n",
        PageFault::Totals(2),
    ),
    (b"KEYED 0 REFUSED 00\n", PageFault::Totals(1)),
    (b"KEYED 0\n", PageFault::Totals(1)),
    (b"0007 1 REFUSED UNKNOWN 3\n", PageFault::NoTotals(2)),
    (b"0007 1 REFUSED UNKNOWN 3", PageFault::NoTotals(2)),
    (b"KEYED 0 REFUSED 0", PageFault::NoTotals(1)),
    (b"KEYED 0 REFUSED 0\n\n", PageFault::GoesOn(1)),
    (
        b"KEYED 0 REFUSED 0\nKEYED 0 REFUSED 0\n",
        PageFault::GoesOn(1),
    ),
];

#[test]
fn reads_pages_and_names_each_damage(rt: HostRuntime) -> Result<(), Fail> {
    for (page, want) in PAGES {
        let entries = page_entries(rt.alloc(), page)?;
        assert_eq!(rt; entries.len(), want.len());
        for (entry, (line, number, refusal, marks)) in entries.iter().zip(want.iter()) {
            assert_eq!(rt; entry.line().get(), *line);
            assert_eq!(rt; entry.number(), *number);
            assert_eq!(rt; entry.refusal(), *refusal);
            assert_eq!(rt; entry.marks().len(), *marks);
        }
    }
    for (page, fault) in FAULTS {
        let text = &page[..page.len().min(MOST_PAGE_BYTES)];
        let got = page_entries(rt.alloc(), text).err();
        assert_eq!(rt; got, Some(*fault), "{}", page.escape_ascii());
    }
    Ok(())
}

#[test]
fn reads_leading_zeros(rt: HostRuntime) -> Result<(), Fail> {
    let page =
        b"0001 1 KEYED 0002 KP:1100+1700 6:1100+1300 1:0700+0900 ST:1500+1700\nKEYED 1 REFUSED 0\n";
    let entries = page_entries(rt.alloc(), page)?;
    for entry in &entries {
        let mark = entry.marks().get(3).copied();
        let key = Key::Digit(Digit::new(1).ok_or("a digit")?);
        let tone = Tone {
            low: 700,
            high: 900,
        };
        assert_eq!(rt; mark, Some(Mark::Tone(key, tone)));
    }
    Ok(())
}
