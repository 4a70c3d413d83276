// A deck that is counted, planned, and written as the decks of its parts, from a stream that gives few bytes
// at a time.
use std::alloc::Global;
use std::io::{self, ErrorKind};
use std::test::Fail;
use xb_parts::{
    LineRange, ListFault, ListedPart, PartDecks, PlanFault, PlanPartsFault, count_rows, list_of,
    plan_parts, ranges_of_list, write_parts,
};
use xb_rows::RowReader;

const TABLE: &[u8] = b"[[route]]\ncode = \"0\"\ntrunk = 1\n";

const ROWS: &[u8] =
    b"line,state,ms\n7,M,500\n9999,M,500\n\"0007\",B,060\n0,M,1\n7,C,0\n5000,B,400\n";

const LOW: &[u8] =
    b"[[route]]\ncode = \"0\"\ntrunk = 1\n---\nline,state,ms\n7,M,500\n7,B,60\n0,M,1\n7,C,0\n";

const HIGH: &[u8] =
    b"[[route]]\ncode = \"0\"\ntrunk = 1\n---\nline,state,ms\n9999,M,500\n5000,B,400\n";

// Two decks in memory.
#[derive(Drop)]
pub(crate) struct TwoDecks {
    pub(crate) low: Vec<u8>,
    pub(crate) high: Vec<u8>,
}

impl TwoDecks {
    pub(crate) fn new(alloc: Global) -> TwoDecks {
        TwoDecks {
            low: Vec::new(alloc),
            high: Vec::new(alloc),
        }
    }
}

impl PartDecks for TwoDecks {
    fn write(&mut self, part: usize, bytes: &[u8]) -> io::Result<()> {
        let deck = match part {
            0 => &mut self.low,
            1 => &mut self.high,
            _ => return Err(io::Error::from(ErrorKind::NotFound)),
        };
        deck.extend_from_slice(bytes)?;
        Ok(())
    }

    fn keep(&mut self) -> io::Result<()> {
        Ok(())
    }
}

const HALVES: [LineRange; 2] = [
    LineRange {
        first: 0,
        end: 5_000,
    },
    LineRange {
        first: 5_000,
        end: 10_000,
    },
];

#[test]
fn decks_of_parts(rt: HostRuntime) -> Result<(), Fail> {
    let alloc = rt.alloc();
    let mut rows = RowReader::new(ROWS, u64::MAX);
    let loads = count_rows(alloc, &mut rows)?;
    // lines 0 and 7 have 4 of the 6 records, and line 7 alone has 3
    let halves = plan_parts(alloc, TABLE.len(), &loads, Some(2))?;
    assert_eq!(rt; halves.as_slice(), HALVES.as_slice());
    let one = plan_parts(alloc, TABLE.len(), &loads, None)?;
    assert_eq!(rt; one.len(), 1);
    let mut rows = RowReader::new(ROWS, u64::MAX);
    let mut decks = TwoDecks::new(alloc);
    let written = write_parts(alloc, TABLE, &mut rows, &HALVES, &mut decks)?;
    for (line, load) in written.iter() {
        assert_eq!(rt; load, loads.get(line));
    }
    assert_eq!(rt; decks.low.as_slice(), LOW);
    assert_eq!(rt; decks.high.as_slice(), HIGH);
    Ok(())
}

// Lines 1 to 6 have 5, 1, 1, 1, 1 and 1 records, of 6 bytes each.
const UNEVEN: &[u8] =
    b"line,state,ms\n1,M,5\n1,B,5\n1,M,5\n1,B,5\n1,M,5\n2,M,5\n3,M,5\n4,M,5\n5,M,5\n6,M,5\n";

const ALL: &[LineRange] = &[LineRange {
    first: 0,
    end: 10_000,
}];

// Five records are on line 1, and five on later lines. Six and four would be less even.
const FIVES: &[LineRange] = &[
    LineRange { first: 0, end: 2 },
    LineRange {
        first: 2,
        end: 10_000,
    },
];

// A table that leaves 30 bytes for records: 16,777,216 - 18 - 30.
const LONG: usize = 16_777_168;

// The table, how many parts are asked for, and their ranges.
const PLANS: &[(usize, Option<u32>, &[LineRange])] = &[
    (0, None, ALL),
    (0, Some(1), ALL),
    (0, Some(2), FIVES),
    // no third part makes the first one smaller
    (0, Some(3), FIVES),
    (LONG, None, FIVES),
    // one part would not fit
    (LONG, Some(1), FIVES),
];

#[test]
fn even_parts(rt: HostRuntime) -> Result<(), Fail> {
    let alloc = rt.alloc();
    let mut rows = RowReader::new(UNEVEN, u64::MAX);
    let loads = count_rows(alloc, &mut rows)?;
    for (table, parts, ranges) in PLANS {
        let plan = plan_parts(alloc, *table, &loads, *parts)?;
        assert_eq!(rt; plan.as_slice(), *ranges);
    }
    // line 1 alone has 30 bytes; and there is a table that leaves none
    let no_plan = plan_parts(alloc, LONG + 1, &loads, Some(9)).err();
    assert!(rt; matches!(no_plan, Some(PlanPartsFault::Plan(PlanFault::Line(_)))));
    let no_room = plan_parts(alloc, LONG + 31, &loads, None).err();
    assert_eq!(rt; no_room, Some(PlanPartsFault::Table));
    Ok(())
}

// What is listed is read.
#[test]
fn lists(rt: HostRuntime) -> Result<(), Fail> {
    let alloc = rt.alloc();
    let mut parts = Vec::new(alloc);
    for lines in HALVES {
        parts.push(ListedPart { lines, records: 3 })?;
    }
    let list = list_of(alloc, &parts)?;
    assert_eq!(rt;
        list.as_str(),
        "0000-4999.deck 0 4999 3\n5000-9999.deck 5000 9999 3\n"
    );
    let ranges = ranges_of_list(alloc, list.as_bytes())?;
    assert_eq!(rt; ranges.as_slice(), HALVES.as_slice());
    let cut = ranges_of_list(alloc, b"0000-4999.deck 0 4999").err();
    assert_eq!(rt; cut, Some(ListFault::NoList));
    Ok(())
}
