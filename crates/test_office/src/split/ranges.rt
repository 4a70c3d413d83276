// The ranges that are planned for counted rows.
use std::alloc::{AllocError, Global};
use std::process::Abort;
use std::test::Fail;
use test_kit::attempts::SIX_CALLS;
use test_kit::decks::one_after_another;
use xb_model::{Contact, LINES, LineNo, PerLine, Row};
use xb_parts::{LineRange, Load, PlanFault, count_row, part_of, plan_ranges};
use xb_rows::text_of_rows;

const MOST: Load = Load {
    records: 1_000_000,
    bytes: 16_000_000,
};

// What two lines of six calls have, and one record less.
const TWO_LINES: Load = Load {
    records: 142,
    bytes: 16_000_000,
};

const LESS_THAN_TWO: Load = Load {
    records: 141,
    bytes: 16_000_000,
};

// Less than one of the lines has.
const FEW_RECORDS: Load = Load {
    records: 70,
    bytes: 16_000_000,
};

const FEW_BYTES: Load = Load {
    records: 71,
    bytes: 100,
};

// The header's bytes, its LF counted.
const HEADER_BYTES: u64 = 14;

// What each line has of rows.
fn loads_of(alloc: Global, rows: &[Row]) -> Result<PerLine<Load>, AllocError> {
    let mut loads = PerLine::from_fn(alloc, Load::default)?;
    for row in rows {
        count_row(&mut loads, *row);
    }
    Ok(loads)
}

fn range(first: u16, end: u16) -> LineRange {
    LineRange { first, end }
}

#[test]
fn rows_are_counted(rt: HostRuntime) -> Result<(), Fail> {
    let alloc = rt.alloc();
    let rows = one_after_another(alloc, &SIX_CALLS)?;
    let loads = loads_of(alloc, &rows)?;
    let text = text_of_rows(alloc, &rows)?;
    let mut count: usize = 0;
    let mut bytes = HEADER_BYTES;
    for (line, load) in loads.iter() {
        let of_line = rows.iter().filter(|row| row.line() == line).count();
        assert_eq!(rt; load.records, of_line as u64);
        count = count.saturating_add(of_line);
        bytes = bytes.saturating_add(load.bytes);
    }
    assert_eq!(rt; count, rows.len());
    assert_eq!(rt; bytes, text.as_str().len() as u64);
    Ok(())
}

const ALL: LineRange = LineRange {
    first: 0,
    end: LINES,
};

const BY_TWO: [LineRange; 3] = [
    LineRange { first: 0, end: 3 },
    LineRange { first: 3, end: 5 },
    LineRange {
        first: 5,
        end: LINES,
    },
];

// The most that a part may have, how many ranges there are, and which, where they are named; of six lines of 71
// rows each.
const PLANS: &[(Load, usize, &[LineRange])] = &[
    (MOST, 1, &[ALL]),
    (TWO_LINES, 3, &BY_TWO),
    (LESS_THAN_TWO, 6, &[]),
];

#[test]
fn ranges_are_planned(rt: HostRuntime) -> Result<(), Fail> {
    let alloc = rt.alloc();
    let rows = one_after_another(alloc, &SIX_CALLS)?;
    let loads = loads_of(alloc, &rows)?;
    for (most, count, wanted) in PLANS {
        let ranges = plan_ranges(alloc, &loads, *most).expect(&rt, "a plan");
        assert_eq!(rt; ranges.len(), *count);
        if !wanted.is_empty() {
            assert_eq!(rt; ranges.as_slice(), *wanted);
        }
    }
    let first = LineNo::new(1).ok_or("a line")?;
    for most in [FEW_RECORDS, FEW_BYTES] {
        let fault = plan_ranges(alloc, &loads, most).err();
        assert_eq!(rt; fault, Some(PlanFault::Line(first)));
    }
    Ok(())
}

// The rows of lines 0, 4999, 5000 and 9999, one of each in turn.
#[test]
fn ranges_have_their_rows_in_order(rt: HostRuntime) -> Result<(), Fail> {
    let alloc = rt.alloc();
    let mut rows = Vec::new(alloc);
    for ms in 1..3 {
        for line in [9_999, 0, 5_000, 4_999] {
            let line = LineNo::new(line).ok_or("a line")?;
            rows.push(Row::new(line, Contact::Make, ms).ok_or("a row")?)?;
        }
    }
    let low = part_of(alloc, &rows, range(0, 5_000))?;
    let low_lines: Vec<(u16, u32)> = low
        .iter()
        .map(|row| (row.line().get(), row.ms()))
        .collect(alloc)?;
    assert_eq!(rt;
        low_lines.as_slice(),
        [(0u16, 1u32), (4_999, 1), (0, 2), (4_999, 2)].as_slice()
    );
    let high = part_of(alloc, &rows, range(5_000, LINES))?;
    assert_eq!(rt; high.len(), 4);
    let none = part_of(alloc, &rows, range(1, 4_999))?;
    assert_eq!(rt; none.len(), 0);
    Ok(())
}
