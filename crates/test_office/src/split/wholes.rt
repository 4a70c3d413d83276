// The pages of the parts of a worked example make the page of the whole.
use std::alloc::Global;
use std::process::Abort;
use std::test::Fail;
use test_kit::attempts::TWO_LINES_IN_TURN;
use test_kit::decks::{TABLE, page_of, two_in_turn};
use xb_model::{LINES, Row};
use xb_parts::{Joiner, LineRange, part_of};
use xb_routes::RouteTable;
use xb_serial::key_serial;
use xb_tape::page;

// Where the lines are cut.
const CUTS: &[&[u16]] = &[
    &[LINES],
    &[0, LINES],
    &[5, LINES],
    &[6, LINES, LINES],
    &[1, 2, 3, 4, 5, 6, 7, 8, 9_999, LINES],
];

// The page that the pages of parts make, each printed for itself.
fn joined_page(
    rt: &impl Abort,
    alloc: Global,
    table: &RouteTable,
    rows: &[Row],
    ends: &[u16],
) -> Result<Vec<u8>, Fail> {
    let mut joiner = Joiner::new();
    let mut whole = Vec::new(alloc);
    let mut first = 0;
    for end in ends {
        let lines = LineRange { first, end: *end };
        let tapes = key_serial(alloc, &part_of(alloc, rows, lines)?, table)?;
        let printed = page(alloc, &tapes)?;
        whole.extend_from_slice(joiner.take(lines, &printed).expect(rt, "a sound page"))?;
        first = *end;
    }
    let totals = joiner.totals(alloc).expect(rt, "all lines");
    whole.extend_from_slice(totals.as_bytes())?;
    Ok(whole)
}

#[test]
fn lines_in_turn_in_parts(rt: HostRuntime) -> Result<(), Fail> {
    let alloc = rt.alloc();
    let table = RouteTable::read(alloc, TABLE.as_bytes())?;
    let rows = two_in_turn(alloc, &TWO_LINES_IN_TURN)?;
    let wanted = page_of(alloc, TWO_LINES_IN_TURN.page)?;
    for ends in CUTS {
        let whole = joined_page(&rt, alloc, &table, &rows, ends)?;
        assert!(rt; whole.as_slice() == wanted.as_bytes(), "{ends:?}");
    }
    Ok(())
}
