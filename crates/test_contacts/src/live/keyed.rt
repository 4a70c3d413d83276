// The worked examples: the tapes of their rows, and the page of those.
use std::alloc::Global;
use std::test::Fail;
use test_kit::attempts::{SHEETS, TWO_LINES_IN_TURN};
use test_kit::decks::{TABLE, Worked, check_page, joined, one_after_another, two_in_turn};
use xb_model::Row;
use xb_routes::RouteTable;
use xb_serial::key_serial;
use xb_tape::{Tapes, page};

fn check_tapes(alloc: Global, tapes: &Tapes, worked: &Worked) -> Result<(), Fail> {
    let written = page(alloc, tapes)?;
    check_page(alloc, worked.name, &written, worked.page)
}

// The tapes of the rows give the page.
fn check_rows(
    alloc: Global,
    table: &RouteTable,
    rows: &[Row],
    worked: &Worked,
) -> Result<(), Fail> {
    let tapes = key_serial(alloc, rows, table)?;
    check_tapes(alloc, &tapes, worked)
}

fn check_worked(alloc: Global, table: &RouteTable, worked: &Worked) -> Result<(), Fail> {
    let rows = one_after_another(alloc, worked)?;
    check_rows(alloc, table, &rows, worked)
}

fn table_of(alloc: Global, parts: &[&str]) -> Result<RouteTable, Fail> {
    let text = joined(alloc, parts)?;
    Ok(RouteTable::read(alloc, text.as_bytes())?)
}

// What lines do under one table.
fn check_sheet(alloc: Global, parts: &[&str], attempts: &[Worked]) -> Result<(), Fail> {
    let table = table_of(alloc, parts)?;
    for worked in attempts {
        check_worked(alloc, &table, worked)?;
    }
    Ok(())
}

#[test]
fn same_bytes_on_one_thread(rt: HostRuntime) -> Result<(), Fail> {
    for (parts, attempts) in SHEETS {
        check_sheet(rt.alloc(), parts, attempts)?;
    }
    let table = table_of(rt.alloc(), &[TABLE])?;
    let rows = two_in_turn(rt.alloc(), &TWO_LINES_IN_TURN)?;
    check_rows(rt.alloc(), &table, &rows, &TWO_LINES_IN_TURN)
}
