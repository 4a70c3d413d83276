// In which row the marks of a call come.
use std::alloc::Global;
use std::process::Abort;
use std::test::Fail;
use test_kit::decks::TABLE;
use test_kit::marks::keying;
use test_kit::pulses::rows_of;
use xb_model::{LineNo, Mark, On, Reason};
use xb_routes::RouteTable;
use xb_serial::Live;

/// An office by the usual table.
pub fn usual_office(alloc: Global) -> Result<Live, Fail> {
    let table = RouteTable::read(alloc, TABLE.as_bytes())?;
    Ok(Live::new(alloc, table)?)
}

// The marks of the last row, without their line.
fn last_marks(alloc: Global, live: &Live, line: LineNo) -> Result<Vec<Mark>, Fail> {
    let mut marks = Vec::new(alloc);
    for mark in live.given() {
        if mark.line == line {
            marks.push(mark.what)?;
        }
    }
    Ok(marks)
}

/// Takes what a line does, which gives no mark.
pub fn take_in_silence(
    rt: &impl Abort,
    alloc: Global,
    live: &mut Live,
    line: u16,
    pieces: &str,
) -> Result<(), Fail> {
    for row in &rows_of(alloc, line, pieces)? {
        live.take(*row);
        assert!(rt; live.given().is_empty(), "{pieces}");
    }
    Ok(())
}

/// Takes one row of a line, which gives these marks.
pub fn take_and_give(
    rt: &impl Abort,
    alloc: Global,
    live: &mut Live,
    line: u16,
    piece: &str,
    wanted: &[Mark],
) -> Result<(), Fail> {
    let rows = rows_of(alloc, line, piece)?;
    let number = LineNo::new(line).ok_or("a line")?;
    assert_eq!(rt; rows.len(), 1);
    for row in &rows {
        live.take(*row);
    }
    let marks = last_marks(alloc, live, number)?;
    assert_eq!(rt; marks.as_slice(), wanted);
    Ok(())
}

// Until the row that reaches the last digit's pause there is no mark, and then there are nine.
fn check_keyed(
    rt: &impl Abort,
    alloc: Global,
    live: &mut Live,
    wanted: &[Mark],
) -> Result<(), Fail> {
    let dialled = "M500 #2 #3 #4 #5 #6 #7 *8/100 M79";
    take_in_silence(rt, alloc, live, 7, dialled)?;
    take_and_give(rt, alloc, live, 7, "M1", wanted)?;
    take_in_silence(rt, alloc, live, 7, "M1 M86400000 #9 B400 C")
}

// A refusal comes with the row that hangs up, with the row that reaches the time-out, and with the close.
fn check_refused(rt: &impl Abort, alloc: Global, live: &mut Live) -> Result<(), Fail> {
    let abandoned = [Mark::Refused(Reason::Abandoned, 0)];
    let timed_out = [Mark::Refused(Reason::TimedOut, 1)];
    take_in_silence(rt, alloc, live, 9999, "M500 B299")?;
    take_and_give(rt, alloc, live, 9999, "B1", &abandoned)?;
    take_in_silence(rt, alloc, live, 0, "M500 *2/19999")?;
    take_and_give(rt, alloc, live, 0, "M1", &timed_out)?;
    take_in_silence(rt, alloc, live, 0, "M20000 B400 M500")?;
    take_and_give(rt, alloc, live, 0, "C", &abandoned)
}

#[test]
fn each_entry_comes_in_its_row(rt: HostRuntime) -> Result<(), Fail> {
    let mut live = usual_office(rt.alloc())?;
    let wanted = keying(rt.alloc(), 17, &[5, 6, 5, 6, 7, 8])?;
    check_keyed(&rt, rt.alloc(), &mut live, &wanted)?;
    check_refused(&rt, rt.alloc(), &mut live)
}
