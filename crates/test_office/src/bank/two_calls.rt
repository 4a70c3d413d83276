// Two calls of line 5: the operator, and one that is given up.
use std::alloc::Global;
use std::test::Fail;
use test_kit::decks::TABLE;
use test_kit::marks::operator_marks;
use test_kit::pulses::rows_of;
use xb_model::{LineNo, Mark, Reason, Row};
use xb_routes::RouteTable;

/// The mark of the second call, which dials nothing.
pub const ABANDONED: Mark = Mark::Refused(Reason::Abandoned, 0);

/// The line that calls.
pub fn line() -> Result<LineNo, Fail> {
    Ok(LineNo::new(5).ok_or("a line")?)
}

/// What the line does: it dials ten pulses, hangs up, and seizes again.
pub fn rows(alloc: Global) -> Result<Vec<Row>, Fail> {
    rows_of(alloc, 5, "M500 #0 B400 M500")
}

/// The usual route table.
pub fn table(alloc: Global) -> Result<RouteTable, Fail> {
    Ok(RouteTable::read(alloc, TABLE.as_bytes())?)
}

/// Whether these are the marks of both calls.
pub fn are_both(marks: &[Mark]) -> Result<bool, Fail> {
    let keyed = operator_marks()?;
    Ok(marks.len() == 5 && marks.starts_with(&keyed) && marks.ends_with(&[ABANDONED]))
}
