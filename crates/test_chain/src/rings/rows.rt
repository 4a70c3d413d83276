// Rows of one line.
use std::alloc::Global;
use std::test::Fail;
use xb_model::{Contact, LineNo, Row};

/// A make of so many ms on line 1.
pub fn make(ms: u32) -> Result<Row, Fail> {
    let line = LineNo::new(1).ok_or("a line")?;
    Ok(Row::new(line, Contact::Make, ms).ok_or("a row")?)
}

/// Makes on line 1: of 1 ms, 2 ms and so on.
pub fn makes(alloc: Global, count: u32) -> Result<Vec<Row>, Fail> {
    let mut rows = Vec::new(alloc);
    for ms in 1..=count {
        rows.push(make(ms)?)?;
    }
    Ok(rows)
}
