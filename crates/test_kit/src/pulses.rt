// Loop rows, from a short form.
//
// A piece is `M500`, a make of 500 ms; `B60`, a break; `C`, a close; `*4/600`, a train of four
// breaks of 60 ms with makes of 40 ms between them and one of 600 ms after; or `#4`, the train
// `*4/600`, and `#0` ten breaks.
use std::alloc::Global;
use std::test::Fail;
use xb_model::{Contact, LineNo, Row};

/// A break of a train, in ms.
const BREAK: u32 = 60;

/// A make between two breaks of a train, in ms.
const MAKE: u32 = 40;

/// The make after a digit, in ms.
const PAUSE: u32 = 600;

/// A row of the line.
pub fn push_row(rows: &mut Vec<Row>, line: LineNo, contact: Contact, ms: u32) -> Result<(), Fail> {
    rows.push(Row::new(line, contact, ms).ok_or("a row that is none")?)?;
    Ok(())
}

/// So many breaks, and the make after the last.
pub fn push_train(rows: &mut Vec<Row>, line: LineNo, breaks: u32, last: u32) -> Result<(), Fail> {
    for n in 0..breaks {
        push_row(rows, line, Contact::Brk, BREAK)?;
        if n + 1 < breaks {
            push_row(rows, line, Contact::Make, MAKE)?;
        }
    }
    push_row(rows, line, Contact::Make, last)
}

/// The rows of a piece.
pub fn push_piece(rows: &mut Vec<Row>, line: LineNo, piece: &str) -> Result<(), Fail> {
    if let Some(ms) = piece.strip_prefix('M') {
        push_row(rows, line, Contact::Make, ms.parse::<u32>()?)
    } else if let Some(ms) = piece.strip_prefix('B') {
        push_row(rows, line, Contact::Brk, ms.parse::<u32>()?)
    } else if let Some(digit) = piece.strip_prefix('#') {
        let breaks = match digit.parse::<u32>()? {
            0 => 10,
            digit => digit,
        };
        push_train(rows, line, breaks, PAUSE)
    } else if let Some(train) = piece.strip_prefix('*') {
        let (breaks, last) = train
            .split_once('/')
            .ok_or("a train without its last make")?;
        push_train(rows, line, breaks.parse::<u32>()?, last.parse::<u32>()?)
    } else if piece == "C" {
        push_row(rows, line, Contact::Close, 0)
    } else {
        Err(Fail::from("a piece that is none"))
    }
}

/// The rows of a line.
pub fn rows_of(alloc: Global, line: u16, pieces: &str) -> Result<Vec<Row>, Fail> {
    let line = LineNo::new(line).ok_or("a line that is none")?;
    let mut rows = Vec::new(alloc);
    for piece in pieces.split(' ') {
        push_piece(&mut rows, line, piece)?;
    }
    Ok(rows)
}

// Row `k` of a list that has one.
fn push_row_at(rows: &mut Vec<Row>, list: &[Row], k: usize) -> Result<(), Fail> {
    if let Some(row) = list.get(k) {
        rows.push(*row)?;
    }
    Ok(())
}

/// One row of each list in turn, then the rest of the longer.
pub fn in_turn(alloc: Global, first: &[Row], second: &[Row]) -> Result<Vec<Row>, Fail> {
    let mut rows = Vec::new(alloc);
    for k in 0..first.len().max(second.len()) {
        push_row_at(&mut rows, first, k)?;
        push_row_at(&mut rows, second, k)?;
    }
    Ok(rows)
}
