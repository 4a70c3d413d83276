// Decks and pages, as text.
use crate::beside::Beside;
use crate::pulses::{in_turn, rows_of};
use std::alloc::{AllocError, Global};
use std::test::Fail;
use xb_model::Row;
use xb_rows::text_of_rows;

/// The route table of most decks.
pub const TABLE: &str = "[[route]]
code = \"234\"
trunk = 17
delete = 3
prefix = \"56\"
[[route]]
code = \"411\"
trunk = 3
[[route]]
code = \"0\"
trunk = 1
";

// What that table keys, by the numbers that are dialled: 0, 234 5678 and 411.
const OPERATOR: &str = "KEYED 0001 KP:1100+1700 0:1300+1500 ST:1500+1700";

const SEVEN_DIGITS: &str =
    "KEYED 0017 KP:1100+1700 5:900+1300 6:1100+1300 5:900+1300 6:1100+1300 7:700+1500 8:900+1500 ST:1500+1700";

const SERVICE_CODE: &str = "KEYED 0003 KP:1100+1700 4:700+1300 1:700+900 1:700+900 ST:1500+1700";

/// A worked example.
#[derive(Clone, Copy)]
pub struct Worked {
    /// What it shows.
    pub name: &'static str,
    /// What each line does.
    pub lines: &'static [(u16, &'static str)],
    /// The lines of the page, in which `OPERATOR`, `SEVEN_DIGITS` and `SERVICE_CODE` stand for a
    /// keying.
    pub page: &'static [&'static str],
}

/// The rows of the lines, one line after the other.
pub fn one_after_another(alloc: Global, worked: &Worked) -> Result<Vec<Row>, Fail> {
    let mut rows = Vec::new(alloc);
    for (line, pieces) in worked.lines {
        rows.extend_from_slice(&rows_of(alloc, *line, pieces)?)?;
    }
    Ok(rows)
}

/// The rows of two lines, one row of each in turn.
pub fn two_in_turn(alloc: Global, worked: &Worked) -> Result<Vec<Row>, Fail> {
    let [(first, first_pieces), (second, second_pieces)] = worked.lines else {
        return Err(Fail::from("not two lines"));
    };
    let first_rows = rows_of(alloc, *first, first_pieces)?;
    let second_rows = rows_of(alloc, *second, second_pieces)?;
    in_turn(alloc, &first_rows, &second_rows)
}

/// The parts of a text, one after the other.
pub fn joined(alloc: Global, parts: &[&str]) -> Result<String, AllocError> {
    let mut text = String::new(alloc);
    for part in parts {
        text.push_str(part)?;
    }
    Ok(text)
}

/// The table, the line that cuts, and the rows as CSV.
pub fn deck_of(alloc: Global, table: &str, rows: &[Row]) -> Result<String, Fail> {
    let text = text_of_rows(alloc, rows)?;
    Ok(joined(alloc, &[table, "---\n", text.as_str()])?)
}

fn written_out(word: &str) -> &str {
    match word {
        "OPERATOR" => OPERATOR,
        "SEVEN_DIGITS" => SEVEN_DIGITS,
        "SERVICE_CODE" => SERVICE_CODE,
        _ => word,
    }
}

// A line of the page, of its short form.
fn push_line(page: &mut String, line: &str) -> Result<(), Fail> {
    for (place, word) in line.split(' ').enumerate() {
        if place > 0 {
            page.push(' ')?;
        }
        page.push_str(written_out(word))?;
    }
    page.push('\n')?;
    Ok(())
}

/// The page of its short form.
pub fn page_of(alloc: Global, lines: &[&str]) -> Result<String, Fail> {
    let mut page = String::new(alloc);
    for line in lines {
        push_line(&mut page, line)?;
    }
    Ok(page)
}

/// Checks that a page, of what this name says, is that of its short form.
pub fn check_page(alloc: Global, name: &str, came: &[u8], lines: &[&str]) -> Result<(), Fail> {
    let page = page_of(alloc, lines)?;
    let wanted = page.as_bytes();
    if came == wanted {
        return Ok(());
    }
    let beside = Beside { came, wanted };
    Err(Fail::new(format_args!("the page of {name}: {beside}")))
}
