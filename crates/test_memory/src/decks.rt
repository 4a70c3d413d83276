// The deck: its parts are constants, since making a text takes memory.
use std::io::{Chain, Read};
use test_kit::decks::TABLE;
use test_kit::marks::marks_of_operator;
use xb_model::{Contact, LineNo, Mark, Reason, Row};

/// The rows of the deck. Line 5 dials an operator. Line 16 seizes, hangs up and seizes again.
const ROWS_TEXT: &str = "line,state,ms
5,M,500
5,B,60
5,M,40
5,B,60
5,M,40
5,B,60
5,M,40
5,B,60
5,M,40
5,B,60
5,M,40
5,B,60
5,M,40
5,B,60
5,M,40
5,B,60
5,M,40
5,B,60
5,M,40
5,B,60
5,M,600
16,M,500
16,B,300
16,M,600
";

/// Its page.
pub const PAGE: &str = "0005 1 KEYED 0001 KP:1100+1700 0:1300+1500 ST:1500+1700
0016 1 REFUSED ABANDONED 0
0016 2 REFUSED ABANDONED 0
KEYED 1 REFUSED 2
";

/// Rows whose record 3 has two fields. Line 5 has a mark before it, so that the tape takes memory too.
const FAULTY_ROWS: &str = "line,state,ms
5,M,500
5,C,0
5,M
5,M,600
";

// The line that cuts a deck.
const CUT: &str = "---\n";

/// A reader of a deck under the usual table.
pub type DeckReader = Chain<Chain<&'static [u8], &'static [u8]>, &'static [u8]>;

fn deck_with(rows: &'static str) -> DeckReader {
    TABLE
        .as_bytes()
        .chain(CUT.as_bytes())
        .chain(rows.as_bytes())
}

/// A reader of the deck.
pub fn deck() -> DeckReader {
    deck_with(ROWS_TEXT)
}

/// A reader of the deck whose record 3 is faulty.
pub fn faulty_deck() -> DeckReader {
    deck_with(FAULTY_ROWS)
}

/// How many rows the deck has.
pub const ROWS: usize = 24;

/// Row `n` of the deck, from 0.
pub fn row_at(n: usize) -> Option<Row> {
    let (line, contact, ms) = match n {
        0 => (5, Contact::Make, 500),
        20 => (5, Contact::Make, 600),
        21 => (16, Contact::Make, 500),
        22 => (16, Contact::Brk, 300),
        23 => (16, Contact::Make, 600),
        n if n > 23 => return None,
        n if n % 2 == 1 => (5, Contact::Brk, 60),
        _ => (5, Contact::Make, 40),
    };
    Row::new(LineNo::new(line)?, contact, ms)
}

/// Whether these are the rows of the deck.
pub fn are_all_rows(rows: &[Row]) -> bool {
    for (n, row) in rows.iter().enumerate() {
        if row_at(n) != Some(*row) {
            return false;
        }
    }
    rows.len() == ROWS
}

/// The text of the deck's table, and that of its rows.
pub fn table_and_rows() -> (&'static str, &'static str) {
    (TABLE, ROWS_TEXT)
}

/// The marks of the two seizures that dial nothing.
pub const ABANDONED: [Mark; 2] = [
    Mark::Refused(Reason::Abandoned, 0),
    Mark::Refused(Reason::Abandoned, 0),
];

/// The lines of the deck.
pub fn lines() -> Option<(LineNo, LineNo)> {
    Some((LineNo::new(5)?, LineNo::new(16)?))
}

/// Whether these are the marks of the deck's lines.
pub fn are_marks(of_caller: &[Mark], of_seizures: &[Mark]) -> bool {
    marks_of_operator().is_some_and(|marks| of_caller == marks.as_slice())
        && of_seizures == ABANDONED.as_slice()
}
