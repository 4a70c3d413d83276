// The rows of a text, one at a time.
ghost use Rattle.std.specs.Prelude.{◌≡◌, ℕ, List};
ghost use Rattle.xb_rows.specs.Plain.{BeginsWith, HandsOver};
ghost use Rattle.xb_rows.specs.RowTexts.{Fields, rest_of_text};

use crate::csv_scan::CsvScan;
use crate::plain::{after_header, plain_row};
use std::alloc::Global;
use std::marker::Model;
use xb_model::{Row, RowFault, RowSource};

/// The most records that follow the header (own limit).
pub const MOST_RECORDS: u32 = 1_000_000;

/// The rows of a CSV text, one at a time: a source that takes memory, in `next_row` alone. As long as the
/// records are plain they are read directly, and from the first other one on by `csv`.
#[derive(Drop)]
pub struct Scan<'a> {
    alloc: Global,
    // what begins with the last record that was read directly
    last: &'a [u8],
    // what follows that record
    rest: &'a [u8],
    // how many records were read directly
    taken: u64,
    // what reads the text in its place
    csv: Option<CsvScan<'a>>,
}

impl<'a> Model for Scan<'a> {
    ghost use Rattle.xb_model.specs.Sources.{Rest};
    ghost use Rattle.xb_rows.specs.Plain.{IsPlainSoFar, rest_after};

    ghost Value = { Rest };

    ghost view = { λ s. rest_after s.taken s.rest.now s.csv };

    ghost invariant = { λ s. IsPlainSoFar s.last.now s.rest.now s.csv };
}

// Has `csv` read on after the first record of a text, which it reads once more.
#[cold]
#[inline(never)]
fn hand_over<'a>(
    alloc: Global,
    last: &'a [u8],
    taken: u64,
    csv: &mut Option<CsvScan<'a>>,
) -> Result<Option<Row>, RowFault>
    ensures { (fields : Fields) → (rest : List ℕ) → BeginsWith last.now fields rest
        → HandsOver taken rest result csv.new }
{
    let mut scan = CsvScan::after(alloc, last, taken);
    let given = scan.next_row();
    *csv = Some(scan);
    given
}

impl<'a> Scan<'a> {
    /// A scan of a text: its first record is the header `line,state,ms`, and each further one,
    /// counted from 1, is a row.
    pub fn new(alloc: Global, text: &'a [u8]) -> Scan<'a>
        ensures { result ≡ rest_of_text text.now }
    {
        let (rest, csv) = match after_header(text) {
            Some(rest) => (rest, None),
            None => (text, Some(CsvScan::new(alloc, text))),
        };
        Scan {
            alloc,
            last: text,
            rest,
            taken: 0,
            csv,
        }
    }
}

impl<'a> RowSource for Scan<'a> {
    ghost rest = { λ s. s };

    /// The next row, `None` at the end, or the fault that stops the rows: `Header` where there is
    /// no record or the first is not the header, `TooMany` at the record after the 1,000,000th,
    /// `Fields`, `Line`, `Contact` or `Ms` of the first record that is no row, and `NoMemory`
    /// where memory ran out. After the end or a fault each call returns it again.
    fn next_row(&mut self) -> Result<Option<Row>, RowFault> {
        if let Some(csv) = &mut self.csv {
            return csv.next_row();
        }
        if self.taken < u64::from(MOST_RECORDS) {
            if let Some(plain) = plain_row(self.rest) {
                self.last = self.rest;
                self.rest = plain.rest;
                self.taken += 1;
                return Ok(Some(plain.row));
            }
        }
        hand_over(self.alloc, self.last, self.taken, &mut self.csv)
    }
}
