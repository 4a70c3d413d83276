// The rows of a text as `csv` reads it, one at a time.
ghost use Rattle.std.specs.Prelude.{◌≡◌, ℕ, List};
ghost use Rattle.xb_rows.specs.RowTexts.{Fields, rest_of_text};
ghost use Rattle.xb_rows.specs.Plain.{BeginsWith, IsScanAfter};
ghost use Rattle.xb_rows.specs.Scanning.{of_slice};

use crate::place::{Place, place_after, place_resumed};
use crate::scan::MOST_RECORDS;
use crate::steps::{reader_of_records, take_first_row, take_record, take_row};
use csv::{ByteRecord, Reader};
use std::alloc::Global;
use std::marker::Model;
use xb_model::{Row, RowFault, RowSource};

// What a step gives of a slice, which does not fail: so memory ran out.
fn of_slice(step: Result<Option<Row>, RowFault>) -> Result<Option<Row>, RowFault>
    ensures { result ≡ of_slice step }
{
    match step {
        Err(RowFault::Read) => Err(RowFault::NoMemory),
        given => given,
    }
}

// The rows of a text, or of the rest of one, one at a time.
#[derive(Drop)]
pub(crate) struct CsvScan<'a> {
    reader: Reader<&'a [u8]>,
    fields: ByteRecord,
    place: Place,
}

impl<'a> Model for CsvScan<'a> {
    ghost use Rattle.xb_model.specs.Sources.{Rest};
    ghost use Rattle.xb_rows.specs.Scanning.{IsScanning, rest_of_scan};

    ghost Value = { Rest };

    ghost view = { λ s. rest_of_scan s.place s.reader };

    ghost invariant = { λ s. IsScanning s.place s.reader };
}

impl<'a> CsvScan<'a> {
    // A scan of a whole text.
    pub(crate) fn new(alloc: Global, text: &'a [u8]) -> CsvScan<'a>
        ensures { result ≡ rest_of_text text.now }
    {
        CsvScan {
            reader: reader_of_records(alloc, text),
            fields: ByteRecord::new(alloc),
            place: Place::Header,
        }
    }

    // A scan of what follows the first record of a text, after the header and so many records. The first
    // record, which was read before, is read once more, since a reader drops a byte order mark where it
    // begins.
    pub(crate) fn after(alloc: Global, text: &'a [u8], taken: u64) -> CsvScan<'a>
        ensures { (fields : Fields) → (rest : List ℕ) → BeginsWith text.now fields rest
            → IsScanAfter taken rest result }
    {
        let mut reader = reader_of_records(alloc, text);
        let mut fields = ByteRecord::new(alloc);
        let again = take_record(&mut reader, &mut fields);
        let place = place_resumed(taken, &again);
        CsvScan {
            reader,
            fields,
            place,
        }
    }
}

impl<'a> RowSource for CsvScan<'a> {
    ghost rest = { λ s. s };

    // a call would cost as much as what the record's row takes
    #[inline(always)]
    fn next_row(&mut self) -> Result<Option<Row>, RowFault> {
        let most = u64::from(MOST_RECORDS);
        let (taken, step) = match self.place {
            Place::Stopped(None) => return Ok(None),
            Place::Stopped(Some(fault)) => return Err(fault),
            Place::Header => (0, take_first_row(most, &mut self.reader, &mut self.fields)),
            Place::After(taken) => (
                taken,
                take_row(most, taken, &mut self.reader, &mut self.fields),
            ),
        };
        let given = of_slice(step);
        self.place = place_after(taken, &given);
        given
    }
}
