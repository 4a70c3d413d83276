// The rows of a stream, one at a time.
ghost use Rattle.std.specs.Prelude.{◌≡◌, option_map};
ghost use Rattle.xb_rows.specs.Scanning.{GivesRead};
ghost use Rattle.xb_rows.specs.Streams.{rest_of_stream};

use crate::kept::Kept;
use crate::place::{Place, place_after};
use crate::record_reader::RecordReader;
use crate::stream_steps::{take_first_row, take_row};
use std::io::Read;
use std::marker::Model;
use xb_model::{Row, RowFault};

/// The rows of a stream of CSV text, one at a time, in flat memory: it holds a buffer of bytes and the first
/// three fields of a record, up to 4,096 bytes of each. A row is returned as soon as the byte that ends its
/// record was read, and what one read gives is enough. The fault of a record comes then too, or sooner: at
/// the comma before a fourth field, and at the 4,097th byte of a field.
///
/// What the contracts say of rows holds for readers whose bytes contracts know (byte slices); those of a
/// process's standard input are not known.
#[derive(Drop)]
pub struct RowReader<R: Read> {
    reader: RecordReader<R>,
    kept: Kept,
    place: Place,
    most: u64,
}

impl<R: Read> Model for RowReader<R> {
    ghost use Rattle.std.specs.Prelude.{Option};
    ghost use Rattle.xb_model.specs.Sources.{Rest};
    ghost use Rattle.xb_rows.specs.Scanning.{rest_at};
    ghost use Rattle.xb_rows.specs.StreamRecords.{stream_left};

    ghost Value = { Option Rest };

    ghost view = { λ r. rest_at r.most r.place (stream_left R.remaining r.reader) };
}

impl<R: Read> RowReader<R> {
    /// A reader of a stream's rows: its first record is the header `line,state,ms`, and each further one,
    /// counted from 1, is a row. `most` is how many may follow the header; with `u64::MAX` no stream has
    /// too many. A record with a field of more than 4,096 bytes among its first three is judged by these,
    /// whatever follows it.
    pub fn new(reader: R, most: u64) -> RowReader<R>
        ensures { result ≡ option_map (rest_of_stream most) (R.remaining reader) }
    {
        RowReader {
            reader: RecordReader::new(reader),
            kept: Kept::new(),
            place: Place::Header,
            most,
        }
    }

    /// The next row, `None` at the end, or the fault that stops the rows: those of `Scan`, `TooMany` at the
    /// record after the last that may follow the header, and `Read` where a read failed, an interrupted one
    /// too. After the end or a fault each call returns it again, and reads nothing.
    pub fn next_row(&mut self) -> Result<Option<Row>, RowFault>
        ensures { GivesRead self.old result self.new }
    {
        let (taken, step) = match self.place {
            Place::Stopped(None) => return Ok(None),
            Place::Stopped(Some(fault)) => return Err(fault),
            Place::Header => (
                0,
                take_first_row(self.most, &mut self.reader, &mut self.kept),
            ),
            Place::After(taken) => {
                (
                    taken,
                    take_row(self.most, taken, &mut self.reader, &mut self.kept),
                )
            }
        };
        self.place = place_after(taken, &step);
        step
    }
}
