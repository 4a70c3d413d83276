// The records of a stream, of each of which it keeps what a row may need.
ghost use Rattle.std.specs.Prelude.{◌≡◌, map, option_map};
ghost use Rattle.csv.specs.Reading.{strip_bom};
ghost use Rattle.csv.specs.declared.parser.State.TheVariants.{StartRecord};
ghost use Rattle.xb_rows.specs.Kept.{kept_fields};
ghost use Rattle.xb_rows.specs.Scanning.{records_of_bytes};
ghost use Rattle.xb_rows.specs.StreamRecords.{TakesJudged, stream_left};
ghost use Rattle.xb_rows.specs.Streams.{shown};

use crate::fields::{FieldEnd, take_field};
use crate::kept::Kept;
use crate::machine::State;
use crate::stream_bytes::StreamBytes;
use std::io::Read;
use xb_model::RowFault;

// A reader of records, in flat memory.
#[derive(Drop)]
pub(crate) struct RecordReader<R: Read> {
    bytes: StreamBytes<R>,
    state: State,
}

impl<R: Read> RecordReader<R> {
    // A reader of all records of a stream.
    pub(crate) fn new(reader: R) -> RecordReader<R>
        ensures { stream_left R.remaining result ≡ option_map (map shown)
            (records_of_bytes StartRecord (option_map strip_bom (R.remaining reader))) }
    {
        RecordReader {
            bytes: StreamBytes::new(reader),
            state: State::StartRecord,
        }
    }

    // Reads the next record as far as it takes to judge it, and says whether there was one. One that was not
    // read to its end can be no row; the reader then stands inside it.
    pub(crate) fn take_record(&mut self, kept: &mut Kept) -> Result<bool, RowFault>
        ensures { TakesJudged (stream_left R.remaining self.old) (stream_left R.remaining self.new)
            (kept_fields kept.new) result }
    {
        kept.contact.clear();
        kept.ms.clear();
        kept.are_three = false;
        match take_field(&mut self.bytes, &mut self.state, &mut kept.line)? {
            FieldEnd::Nowhere => return Ok(false),
            FieldEnd::Comma => {}
            FieldEnd::Record => return Ok(true),
            FieldEnd::Long => {
                kept.are_three = true;
                return Ok(true);
            }
        }
        match take_field(&mut self.bytes, &mut self.state, &mut kept.contact)? {
            FieldEnd::Comma => {}
            FieldEnd::Long => {
                kept.are_three = true;
                return Ok(true);
            }
            _ => return Ok(true),
        }
        let end = take_field(&mut self.bytes, &mut self.state, &mut kept.ms)?;
        kept.are_three = end.is_last();
        Ok(true)
    }
}
