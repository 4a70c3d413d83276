// The fields of a record, read of a stream one at a time.
ghost use Rattle.std.specs.Prelude.{◌≡◌, IfErr, IfOk};
ghost use Rattle.xb_model.specs.declared.fault.RowFault.TheVariants as fault;
ghost use Rattle.xb_rows.specs.StreamBytes.{bytes_left};
ghost use Rattle.xb_rows.specs.TakenFields.{is_last, TakesField, WhereKnown};

use crate::kept::Field;
use crate::machine::{Action, State, ends_record, step};
use crate::stream_bytes::StreamBytes;
use std::io::Read;
use xb_model::RowFault;

// How a field ended.
#[derive(Clone, Copy)]
pub(crate) enum FieldEnd {
    // There is none, since no record is left.
    Nowhere,
    // At the comma before another field.
    Comma,
    // With its record.
    Record,
    // Not yet, but it is long.
    Long,
}

impl FieldEnd {
    // Whether the record is judged by the fields up to this one, since none is known to follow.
    pub(crate) fn is_last(self) -> bool
        ensures { result ≡ is_last self }
    {
        match self {
            FieldEnd::Comma => false,
            _ => true,
        }
    }
}

// Reads a field, which is left empty where it is long.
pub(crate) fn take_field<R: Read>(
    bytes: &mut StreamBytes<R>,
    state: &mut State,
    field: &mut Field,
) -> Result<FieldEnd, RowFault>
    ensures fault { IfErr result (λ f. f ≡ fault.Read) }
    ensures field { IfOk result (λ end. WhereKnown (bytes_left R.remaining bytes.old)
        (bytes_left R.remaining bytes.new)
        (λ text rest. TakesField state.old state.new field.new.items end text rest)) }
{
    field.clear();
    'bytes: for _ in 0..u64::MAX {
        let Some(byte) = bytes.next_byte()? else {
            if !ends_record(*state) {
                return Ok(FieldEnd::Nowhere);
            }
            *state = State::StartRecord;
            return Ok(FieldEnd::Record);
        };
        let (next, action) = step(*state, byte);
        *state = next;
        match action {
            Action::Skip => {}
            Action::Copy => {
                if field.is_full() {
                    field.clear();
                    return Ok(FieldEnd::Long);
                }
                field.push(byte);
            }
            Action::EndField => return Ok(FieldEnd::Comma),
            Action::EndRecord => return Ok(FieldEnd::Record),
        }
    }
    Err(RowFault::Read)
}
