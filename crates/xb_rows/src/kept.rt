// What is kept of a record: its first three fields.
ghost use Rattle.std.specs.Prelude.{◌≡◌, option_map};
ghost use Rattle.xb_rows.specs.Kept.{kept_fields};

use crate::record::ThreeFields;
use arrayvec::ArrayVec;

/// The most bytes of a field that is waited for: a longer one is no field of a row, which is told as soon as
/// its next byte was read.
pub(crate) const MOST_FIELD_BYTES: usize = 4_096;

// The bytes of a field.
pub(crate) type Field = ArrayVec<u8, MOST_FIELD_BYTES>;

// The fields by which a record is judged.
#[derive(Drop)]
pub(crate) struct Kept {
    pub(crate) line: Field,
    pub(crate) contact: Field,
    pub(crate) ms: Field,
    // whether the record is judged by these three; else it has not three
    pub(crate) are_three: bool,
}

impl Kept {
    pub(crate) fn new() -> Kept {
        Kept {
            line: ArrayVec::new(),
            contact: ArrayVec::new(),
            ms: ArrayVec::new(),
            are_three: false,
        }
    }

    // The three fields, where there are three: line, state, ms.
    pub(crate) fn three_fields(&self) -> Option<ThreeFields<'_>>
        ensures { option_map (λ t. (t.0.now, t.1.now, t.2.now)) result ≡ kept_fields self.now }
    {
        if self.are_three {
            Some((
                self.line.as_slice(),
                self.contact.as_slice(),
                self.ms.as_slice(),
            ))
        } else {
            None
        }
    }
}
