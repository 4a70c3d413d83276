// Where a VCD stands.
ghost use Rattle.std.specs.Prelude.{◌≡◌, ◌≢◌, [], Err, Ok, IfErr, OnOk};
ghost use Rattle.xb_vcd.specs.VcdTexts.{end_says, is_header};

use crate::declaration::VarWords;
use xb_contact::{Level, Refusal};

/// Where a VCD stands.
#[derive(Clone, Copy, Debug, PartialEq, Eq)]
pub enum VcdPlace {
    /// Among the sections of the header.
    Header,
    /// In a section that is passed over; whether the header has ended.
    Passed(bool),
    /// In the timescale, after this number.
    Timescale(Option<u64>),
    /// In the declaration of a wire, after so many words.
    Var(VarWords),
    /// Among the changes.
    Changes,
    /// After the value of a vector.
    AfterVector(Option<Level>),
}

/// Whether a text stands in its header, outside of a section.
pub(crate) fn is_header(place: VcdPlace) -> bool
    ensures { result ≡ is_header place }
{
    match place {
        VcdPlace::Header => true,
        VcdPlace::Passed(_)
        | VcdPlace::Timescale(_)
        | VcdPlace::Var(_)
        | VcdPlace::Changes
        | VcdPlace::AfterVector(_) => false,
    }
}

/// The end of a text that stands there.
pub(crate) fn end_at(place: VcdPlace) -> Result<(), Refusal>
    ensures said { OnOk result (end_says place ≡ Ok []) }
    ensures refused { IfErr result (λ e. end_says place ≡ Err e) }
    ensures memory { IfErr result (λ e. e ≢ Refusal.NoMemory) }
{
    match place {
        VcdPlace::Changes => Ok(()),
        VcdPlace::Header
        | VcdPlace::Passed(_)
        | VcdPlace::Timescale(_)
        | VcdPlace::Var(_)
        | VcdPlace::AfterVector(_) => Err(Refusal::Header),
    }
}
