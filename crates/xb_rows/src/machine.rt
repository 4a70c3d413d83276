// What a byte does in a text of records: the machine of `csv`, as far as its defaults reach.
ghost use Rattle.std.specs.Prelude.{◌≡◌};
ghost use Rattle.csv.specs.Machine.{ends_at_end};
ghost use Rattle.xb_rows.specs.ByteSteps.{IsStep, csv_state};
ghost use Rattle.xb_rows.specs.declared.machine.State.TheVariants as st;

// Where a reader stands in a record.
#[derive(Clone, Copy)]
pub(crate) enum State {
    StartRecord,
    StartField,
    InField,
    InQuoted,
    AfterQuote,
    AfterCr,
}

// What a byte does.
#[derive(Clone, Copy)]
pub(crate) enum Action {
    Skip,
    Copy,
    EndField,
    EndRecord,
}

// A byte of a field that is not between quotes.
fn in_field(byte: u8) -> (State, Action)
    ensures { IsStep result st.InField byte }
{
    match byte {
        b',' => (State::StartField, Action::EndField),
        b'\n' => (State::StartRecord, Action::EndRecord),
        b'\r' => (State::AfterCr, Action::EndRecord),
        _ => (State::InField, Action::Copy),
    }
}

// The first byte of a field.
fn start_field(byte: u8) -> (State, Action)
    ensures { IsStep result st.StartField byte }
{
    if byte == b'"' {
        (State::InQuoted, Action::Skip)
    } else {
        in_field(byte)
    }
}

// A byte before a record.
fn start_record(byte: u8) -> (State, Action)
    ensures { IsStep result st.StartRecord byte }
{
    if byte == b'\n' || byte == b'\r' {
        (State::StartRecord, Action::Skip)
    } else {
        start_field(byte)
    }
}

// The state after a byte, and what the byte does.
#[inline(always)]
pub(crate) fn step(state: State, byte: u8) -> (State, Action)
    ensures { IsStep result state byte }
{
    match state {
        State::StartRecord => start_record(byte),
        State::StartField => start_field(byte),
        State::InField => in_field(byte),
        State::InQuoted => {
            if byte == b'"' {
                (State::AfterQuote, Action::Skip)
            } else {
                (State::InQuoted, Action::Copy)
            }
        }
        State::AfterQuote => {
            if byte == b'"' {
                (State::InQuoted, Action::Copy)
            } else {
                in_field(byte)
            }
        }
        State::AfterCr => {
            if byte == b'\n' {
                (State::StartRecord, Action::Skip)
            } else {
                start_record(byte)
            }
        }
    }
}

// Whether the end of the text ends a record.
pub(crate) fn ends_record(state: State) -> bool
    ensures { result ≡ ends_at_end (csv_state state) }
{
    match state {
        State::StartRecord | State::AfterCr => false,
        _ => true,
    }
}
