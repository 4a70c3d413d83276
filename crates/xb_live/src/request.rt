// What is asked of a deck.
use crate::entry_text::EntryForm;
use xb_model::LineNo;
use xb_sound::Cadence;

/// What is asked of a deck.
#[derive(Clone, Copy)]
pub enum Request {
    /// Its entries, in this form.
    Entries(EntryForm),
    /// The sound of this line's trunk, whose calls are keyed by this cadence.
    Sound(LineNo, Cadence),
    /// That of the first line, each of whose calls is keyed once a wink of the second one came.
    StartedSound(LineNo, LineNo, Cadence),
}

/// What the words ask for.
#[derive(Clone, Copy, Drop)]
pub struct Asked<'a> {
    /// The file of the deck; without it, or with `-`, the input.
    pub deck: Option<&'a str>,
    /// What is asked of it.
    pub request: Request,
}
