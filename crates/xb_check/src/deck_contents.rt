// What a text has in it, read by the calls that `mfbank` makes.
ghost use Rattle.std.specs.Prelude.{◌≡◌, ◌≤◌, IfErr, IfOk, Ok, length};
ghost use Rattle.xb_deck.specs.declared.deck.TheConstants.{MOST_DECK_BYTES};
ghost use Rattle.xb_deck.specs.Contents.{IsDeckFault, IsRowsFault, contents_of};
ghost use Rattle.xb_rows.specs.RowResults.{AreRowsOf};
ghost use Rattle.xb_rows.specs.declared.scan.TheConstants.{MOST_RECORDS};
ghost use Rattle.xb_check.specs.Judged.{IsFaultSaid, IsVerdict, judged, judged_alone};

use crate::table_alone::is_table;
use std::alloc::{AllocError, Global};
use std::marker::Model;
use xb_deck::{Deck, DeckFault};
use xb_model::{Limits, Row};
use xb_routes::RouteTable;
use xb_rows::rows_of_text;

/// The route table and the rows of a deck.
#[derive(Drop)]
pub(crate) struct Contents {
    table: RouteTable,
    rows: Vec<Row>,
}

impl Model for Contents {
    ghost use Rattle.std.specs.Prelude.{◌≤◌, length};
    ghost use Rattle.xb_deck.specs.Contents.{Contents};
    ghost use Rattle.xb_rows.specs.declared.scan.TheConstants.{MOST_RECORDS};

    ghost Value = { Contents };

    ghost view = { λ c. record { table = c.table; rows = c.rows.items } };

    ghost invariant = { λ c. length c.rows.items ≤ MOST_RECORDS };
}

impl Contents {
    ghost use Rattle.std.specs.Prelude.{◌≡◌, ◌<◌, ◌^◌, length};

    /// The limits by which the pulses of the deck are judged.
    pub(crate) fn limits(&self) -> Limits
        ensures { result ≡ self.now.table.limits }
    {
        self.table.limits()
    }

    /// The rows of the deck.
    pub(crate) fn rows(&self) -> &[Row]
        ensures all { result.now ≡ self.now.rows }
        ensures few { length result.now < 2 ^ 32 }
    {
        &self.rows
    }
}

// The rows of a text.
fn rows_of(alloc: Global, text: &[u8]) -> Result<Vec<Row>, DeckFault>
    ensures rows { IfOk result (λ rows. AreRowsOf text.now rows.items) }
    ensures few { IfOk result (λ rows. length rows.items ≤ MOST_RECORDS) }
    ensures fault { IfErr result (λ f. IsRowsFault text.now f) }
{
    Ok(rows_of_text(alloc, text)?)
}

// Reads all that a deck has in it.
fn read_contents(alloc: Global, deck: &[u8]) -> Result<Contents, DeckFault>
    requires { length deck.now ≤ MOST_DECK_BYTES }
    ensures taken { IfOk result (λ contents. contents_of deck.now ≡ Ok contents) }
    ensures fault { IfErr result (IsDeckFault (contents_of deck.now)) }
{
    let parts = Deck::open(deck)?;
    let table = parts.route_table(alloc)?;
    let rows = rows_of(alloc, parts.rows)?;
    Ok(Contents { table, rows })
}

// Reads a text that no line cuts.
fn read_alone(alloc: Global, text: &[u8]) -> Result<Option<Contents>, DeckFault>
    ensures taken { IfOk result (λ contents. judged_alone text.now ≡ Ok contents) }
    ensures fault { IfErr result (IsFaultSaid (judged_alone text.now)) }
{
    match is_table(alloc, text) {
        Ok(true) => {
            RouteTable::read(alloc, text)?;
            Ok(None)
        }
        Ok(false) => Err(DeckFault::NoCut),
        Err(_) => Err(DeckFault::NoMemory),
    }
}

// Reads a text, as a deck or as a route table alone.
fn read_text(alloc: Global, text: &[u8]) -> Result<Option<Contents>, DeckFault>
    requires { length text.now ≤ MOST_DECK_BYTES }
    ensures taken { IfOk result (λ contents. judged text.now ≡ Ok contents) }
    ensures fault { IfErr result (IsFaultSaid (judged text.now)) }
{
    match read_contents(alloc, text) {
        Ok(contents) => Ok(Some(contents)),
        Err(DeckFault::NoCut) => read_alone(alloc, text),
        Err(fault) => Err(fault),
    }
}

/// What a deck has in it, nothing of a route table alone, or the fault by which the text is refused, its first.
pub(crate) fn judge(
    alloc: Global,
    text: &[u8],
) -> Result<Result<Option<Contents>, DeckFault>, AllocError>
    requires { length text.now ≤ MOST_DECK_BYTES }
    ensures { IfOk result (λ said. said ≡ judged text.now) }
{
    match read_text(alloc, text) {
        Ok(contents) => Ok(Ok(contents)),
        Err(DeckFault::NoMemory) => Err(AllocError),
        Err(fault) => Ok(Err(fault)),
    }
}

/// The first fault of a deck, by which `mfbank` refuses it, or of a route table alone, by which `mfroute` does; `None`
/// where the text is taken. A text that no line `---` cuts is a route table where a text line of it is a
/// heading or gives a bare key a value, and none begins with `---` or as the header does.
pub fn verdict(alloc: Global, text: &[u8]) -> Result<Option<DeckFault>, AllocError>
    requires { length text.now ≤ MOST_DECK_BYTES }
    ensures { IfOk result (IsVerdict text.now) }
{
    match judge(alloc, text)? {
        Ok(_) => Ok(None),
        Err(fault) => Ok(Some(fault)),
    }
}
