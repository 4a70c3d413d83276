// From a text on a reader to what is told of it on a writer.
ghost use Rattle.std.specs.Prelude.{◌≡◌, ◌≤◌, Some, length};
ghost use Rattle.xb_deck.specs.declared.deck.TheConstants.{MOST_DECK_BYTES};
ghost use Rattle.xb_check.specs.Reports.{Delivers, refused_by};

use crate::deck_contents::judge;
use crate::fault::CheckFault;
use crate::reporting::report;
use std::alloc::Global;
use std::io::{Read, Write};
use xb_deck::{DeckFault, read_deck};
use xb_model::RowFault;
use xb_text::write_whole;

// What is returned of a text that is refused by this fault.
fn refused_by(fault: DeckFault) -> CheckFault
    ensures { result ≡ refused_by fault }
{
    match fault {
        DeckFault::Rows(RowFault::TooMany) => CheckFault::TooMany,
        fault => CheckFault::Refused(fault),
    }
}

// Writes what is told of a text.
fn tell<W: Write>(
    alloc: Global,
    name: &str,
    all: bool,
    text: &[u8],
    out: &mut W,
) -> Result<(), CheckFault>
    requires { length text.now ≤ MOST_DECK_BYTES }
    ensures { Delivers name.now all (Some text.now) result (W.contents out.old) (W.contents out.new) }
{
    let Ok(said) = judge(alloc, text) else {
        return Err(CheckFault::NoMemory);
    };
    let Ok(lines) = report(alloc, name, all, text, &said) else {
        return Err(CheckFault::NoMemory);
    };
    match (write_whole(out, &lines), said) {
        (Err(_), _) => Err(CheckFault::Write),
        (Ok(()), Ok(_)) => Ok(()),
        (Ok(()), Err(fault)) => Err(refused_by(fault)),
    }
}

/// Reads a deck, or a route table alone, and writes a line for each of its text lines that is wrong, after the name of
/// its file; unless all are asked for, those of the first of each kind, and how many more there are (`told`). It is `Ok`
/// exactly where `mfbank` takes the deck, or `mfroute` the table (`verdict`); `Refused` has the fault by which it is
/// refused, the first in their order, but for that of too many records, which is `TooMany`. Nothing is written before
/// the whole text is read.
///
/// What the contract says of bytes it says of readers whose bytes and writers whose contents are known to
/// contracts (byte slices, lists), which those of a process are not.
pub fn check<R: Read, W: Write>(
    alloc: Global,
    name: &str,
    all: bool,
    deck: &mut R,
    out: &mut W,
) -> Result<(), CheckFault>
    ensures { Delivers name.now all (R.remaining deck.old) result (W.contents out.old) (W.contents out.new) }
{
    let bytes = match read_deck(alloc, deck) {
        Ok(bytes) => bytes,
        Err(DeckFault::Read) => return Err(CheckFault::Read),
        Err(DeckFault::TooLong) => return Err(CheckFault::TooLong),
        Err(_) => return Err(CheckFault::NoMemory),
    };
    tell(alloc, name, all, &bytes, out)
}
