// From a deck on a reader to its page on a writer.
ghost use Rattle.std.specs.Prelude.{◌≡◌, ◌≤◌, IfErr, IfOk, None, OnOk, length};
ghost use Rattle.xb_model.specs.Tapes.{tapes_of};
ghost use Rattle.xb_branches.specs.declared.branches.TheConstants.{MOST_BRANCHES};
ghost use Rattle.xb_flow.specs.declared.ends.TheConstants.{GREATEST_CAPACITY};
ghost use Rattle.xb_rows.specs.RowTexts.{fault_of_text, rows_of_text};
ghost use Rattle.xb_deck.specs.declared.deck.TheConstants.{MOST_DECK_BYTES};
ghost use Rattle.xb_deck.specs.Contents.{IsRowsFault, with_rows};
ghost use Rattle.xb_office.specs.DeckPage.{Delivers, IsFaultOfDeck, Reads, page_of_contents, says};

use crate::fault::OfficeFault;
use crate::options::Options;
use std::alloc::Global;
use std::io::{Read, Write};
use std::sync::Wait;
use std::thread::Threads;
use std::time::Clock;
use xb_branches::MOST_BRANCHES;
use xb_deck::{Deck, DeckFault, read_deck};
use xb_flow::{GREATEST_CAPACITY, Gate, NoGate};
use xb_model::RowSource;
use xb_routes::RouteTable;
use xb_rows::Scan;
use xb_run::{BankFault, run};
use xb_tape::{Tapes, page};
use xb_text::write_whole;

// Reads the rows of a text to their stop, and keeps none.
fn read_to_stop(alloc: Global, text: &[u8]) -> Result<(), DeckFault>
    ensures end { OnOk result (fault_of_text text.now ≡ None) }
    ensures fault { IfErr result (IsRowsFault text.now) }
{
    let mut scan = Scan::new(alloc, text);
    while scan.next_row()?.is_some() {}
    Ok(())
}

// The tapes that the rows of a text make. Where a post could not be started, the rows are read all the
// same, since a fault of theirs comes first.
fn tapes_of_text<H: Threads + Wait + Clock + Sync, G: Gate + Sync>(
    rt: &H,
    alloc: Global,
    text: &[u8],
    table: &RouteTable,
    options: Options,
    gate: &G,
) -> Result<Tapes, OfficeFault>
    ensures tapes { let t = table.now in
        IfOk result (λ tapes. tapes ≡ tapes_of t.plan t.limits t.routes (rows_of_text text.now)) }
    ensures end { OnOk result (fault_of_text text.now ≡ None) }
    ensures fault { IfErr result (IsFaultOfDeck
        (page_of_contents (with_rows table.now (rows_of_text text.now) (fault_of_text text.now)))) }
{
    let scan = Scan::new(alloc, text);
    match run(rt, alloc, scan, table, options.senders, options.ring, gate) {
        Ok(tapes) => Ok(tapes),
        Err(BankFault::Rows(fault)) => Err(OfficeFault::Rows(fault)),
        Err(BankFault::NoThread(post)) => {
            read_to_stop(alloc, text)?;
            Err(OfficeFault::Bank(post))
        }
        Err(BankFault::NoMemory) => Err(OfficeFault::NoMemory),
    }
}

// The page of a deck that was read.
#[tactic(auto, unfolding(crate::specs::DeckPage::page_of))]
fn page_of_deck<H: Threads + Wait + Clock + Sync, G: Gate + Sync>(
    rt: &H,
    alloc: Global,
    bytes: &[u8],
    options: Options,
    gate: &G,
) -> Result<Vec<u8>, OfficeFault>
    requires { length bytes.now ≤ MOST_DECK_BYTES }
    ensures page { IfOk result (λ page. says bytes.now ≡ Ok page.items) }
    ensures fault { IfErr result (IsFaultOfDeck (says bytes.now)) }
{
    let deck = Deck::open(bytes)?;
    let table = deck.route_table(alloc)?;
    let tapes = tapes_of_text(rt, alloc, deck.rows, &table, options, gate)?;
    page(alloc, &tapes).map_err(|_| OfficeFault::NoMemory)
}

/// As `operate`, with a gate that each post passes before its turns.
pub fn operate_by<R: Read, W: Write, H: Threads + Wait + Clock + Sync, G: Gate + Sync>(
    rt: &H,
    alloc: Global,
    deck: &mut R,
    out: &mut W,
    options: Options,
    gate: &G,
) -> Result<(), OfficeFault>
    ensures delivers { Delivers (R.remaining deck.old) result (W.contents out.old) (W.contents out.new) }
    ensures reads { Reads result (R.remaining deck.old) (R.remaining deck.new) }
{
    let bytes = read_deck(alloc, deck)?;
    let page = page_of_deck(rt, alloc, &bytes, options, gate)?;
    write_whole(out, &page)?;
    Ok(())
}

/// Reads a deck, and writes its page: the tapes of the lines, as the deck's rows and its table make
/// them, by `run` with 1 to 8 senders and rings of 1 to 1,024 items. The table is read before the
/// rows, and nothing is written before the last row was read. It waits for the posts of `run`.
///
/// On an `Err` nothing was written, except on `Write`, where the beginning of the page was. The reader
/// stands at its end, except on `Read`, `DeckTooLong` and `NoMemory`.
///
/// What the contract says of bytes it says of readers whose bytes and writers whose contents are
/// known to contracts (byte slices, lists), which those of a process are not.
pub fn operate<R: Read, W: Write, H: Threads + Wait + Clock + Sync>(
    rt: &H,
    alloc: Global,
    deck: &mut R,
    out: &mut W,
    senders: usize,
    ring: usize,
) -> Result<(), OfficeFault>
    requires least_senders { 1 ≤ senders }
    requires most_senders { senders ≤ MOST_BRANCHES }
    requires least_ring { 1 ≤ ring }
    requires most_ring { ring ≤ GREATEST_CAPACITY }
    ensures delivers { Delivers (R.remaining deck.old) result (W.contents out.old) (W.contents out.new) }
    ensures reads { Reads result (R.remaining deck.old) (R.remaining deck.new) }
{
    operate_by(rt, alloc, deck, out, Options { senders, ring }, &NoGate)
}
