// From the file of a deck to the decks of its parts.
ghost use Rattle.std.specs.Prelude.{◌≡◌, IfErr, IfOk, IsTrue, List, OnErr, OnOk, Option, map, string_bytes, ℕ};
ghost use Rattle.xb_model.specs.Sources.{Rest};
ghost use Rattle.xb_parts.specs.Counts.{counted};
ghost use Rattle.xb_parts.specs.Loads.{records_of};
ghost use Rattle.xb_parts.specs.PartDecks.{GetsDecks};
ghost use Rattle.xb_parts.specs.SplitFaults.{Delivers, HasTable, IsEmpty, IsFaultOf, IsFaultOfFolder, IsFaultOfNumber, Makes, MayBeAsked};
ghost use Rattle.xb_parts.specs.Splits.{AreMade, Begins, IsCounted, IsOpened, IsPlan, IsReady, IsTable, LeavesNone, ListsKept, listed};

use crate::counting::count_rows;
use crate::decks::PartDecks;
use crate::list::{ListedPart, list_of};
use crate::load::Load;
use crate::planning::plan_parts;
use crate::range::LineRange;
use crate::split_fault::{SplitFault, fault_of_routes, fault_of_writing};
use crate::split_files::SplitFiles;
use crate::split_words::SplitRequest;
use crate::writing::write_parts;
use std::alloc::{AllocError, Global};
use std::io::Read;
use xb_deck::{MOST_DECK_BYTES, read_table};
use xb_model::PerLine;
use xb_routes::RouteTable;
use xb_rows::RowReader;

/// The most parts, each of which may hold a file open.
pub const MOST_PARTS: usize = 500;

// The parts of a deck: its table, what each line has, their ranges, and their list.
#[derive(Drop)]
struct Plan {
    table: Vec<u8>,
    loads: PerLine<Load>,
    ranges: Vec<LineRange>,
    list: String,
}

// The table of a deck, and a reader of its rows.
fn open_deck<F: SplitFiles>(
    alloc: Global,
    files: &F,
    big: &str,
) -> Result<(Vec<u8>, RowReader<F::Deck>), SplitFault>
    ensures deck { IfOk result (λ d. IsOpened (F.bytes files.now big.now) d.0.items d.1) }
    ensures fault { (parts : Option ℕ) → IfErr result (IsFaultOf (F.bytes files.now big.now) parts) }
{
    let mut deck = match files.open(alloc, big) {
        Ok(deck) => deck,
        Err(error) => return Err(SplitFault::Deck(error)),
    };
    match read_table(alloc, &mut deck, MOST_DECK_BYTES) {
        Ok(table) => Ok((table, RowReader::new(deck, u64::MAX))),
        Err(fault) => Err(SplitFault::Table(fault)),
    }
}

// Refuses a table that no office takes.
fn check_table(alloc: Global, table: &[u8]) -> Result<(), SplitFault>
    ensures taken { OnOk result (IsTable table.now) }
    ensures fault { (deck : Option (List ℕ)) (parts : Option ℕ) (left : Option Rest)
        → IsOpened deck table.now left → IfErr result (IsFaultOf deck parts) }
{
    let _table = match RouteTable::read(alloc, table) {
        Ok(table) => table,
        Err(fault) => return Err(fault_of_routes(fault)),
    };
    Ok(())
}

// The table of a deck, and what each line has.
fn count<F: SplitFiles>(
    alloc: Global,
    files: &F,
    big: &str,
) -> Result<(Vec<u8>, PerLine<Load>), SplitFault>
    ensures counted { IfOk result (λ c. IsCounted (F.bytes files.now big.now) c.0.items c.1) }
    ensures fault { (parts : Option ℕ) → IfErr result (IsFaultOf (F.bytes files.now big.now) parts) }
{
    let (table, mut rows) = match open_deck(alloc, files, big) {
        Ok(deck) => deck,
        Err(fault) => return Err(fault),
    };
    if let Err(fault) = check_table(alloc, &table) {
        return Err(fault);
    }
    match count_rows(alloc, &mut rows) {
        Ok(loads) => Ok((table, loads)),
        Err(fault) => Err(SplitFault::Rows(fault)),
    }
}

// How many records the lines of a range have.
fn records_in(loads: &PerLine<Load>, lines: LineRange) -> u64
    ensures { result ≡ counted (records_of loads.now lines.first lines.end) }
{
    let mut records = 0u64;
    for (line, load) in loads.iter() {
        if lines.has(line) {
            records = records.saturating_add(load.records);
        }
    }
    records
}

// The parts of ranges, by what each line has.
fn listed_parts(
    alloc: Global,
    loads: &PerLine<Load>,
    ranges: &[LineRange],
) -> Result<Vec<ListedPart>, AllocError>
    ensures { IfOk result (λ parts. parts.items ≡ map (listed loads.now) ranges.now) }
{
    let mut parts = Vec::new(alloc);
    for range in ranges {
        parts.push(ListedPart {
            lines: *range,
            records: records_in(loads, *range),
        })?;
    }
    Ok(parts)
}

// Refuses no parts, and more than there may be.
fn check_parts(parts: Option<u32>) -> Result<(), SplitFault>
    ensures taken { OnOk result (MayBeAsked parts) }
    ensures fault { IfErr result (IsFaultOfNumber parts) }
{
    match parts {
        Some(0) => Err(SplitFault::NoParts),
        Some(parts) if parts as usize > MOST_PARTS => Err(SplitFault::TooMany(parts as usize)),
        _ => Ok(()),
    }
}

// Refuses a folder that has anything in it.
fn check_folder<F: SplitFiles>(alloc: Global, files: &F, folder: &str) -> Result<(), SplitFault>
    ensures taken { OnOk result (IsEmpty (F.filled files.now folder.now)) }
    ensures fault { IfErr result (IsFaultOfFolder (F.filled files.now folder.now)) }
{
    match files.has_any(alloc, folder) {
        Ok(false) => Ok(()),
        Ok(true) => Err(SplitFault::NotEmpty),
        Err(error) => Err(SplitFault::Folder(error)),
    }
}

// The parts of a deck.
fn plan_deck<F: SplitFiles>(
    alloc: Global,
    files: &F,
    big: &str,
    parts: Option<u32>,
) -> Result<Plan, SplitFault>
    ensures plan { let deck = F.bytes files.now big.now in
        IfOk result (λ p.
        IsPlan deck parts p.table.items p.loads p.ranges.items (string_bytes p.list)) }
    ensures fault { IfErr result (IsFaultOf (F.bytes files.now big.now) parts) }
{
    let (table, loads) = match count(alloc, files, big) {
        Ok(counted) => counted,
        Err(fault) => return Err(fault),
    };
    let ranges = match plan_parts(alloc, table.len(), &loads, parts) {
        Ok(ranges) => ranges,
        Err(fault) => return Err(SplitFault::Plan(fault)),
    };
    if ranges.len() > MOST_PARTS {
        return Err(SplitFault::TooMany(ranges.len()));
    }
    let listed = match listed_parts(alloc, &loads, &ranges) {
        Ok(listed) => listed,
        Err(_) => return Err(SplitFault::NoMemory),
    };
    match list_of(alloc, &listed) {
        Ok(list) => Ok(Plan {
            table,
            loads,
            ranges,
            list,
        }),
        Err(_) => Err(SplitFault::NoMemory),
    }
}

// The parts of a deck, and a reader of its rows, which stands at the first again.
fn prepare<F: SplitFiles>(
    alloc: Global,
    files: &F,
    big: &str,
    parts: Option<u32>,
) -> Result<(Plan, RowReader<F::Deck>), SplitFault>
    ensures ready { let deck = F.bytes files.now big.now in
        IfOk result (λ r. IsReady deck parts r.0.table.items r.0.loads r.0.ranges.items
        (string_bytes r.0.list) r.1) }
    ensures fault { IfErr result (IsFaultOf (F.bytes files.now big.now) parts) }
{
    let plan = match plan_deck(alloc, files, big, parts) {
        Ok(plan) => plan,
        Err(fault) => return Err(fault),
    };
    let (table, rows) = match open_deck(alloc, files, big) {
        Ok(deck) => deck,
        Err(fault) => return Err(fault),
    };
    if table.as_slice() == plan.table.as_slice() {
        Ok((plan, rows))
    } else {
        Err(SplitFault::Changed)
    }
}

// Refuses rows of which a line has not what was counted before.
fn check_loads(loads: &PerLine<Load>, counted: &PerLine<Load>) -> Result<(), SplitFault>
    ensures same { OnOk result (loads.now ≡ counted.now) }
    ensures fault { (deck : Option (List ℕ)) (parts : Option ℕ) → IfErr result (IsFaultOf deck parts) }
{
    for (line, load) in loads.iter() {
        if *load != *counted.get(line) {
            return Err(SplitFault::Changed);
        }
    }
    Ok(())
}

// Writes the decks of all parts, and refuses a deck that is another than the one that was counted.
fn fill_parts<R: Read, D: PartDecks>(
    alloc: Global,
    plan: &Plan,
    rows: &mut RowReader<R>,
    parts: &mut D,
) -> Result<(), SplitFault>
    ensures decks { OnOk result (GetsDecks plan.now.table.items rows.old plan.now.ranges.items plan.now.loads
        (D.contents parts.old) (D.contents parts.new)) }
    ensures kept { OnOk result (IsTrue (D.kept parts.new)) }
    ensures fault { (deck : Option (List ℕ)) (wanted : Option ℕ) → HasTable deck
        → IfErr result (IsFaultOf deck wanted) }
{
    match write_parts(alloc, &plan.table, rows, &plan.ranges, parts) {
        Ok(loads) => check_loads(&loads, &plan.loads),
        Err(fault) => Err(fault_of_writing(fault)),
    }
}

// Makes the decks of all parts. On an `Err` none is left, as far as they can be taken away.
fn make_parts<F: SplitFiles>(
    alloc: Global,
    files: &mut F,
    request: &SplitRequest<'_>,
    plan: &Plan,
    rows: &mut RowReader<F::Deck>,
) -> Result<F::Parts, SplitFault>
    ensures made { IfOk result (λ parts. AreMade (F.fresh files.old) (F.Parts.contents parts)
        plan.now.table.items plan.now.loads plan.now.ranges.items rows.old) }
    ensures kept { IfOk result (λ parts. IsTrue (F.Parts.kept parts)) }
    ensures fresh { OnOk result (F.fresh files.new ≡ F.fresh files.old) }
    ensures deck { let big = request.now.big.now in
        OnOk result (F.bytes files.new big ≡ F.bytes files.old big) }
    ensures list { ListsKept (F.listed files.old) (F.listed files.new) }
    ensures begun { let folder = request.now.folder.now in
        OnOk result (Begins folder (F.unfinished files.old) (F.unfinished files.new)) }
    ensures none_left { OnErr result (LeavesNone (F.unfinished files.old) (F.unfinished files.new)) }
    ensures fault { (deck : Option (List ℕ)) (parts : Option ℕ) → HasTable deck
        → IfErr result (IsFaultOf deck parts) }
{
    let mut parts = match files.make(alloc, request, &plan.ranges) {
        Ok(parts) => parts,
        Err(fault) => return Err(SplitFault::Make(fault)),
    };
    match fill_parts(alloc, plan, rows, &mut parts) {
        Ok(()) => Ok(parts),
        Err(fault) => {
            files.give_up(alloc, request, parts);
            Err(fault)
        }
    }
}

// Makes the decks of all parts, and gives them and their list their names.
fn make_and_name<F: SplitFiles>(
    alloc: Global,
    files: &mut F,
    request: &SplitRequest<'_>,
    plan: &Plan,
    rows: &mut RowReader<F::Deck>,
) -> Result<(), SplitFault>
    requires ready { let deck = F.bytes files.old request.now.big.now in
        (parts : Option ℕ) × IsReady deck parts plan.now.table.items plan.now.loads plan.now.ranges.items
        (string_bytes plan.now.list) rows.old }
    ensures made { let deck = F.bytes files.old request.now.big.now in let folder = request.now.folder.now in
        (parts : Option ℕ) → IsReady deck parts plan.now.table.items plan.now.loads plan.now.ranges.items
        (string_bytes plan.now.list) rows.old → Makes deck (F.fresh files.old) parts result
        (F.named files.new folder) (F.listed files.old folder) (F.listed files.new folder) }
    ensures none_left { LeavesNone (F.unfinished files.old) (F.unfinished files.new) }
{
    let parts = match make_parts(alloc, files, request, plan, rows) {
        Ok(parts) => parts,
        Err(fault) => return Err(fault),
    };
    match files.name(alloc, request, parts, &plan.list) {
        Ok(()) => Ok(()),
        Err(error) => Err(SplitFault::Folder(error)),
    }
}

/// Splits the deck in a file by lines: the folder gets the deck of each part, with exactly the rows of its
/// lines, and their list; as few parts as may be, or at most as many as are asked for, as even as the lines
/// allow (more only where no fewer fit). The decks are made under another name, which they lose once all of
/// them are whole, and the list gets its name after that.
///
/// It is `NoParts` or `TooMany` at once where no parts are asked for, or more than `MOST_PARTS`, and `NotEmpty`
/// where the folder has something in it. On an `Err` there is no list, except on `Folder`, where all decks may be
/// whole and have their names; and no decks are left that have none.
pub fn split<F: SplitFiles>(
    alloc: Global,
    files: &mut F,
    request: &SplitRequest,
) -> Result<(), SplitFault>
    ensures split { let deck = F.bytes files.old request.now.big.now in let folder = request.now.folder.now in
        Delivers deck (F.filled files.old folder) (F.fresh files.old) request.now.parts result
        (F.named files.new folder) (F.listed files.old folder) (F.listed files.new folder) }
    ensures none_left { LeavesNone (F.unfinished files.old) (F.unfinished files.new) }
{
    if let Err(fault) = check_parts(request.parts) {
        return Err(fault);
    }
    if let Err(fault) = check_folder(alloc, files, request.folder) {
        return Err(fault);
    }
    match prepare(alloc, files, request.big, request.parts) {
        Ok((plan, mut rows)) => make_and_name(alloc, files, request, &plan, &mut rows),
        Err(fault) => Err(fault),
    }
}
