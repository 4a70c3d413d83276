// Which lines go into which part.
ghost use Rattle.std.specs.Prelude.{◌≡◌, ◌≤◌, ◌<◌, ◌^◌, IfOk, IfErr, length, ◌+◌, ◌↔◌, ℕ, IsTrue, MatchOption};
ghost use Rattle.std.specs.List.{All};
ghost use Rattle.xb_model.specs.declared.line.TheConstants.{LINES};
ghost use Rattle.xb_parts.specs.PlanFaults.{IsPlanFault};
ghost use Rattle.xb_parts.specs.Ranges.{CoverAll};
ghost use Rattle.xb_parts.specs.Loads.{Fits, IsFull};
ghost use Rattle.xb_deck.specs.declared.deck.TheConstants.{MOST_DECK_BYTES};
ghost use Rattle.xb_parts.specs.Plans.{AreAsked, AreEnough, FitDecks, IsLeast, IsPlanPartsFault, IsRoom, IsWanted};

use crate::load::Load;
use crate::range::LineRange;
use std::alloc::{AllocError, AllocFailed, Global};
use std::fmt;
use thiserror::Error;
use xb_deck::MOST_DECK_BYTES;
use xb_model::{LINES, LineNo, PerLine};
use xb_rows::MOST_RECORDS;

/// Why there is no plan.
#[derive(Clone, Copy, Debug, PartialEq, Eq, Error)]
pub enum PlanFault {
    /// This line alone has more than a part may have.
    Line(LineNo),
    /// Memory ran out.
    NoMemory,
}

impl fmt::Display for PlanFault {
    ghost use Rattle.std.specs.Prelude.{Some};
    ghost use Rattle.xb_parts.specs.FaultTexts.{plan_text};

    ghost output = { λ fault. Some (plan_text fault) };

    fn fmt<W: fmt::Write>(&self, f: &mut fmt::Formatter<W>) -> fmt::Result {
        match self {
            PlanFault::Line(line) => write!(f, "line {} has more than a part may have", line.get()),
            PlanFault::NoMemory => f.write_str("out of memory"),
        }
    }
}

impl From<AllocFailed<LineRange>> for PlanFault {
    ghost use Rattle.std.specs.Prelude.{◌≡◌};
    ghost use Rattle.xb_parts.specs.declared.planning.PlanFault.TheVariants.{NoMemory};

    ghost from_gives = { λ _ fault. fault ≡ NoMemory };

    fn from(_error: AllocFailed<LineRange>) -> PlanFault {
        PlanFault::NoMemory
    }
}

/// Ranges of lines that take all lines, each with no more than `most`. A range ends before the line
/// with which it would have more. `Err` names a line that has more than `most` by itself, or says
/// that memory ran out.
pub fn plan_ranges(
    alloc: Global,
    loads: &PerLine<Load>,
    most: Load,
) -> Result<Vec<LineRange>, PlanFault>
    requires records { most.records < 2 ^ 63 }
    requires bytes { most.bytes < 2 ^ 63 }
    ensures cover { IfOk result (λ ranges. CoverAll ranges.items) }
    ensures fit { IfOk result (λ ranges. All (Fits loads.now most) ranges.items) }
    ensures full { IfOk result (λ ranges. All (IsFull loads.now most) ranges.items) }
    ensures too_much { IfErr result (IsPlanFault loads.now most) }
    ensures lines { length loads.now ≡ LINES }
{
    let mut ranges = Vec::new(alloc);
    let mut first = 0;
    let mut load = Load::default();
    for (line, here) in loads.iter() {
        if !here.is_within(most) {
            return Err(PlanFault::Line(line));
        }
        let more = load.with(*here);
        if line.get() == first || more.is_within(most) {
            load = more;
        } else {
            ranges.push(LineRange {
                first,
                end: line.get(),
            })?;
            first = line.get();
            load = *here;
        }
    }
    ranges.push(LineRange { first, end: LINES })?;
    Ok(ranges)
}

/// What stands between the table of a deck and its first record.
pub const HEAD: &[u8] = b"---\nline,state,ms\n";

// How many bytes that are.
const HEAD_BYTES: usize = 18;

/// Why there are no parts.
#[derive(Clone, Copy, Debug, PartialEq, Eq, Error)]
pub enum PlanPartsFault {
    /// The table leaves no room for records.
    Table,
    /// There is no plan.
    Plan(PlanFault),
}

impl fmt::Display for PlanPartsFault {
    ghost use Rattle.std.specs.Prelude.{Some};
    ghost use Rattle.xb_parts.specs.FaultTexts.{plan_parts_text};

    ghost output = { λ fault. Some (plan_parts_text fault) };

    fn fmt<W: fmt::Write>(&self, f: &mut fmt::Formatter<W>) -> fmt::Result {
        match self {
            PlanPartsFault::Table => f.write_str("the route table is too long"),
            PlanPartsFault::Plan(fault) => write!(f, "{fault}"),
        }
    }
}

// What the records of a part may have after a table of so many bytes.
fn most_after(table: usize) -> Option<Load>
    ensures { MatchOption result (MOST_DECK_BYTES < table + 18) (IsRoom table) }
{
    let bytes = MOST_DECK_BYTES.checked_sub(HEAD_BYTES)?.checked_sub(table)?;
    Some(Load {
        records: u64::from(MOST_RECORDS),
        bytes: bytes as u64,
    })
}

// Whether so many ranges, or fewer, are enough for all lines, if each has no more than `most`.
fn are_enough(
    alloc: Global,
    loads: &PerLine<Load>,
    parts: u32,
    most: Load,
) -> Result<bool, PlanFault>
    requires records { most.records < 2 ^ 63 }
    requires bytes { most.bytes < 2 ^ 63 }
    ensures enough { IfOk result (λ enough. IsTrue enough ↔ AreEnough parts loads.now most) }
    ensures fault { IfErr result (λ f. f ≡ PlanFault.NoMemory) }
{
    match plan_ranges(alloc, loads, most) {
        Ok(ranges) => Ok(ranges.len() <= parts as usize),
        Err(PlanFault::Line(_)) => Ok(false),
        Err(PlanFault::NoMemory) => Err(PlanFault::NoMemory),
    }
}

// The fewest records for which so many ranges are enough, found by halving; or `most`, where they are not
// enough for fewer.
fn least_most(
    alloc: Global,
    loads: &PerLine<Load>,
    parts: u32,
    most: Load,
) -> Result<Load, PlanFault>
    requires records { most.records < 2 ^ 63 }
    requires bytes { most.bytes < 2 ^ 63 }
    ensures least { IfOk result (IsLeast parts loads.now most) }
    ensures fault { IfErr result (λ f. f ≡ PlanFault.NoMemory) }
{
    let bytes = most.bytes;
    let mut low = 0;
    let mut high = most.records;
    while low < high {
        let records = low + (high - low) / 2;
        if are_enough(alloc, loads, parts, Load { records, bytes })? {
            high = records;
        } else {
            low = records + 1;
        }
    }
    Ok(Load {
        records: high,
        bytes,
    })
}

// What the parts that are asked for are to have at most, of which each may have `most`.
fn wanted_most(
    alloc: Global,
    loads: &PerLine<Load>,
    parts: Option<u32>,
    most: Load,
) -> Result<Load, PlanFault>
    requires records { most.records < 2 ^ 63 }
    requires bytes { most.bytes < 2 ^ 63 }
    ensures wanted { IfOk result (IsWanted parts loads.now most) }
    ensures fault { IfErr result (λ f. f ≡ PlanFault.NoMemory) }
{
    match parts {
        Some(parts) => least_most(alloc, loads, parts, most),
        None => Ok(most),
    }
}

// The ranges that are asked for, with a table of so many bytes after which `most` is left.
fn ranges_within(
    alloc: Global,
    loads: &PerLine<Load>,
    parts: Option<u32>,
    most: Load,
) -> Result<Vec<LineRange>, PlanFault>
    requires room { (table : ℕ) × IsRoom table most }
    ensures cover { IfOk result (λ ranges. CoverAll ranges.items) }
    ensures fit { (table : ℕ) → IsRoom table most → IfOk result (λ ranges.
        FitDecks table loads.now ranges.items) }
    ensures asked { (table : ℕ) → IsRoom table most → IfOk result (λ ranges.
        AreAsked parts table loads.now ranges.items) }
    ensures fault { IfErr result (IsPlanFault loads.now most) }
{
    let wanted = wanted_most(alloc, loads, parts, most)?;
    plan_ranges(alloc, loads, wanted)
}

/// The ranges of the parts of a deck, by what each line has: the fewest, or, where so many are asked for, at
/// most so many, whose greatest has as few records as that many parts allow; there are more only where no
/// fewer fit. The deck of each, with a table of so many bytes, is one that an office takes. `Err` says that
/// the table leaves no room, names a line that has more than a part may have, or says that memory ran out.
pub fn plan_parts(
    alloc: Global,
    table: usize,
    loads: &PerLine<Load>,
    parts: Option<u32>,
) -> Result<Vec<LineRange>, PlanPartsFault>
    ensures cover { IfOk result (λ ranges. CoverAll ranges.items) }
    ensures fit { IfOk result (λ ranges. FitDecks table loads.now ranges.items) }
    ensures asked { IfOk result (λ ranges. AreAsked parts table loads.now ranges.items) }
    ensures fault { IfErr result (IsPlanPartsFault table loads.now) }
{
    let most = match most_after(table) {
        Some(most) => most,
        None => return Err(PlanPartsFault::Table),
    };
    match ranges_within(alloc, loads, parts, most) {
        Ok(ranges) => Ok(ranges),
        Err(fault) => Err(PlanPartsFault::Plan(fault)),
    }
}
