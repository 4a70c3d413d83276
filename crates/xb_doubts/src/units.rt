// Times of a deck that look as if they were of another unit than ms.
ghost use Rattle.std.specs.Prelude.{◌≡◌, ◌<◌, ◌/◌, ◌^◌, IfOk, count_by, length};
ghost use Rattle.std.specs.List.{list_all, list_any};
ghost use Rattle.xb_doubts.specs.Heard.{IsHeard};
ghost use Rattle.xb_doubts.specs.Parts.{row_part, rows_in_parts};
ghost use Rattle.xb_doubts.specs.Units.{are_seconds, are_thousandfold, dial_in_parts, is_break, is_thousandfold, is_timeless, wrong_unit};

use crate::heard::{Heard, heard_in};
use std::alloc::{AllocError, Global};
use xb_model::{Contact, Limits, Row};

/// A unit of time.
#[derive(Clone, Copy, Debug, PartialEq, Eq)]
pub enum Unit {
    /// Seconds: the times that are said are a thousandth of those in ms.
    Seconds,
    /// Microseconds: they are a thousand times those in ms.
    Microseconds,
    /// Nanoseconds: they are a million times those in ms.
    Nanoseconds,
}

// So many breaks have to be there before it is said of times that no digit is dialled by them.
const LEAST_BREAKS: usize = 10;

// Whether a row is a break.
fn is_break(row: Row) -> bool
    ensures { result ≡ is_break row }
{
    row.contact() == Contact::Brk
}

// How many rows are breaks.
fn count_breaks(rows: &[Row]) -> usize
    ensures { result ≡ count_by is_break rows.now }
{
    let mut count = 0;
    for row in rows {
        if is_break(*row) {
            count += 1;
        }
    }
    count
}

// Whether one is.
fn has_break(rows: &[Row]) -> bool
    ensures { result ≡ list_any is_break rows.now }
{
    for row in rows {
        if is_break(*row) {
            return true;
        }
    }
    false
}

// Whether a row, if it is a break, has 0 ms.
fn is_timeless(row: Row) -> bool
    ensures { result ≡ is_timeless row }
{
    match row.contact() {
        Contact::Brk => row.ms() == 0,
        Contact::Make | Contact::Close => true,
    }
}

// Whether all breaks do.
fn are_timeless(rows: &[Row]) -> bool
    ensures { result ≡ list_all is_timeless rows.now }
{
    for row in rows {
        if !is_timeless(*row) {
            return false;
        }
    }
    true
}

// Whether a row is long enough to be of a pulse if it were told in microseconds.
fn is_thousandfold(limits: Limits, row: Row) -> bool
    ensures { result ≡ is_thousandfold limits row }
{
    match row.contact() {
        Contact::Make => row.ms() / 1000 >= limits.make_min,
        Contact::Brk => row.ms() / 1000 >= limits.pulse_min,
        Contact::Close => true,
    }
}

// Whether all rows are.
fn all_thousandfold(limits: Limits, rows: &[Row]) -> bool
    ensures { result ≡ list_all (is_thousandfold limits) rows.now }
{
    for row in rows {
        if !is_thousandfold(limits, *row) {
            return false;
        }
    }
    true
}

// Whether they are, and many of them breaks.
fn are_thousandfold(limits: Limits, rows: &[Row]) -> bool
    ensures { result ≡ are_thousandfold limits rows.now }
{
    LEAST_BREAKS <= count_breaks(rows) && all_thousandfold(limits, rows)
}

// Whether the times look like seconds, where this is heard.
fn are_seconds(limits: Limits, heard: Heard, rows: &[Row]) -> bool
    requires { IsHeard limits rows.now heard }
    ensures { result ≡ are_seconds limits rows.now }
{
    has_break(rows) && (are_timeless(rows) || !heard.has_room)
}

// A row of one of so many parts of its time.
fn row_part(parts: u32, row: Row) -> Row
    requires { 0 < parts }
    ensures { result ≡ row_part parts row }
{
    match Row::new(row.line(), row.contact(), row.ms() / parts) {
        Some(part) => part,
        None => row,
    }
}

// Rows of one of so many parts of their time.
fn rows_in_parts(alloc: Global, parts: u32, rows: &[Row]) -> Result<Vec<Row>, AllocError>
    requires { 0 < parts }
    ensures { IfOk result (λ others. others.items ≡ rows_in_parts parts rows.now) }
{
    let mut others = Vec::new(alloc);
    for row in rows {
        others.push(row_part(parts, *row))?;
    }
    Ok(others)
}

// Whether no digit but spoiled ones is dialled, where this is heard, and in so many parts of the times one is.
fn dial_in_parts(
    alloc: Global,
    limits: Limits,
    heard: Heard,
    parts: u32,
    rows: &[Row],
) -> Result<bool, AllocError>
    requires some { 0 < parts }
    requires few { length rows.now < 2 ^ 32 }
    requires heard { IsHeard limits rows.now heard }
    ensures { IfOk result (λ is. is ≡ dial_in_parts limits parts rows.now) }
{
    if heard.counted.dials_whole {
        return Ok(false);
    }
    let others = rows_in_parts(alloc, parts, rows)?;
    Ok(heard_in(alloc, limits, &others)?.counted.dials)
}

/// Of which other unit the times of a deck look, if they do, where this is heard in its rows.
pub(crate) fn wrong_unit(
    alloc: Global,
    limits: Limits,
    heard: Heard,
    rows: &[Row],
) -> Result<Option<Unit>, AllocError>
    requires few { length rows.now < 2 ^ 32 }
    requires heard { IsHeard limits rows.now heard }
    ensures { IfOk result (λ unit. unit ≡ wrong_unit limits rows.now) }
{
    if are_seconds(limits, heard, rows) {
        return Ok(Some(Unit::Seconds));
    }
    if dial_in_parts(alloc, limits, heard, 1_000_000, rows)? {
        return Ok(Some(Unit::Nanoseconds));
    }
    if dial_in_parts(alloc, limits, heard, 1_000, rows)? {
        return Ok(Some(Unit::Microseconds));
    }
    if are_thousandfold(limits, rows) {
        return Ok(Some(Unit::Microseconds));
    }
    Ok(None)
}
