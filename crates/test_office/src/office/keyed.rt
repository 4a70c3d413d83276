// The worked examples, however many senders and however small the rings.
ghost use Rattle.std.specs.Prelude.{◌≤◌};

use crate::office::office::operate_on;
use std::alloc::Global;
use std::process::Abort;
use std::sync::Wait;
use std::test::Fail;
use std::thread::Threads;
use std::time::Clock;
use test_kit::attempts::{SHEETS, TWO_LINES_IN_TURN};
use test_kit::decks::{TABLE, Worked, check_page, deck_of, joined, one_after_another, two_in_turn};
use xb_model::Row;
use xb_ring::{GREATEST_CAPACITY, MOST_BRANCHES};

// The deck gives the page.
fn check_deck<R: Threads + Wait + Clock + Abort + Sync>(
    rt: &R,
    alloc: Global,
    deck: &str,
    worked: &Worked,
    senders: usize,
    ring: usize,
) -> Result<(), Fail>
    requires senders { (1 ≤ senders) × (senders ≤ MOST_BRANCHES) }
    requires ring { (1 ≤ ring) × (ring ≤ GREATEST_CAPACITY) }
{
    let mut reader = deck.as_bytes();
    let mut page: Vec<u8> = Vec::new(alloc);
    operate_on(rt, alloc, &mut reader, &mut page, senders, ring)?;
    let name = format!(in alloc; "{}, {senders} senders", worked.name)?;
    check_page(alloc, &name, &page, worked.page)
}

fn check_rows<R: Threads + Wait + Clock + Abort + Sync>(
    rt: &R,
    alloc: Global,
    table: &str,
    rows: &[Row],
    worked: &Worked,
) -> Result<(), Fail> {
    let deck = deck_of(alloc, table, rows)?;
    check_deck(rt, alloc, deck.as_str(), worked, 1, 1)?;
    check_deck(rt, alloc, deck.as_str(), worked, 3, 2)?;
    check_deck(rt, alloc, deck.as_str(), worked, 8, 1_024)
}

fn check_worked<R: Threads + Wait + Clock + Abort + Sync>(
    rt: &R,
    alloc: Global,
    table: &str,
    worked: &Worked,
) -> Result<(), Fail> {
    let rows = one_after_another(alloc, worked)?;
    check_rows(rt, alloc, table, &rows, worked)
}

// What lines do under one table.
fn check_sheet<R: Threads + Wait + Clock + Abort + Sync>(
    rt: &R,
    alloc: Global,
    parts: &[&str],
    attempts: &[Worked],
) -> Result<(), Fail> {
    let table = joined(alloc, parts)?;
    for worked in attempts {
        check_worked(rt, alloc, table.as_str(), worked)?;
    }
    Ok(())
}

// Two lines that call at the same time.
fn check_in_turn<R: Threads + Wait + Clock + Abort + Sync>(
    rt: &R,
    alloc: Global,
) -> Result<(), Fail> {
    let rows = two_in_turn(alloc, &TWO_LINES_IN_TURN)?;
    check_rows(rt, alloc, TABLE, &rows, &TWO_LINES_IN_TURN)
}

#[test]
fn same_bytes_everywhere(rt: HostRuntime) -> Result<(), Fail> {
    for (parts, attempts) in SHEETS {
        check_sheet(&rt, rt.alloc(), parts, attempts)?;
    }
    check_in_turn(&rt, rt.alloc())
}
