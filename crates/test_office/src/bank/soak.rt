// Random decks on threads, beside the chain on one thread.
ghost use Rattle.std.specs.Prelude.{◌≤◌};

use crate::bank::calls::{run_on, usual_table};
use std::alloc::Global;
use std::process::Abort;
use std::sync::Wait;
use std::test::Fail;
use std::thread::Threads;
use std::time::Clock;
use test_kit::Dice;
use test_kit::pulses::{push_row, push_train};
use xb_model::{Contact, LineNo, Listed, Row};
use xb_ring::{GREATEST_CAPACITY, MOST_BRANCHES, NoGate};
use xb_routes::RouteTable;
use xb_serial::key_serial;
use xb_tape::Tapes;

/// How many decks are tried.
const DECKS: u64 = 200;

/// How many lines a deck has at most.
const LINES: u16 = 5;

/// The rooms of the rings that are tried.
const RINGS: [usize; 4] = [1, 2, 3, 64];

// A little of what a line may do: seize, dial a digit, hang up, be left off the hook, be closed, or
// bounce.
fn push_random(rows: &mut Vec<Row>, line: LineNo, dice: &mut Dice) -> Result<(), Fail> {
    match dice.throw(16) {
        0..=3 => push_row(rows, line, Contact::Make, 500),
        4..=6 => push_train(rows, line, 10, 600),
        7 => push_train(rows, line, 4, 600),
        8 | 9 => push_train(rows, line, 1, 600),
        10 => push_train(rows, line, 1 + dice.throw(12) as u32, 600),
        11..=13 => push_row(rows, line, Contact::Brk, 400),
        14 => push_row(rows, line, Contact::Make, 20_000),
        _ if dice.throw(8) == 0 => push_row(rows, line, Contact::Close, 0),
        _ => push_row(rows, line, Contact::Brk, dice.throw(130) as u32),
    }
}

fn random_rows(alloc: Global, dice: &mut Dice) -> Result<Vec<Row>, Fail> {
    let mut rows = Vec::new(alloc);
    for _piece in 0..40 + dice.throw(40) {
        let line = LineNo::new(dice.throw(u64::from(LINES)) as u16).ok_or("a line")?;
        push_random(&mut rows, line, dice)?;
    }
    Ok(rows)
}

// Whether the lines that a deck may have, and one more, have the same marks.
fn are_same(tapes: &Tapes, others: &Tapes) -> bool {
    for number in 0..=LINES {
        if let Some(line) = LineNo::new(number) {
            if tapes.marks(line) != others.marks(line) {
                return false;
            }
        }
    }
    true
}

fn check_rows<R: Threads + Wait + Clock + Abort + Sync>(
    rt: &R,
    alloc: Global,
    table: &RouteTable,
    rows: &[Row],
    senders: usize,
    ring: usize,
) -> Result<(), Fail>
    requires senders { (1 ≤ senders) × (senders ≤ MOST_BRANCHES) }
    requires ring { (1 ≤ ring) × (ring ≤ GREATEST_CAPACITY) }
{
    let wanted = key_serial(alloc, rows, table)?;
    match run_on(rt, alloc, Listed::new(rows), table, senders, ring, &NoGate) {
        Ok(tapes) => assert!(rt;
            are_same(&tapes, &wanted),
            "{senders} senders, rings of {ring}"
        ),
        Err(_) => return Err(Fail::from("no tapes")),
    }
    Ok(())
}

// A random deck by 1 to 8 senders.
fn check_random<R: Threads + Wait + Clock + Abort + Sync>(
    rt: &R,
    alloc: Global,
    table: &RouteTable,
    dice: &mut Dice,
) -> Result<(), Fail> {
    let rows = random_rows(alloc, dice)?;
    let senders = 1 + dice.throw(8) as usize;
    let ring = RINGS[dice.throw(4) as usize];
    check_rows(rt, alloc, table, &rows, senders, ring.clamp(1, 1_024))
}

#[test]
fn random_decks_give_the_same_tapes(rt: HostRuntime) -> Result<(), Fail> {
    let table = usual_table(rt.alloc())?;
    let mut dice = Dice::new(20_251_122);
    for _deck in 0..DECKS {
        check_random(&rt, rt.alloc(), &table, &mut dice)?;
    }
    Ok(())
}
