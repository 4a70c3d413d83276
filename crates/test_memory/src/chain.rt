// The whole chain, on one thread and on several.
use crate::decks::{PAGE, are_marks, lines, table_and_rows};
use crate::outcome::Outcome;
use crate::refusal::Aim;
use std::alloc::Global;
use std::sync::Wait;
use std::thread::Threads;
use std::time::Clock;
use xb_model::Row;
use xb_ring::NoGate;
use xb_routes::RouteTable;
use xb_rows::{Scan, read_rows};
use xb_run::{BankFault, run};
use xb_serial::key_serial;
use xb_tape::{Tapes, page};

/// What a deck has.
#[derive(Drop)]
pub struct Parts {
    /// Its routes.
    pub table: RouteTable,
    /// Its rows.
    pub rows: Vec<Row>,
}

/// The parts of the deck; `None` where memory ran out.
pub fn parts_of_deck(alloc: Global) -> Option<Parts> {
    let table = table_of_deck(alloc)?;
    let rows = rows_of_deck(alloc)?;
    Some(Parts { table, rows })
}

fn table_of_deck(alloc: Global) -> Option<RouteTable> {
    let (text, _) = table_and_rows();
    RouteTable::read(alloc, text.as_bytes()).ok()
}

fn rows_of_deck(alloc: Global) -> Option<Vec<Row>> {
    let (_, text) = table_and_rows();
    let mut reader = text.as_bytes();
    read_rows(alloc, &mut reader).ok()
}

fn are_tapes(tapes: &Tapes) -> bool {
    lines().is_some_and(|(caller, seizing)| are_marks(tapes.marks(caller), tapes.marks(seizing)))
}

fn key_parts(alloc: Global, parts: &Parts, aim: Aim) -> Option<Outcome> {
    aim.take(alloc)?;
    Some(match key_serial(alloc, &parts.rows, &parts.table) {
        Ok(tapes) => Outcome::ample_where(are_tapes(&tapes)),
        Err(_) => Outcome::NoMemory,
    })
}

/// Makes the tapes on one thread.
pub fn try_serial(alloc: Global, aim: Aim) -> Option<Outcome> {
    let parts = parts_of_deck(alloc)?;
    key_parts(alloc, &parts, aim)
}

fn tapes_of_deck(alloc: Global) -> Option<Tapes> {
    let parts = parts_of_deck(alloc)?;
    key_serial(alloc, &parts.rows, &parts.table).ok()
}

fn print_tapes(alloc: Global, tapes: &Tapes, aim: Aim) -> Option<Outcome> {
    aim.take(alloc)?;
    Some(match page(alloc, tapes) {
        Ok(text) => Outcome::ample_where(text.as_slice() == PAGE.as_bytes()),
        Err(_) => Outcome::NoMemory,
    })
}

/// Prints tapes.
pub fn try_page(alloc: Global, aim: Aim) -> Option<Outcome> {
    let tapes = tapes_of_deck(alloc)?;
    print_tapes(alloc, &tapes, aim)
}

fn run_table<R: Threads + Wait + Clock + Sync>(
    rt: &R,
    alloc: Global,
    table: &RouteTable,
    aim: Aim,
) -> Option<Outcome> {
    let (_, text) = table_and_rows();
    aim.take(alloc)?;
    let source = Scan::new(alloc, text.as_bytes());
    Some(match run(rt, alloc, source, table, 2, 2, &NoGate) {
        Ok(tapes) => Outcome::ample_where(are_tapes(&tapes)),
        Err(BankFault::NoMemory) => Outcome::NoMemory,
        Err(BankFault::NoThread(_)) => Outcome::NoThread,
        Err(BankFault::Rows(_)) => Outcome::Wrong,
    })
}

/// Makes the tapes on threads, of rows that are read as they are sent.
pub fn try_run<R: Threads + Wait + Clock + Sync>(
    rt: &R,
    alloc: Global,
    aim: Aim,
) -> Option<Outcome> {
    let table = table_of_deck(alloc)?;
    run_table(rt, alloc, &table, aim)
}
