// Calls of lines under the usual table, and `run`.
ghost use Rattle.std.specs.Prelude.{◌≤◌};

use std::alloc::Global;
use std::sync::Wait;
use std::test::Fail;
use std::thread::Threads;
use std::time::Clock;
use test_kit::decks::{TABLE, Worked, check_page, one_after_another};
use xb_model::{Row, RowSource};
use xb_ring::{GREATEST_CAPACITY, Gate, MOST_BRANCHES};
use xb_routes::RouteTable;
use xb_run::{BankFault, run};
use xb_tape::{Tapes, page};

/// Rows, and the usual table.
#[derive(Drop)]
pub struct Calls {
    /// What the lines do.
    pub rows: Vec<Row>,
    /// By which their numbers are routed.
    pub table: RouteTable,
}

/// The usual table.
pub fn usual_table(alloc: Global) -> Result<RouteTable, Fail> {
    Ok(RouteTable::read(alloc, TABLE.as_bytes())?)
}

/// What the lines of a worked example do.
pub fn calls_of(alloc: Global, worked: &Worked) -> Result<Calls, Fail> {
    let rows = one_after_another(alloc, worked)?;
    let table = usual_table(alloc)?;
    Ok(Calls { rows, table })
}

/// `run`. Its contract is wide, and is read here alone.
pub fn run_on<S: RowSource + Drop + Send, R: Threads + Wait + Clock + Sync, G: Gate + Sync>(
    rt: &R,
    alloc: Global,
    source: S,
    table: &RouteTable,
    senders: usize,
    ring: usize,
    gate: &G,
) -> Result<Tapes, BankFault>
    requires senders { (1 ≤ senders) × (senders ≤ MOST_BRANCHES) }
    requires ring { (1 ≤ ring) × (ring ≤ GREATEST_CAPACITY) }
{
    run(rt, alloc, source, table, senders, ring, gate)
}

/// The tapes have the page of the worked example.
pub fn check_tapes(alloc: Global, tapes: &Tapes, worked: &Worked) -> Result<(), Fail> {
    let written = page(alloc, tapes)?;
    check_page(alloc, worked.name, &written, worked.page)
}
