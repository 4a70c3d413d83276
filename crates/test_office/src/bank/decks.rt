// Decks, each with the tapes that the chain on one thread makes of it.
ghost use Rattle.std.specs.Prelude.{◌≤◌};
ghost use Rattle.xb_branches.specs.declared.branches.TheConstants.{MOST_BRANCHES};
ghost use Rattle.xb_flow.specs.declared.ends.TheConstants.{GREATEST_CAPACITY};

use crate::bank::schedule::Schedule;
use crate::bank::wanted::Wanted;
use std::alloc::Global;
use std::process::Abort;
use std::test::Fail;
use test_kit::attempts::{ATTEMPTS, TWO_LINES_IN_TURN};
use test_kit::decks::{TABLE, Worked, one_after_another, two_in_turn};
use xb_model::Row;
use xb_replay::Replay;
use xb_routes::RouteTable;

/// A deck under the usual table.
#[derive(Drop)]
pub struct Deck {
    /// What it shows.
    pub name: &'static str,
    rows: Vec<Row>,
    table: RouteTable,
    wanted: Wanted,
}

impl Deck {
    /// Plays a schedule on a replay of the deck that has made no turn. All else that a schedule does is
    /// written for any chain: a replay has one owner, which returns nowhere between its making and its
    /// end, since many early returns beside so many rings take long to check.
    pub fn play<A: Abort, S: Schedule>(
        &self,
        rt: &A,
        alloc: Global,
        senders: usize,
        ring: usize,
        schedule: &S,
    ) -> Result<(), Fail>
        requires senders { (1 ≤ senders) × (senders ≤ MOST_BRANCHES) }
        requires ring { (1 ≤ ring) × (ring ≤ GREATEST_CAPACITY) }
    {
        let mut replay = Replay::new(alloc, &self.rows, &self.table, senders, ring)?;
        schedule.play(rt, &mut replay, &self.wanted)
    }
}

fn deck_of_rows(alloc: Global, name: &'static str, rows: Vec<Row>) -> Result<Deck, Fail> {
    let table = RouteTable::read(alloc, TABLE.as_bytes())?;
    let wanted = Wanted::of_rows(alloc, &rows, &table)?;
    Ok(Deck {
        name,
        rows,
        table,
        wanted,
    })
}

/// The deck of a worked example, the rows of one line after those of the other.
pub fn deck_of(alloc: Global, worked: &Worked) -> Result<Deck, Fail> {
    let rows = one_after_another(alloc, worked)?;
    deck_of_rows(alloc, worked.name, rows)
}

/// All worked decks under the usual table.
pub fn all_decks(alloc: Global) -> Result<Vec<Deck>, Fail> {
    let mut decks = Vec::new(alloc);
    for worked in ATTEMPTS {
        decks.push(deck_of(alloc, worked)?)?;
    }
    let rows = two_in_turn(alloc, &TWO_LINES_IN_TURN)?;
    decks.push(deck_of_rows(alloc, TWO_LINES_IN_TURN.name, rows)?)?;
    Ok(decks)
}
