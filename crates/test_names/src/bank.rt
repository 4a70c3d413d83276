// The feed, the tapes, and the whole chain.
ghost use Rattle.std.specs.Prelude.{◌≡◌, ◌≤◌, []};
ghost use Rattle.rtrb.specs.Ring.{received, sent};
ghost use Rattle.xb_flow.specs.Rings.{IsPairAt};

use rtrb::{Consumer, Producer};
use std::alloc::{AllocError, Global};
use std::sync::Wait;
use std::thread::Threads;
use std::time::Clock;
use xb_bank::{BankFault, Feed, Listed, Replay, RowSource, TapeStation, Tapes, key_serial, run};
use xb_model::{LineNo, Mark, On, Row, RowFault};
use xb_ring::{Deal, Ending, Flow, Gate, Gather, LineStage, Post, Sends, Station, Turn};
use xb_routes::RouteTable;

/// Why there are no tapes.
pub const BANK_FAULTS: [BankFault; 3] = [
    BankFault::NoMemory,
    BankFault::NoThread(Post::Feed),
    BankFault::Rows(RowFault::Read),
];

/// The next row of a source.
pub fn next_row<S: RowSource>(source: &mut S) -> Result<Option<Row>, RowFault> {
    source.next_row()
}

/// The next row of a list.
pub fn next_listed(rows: &[Row]) -> Result<Option<Row>, RowFault> {
    let mut listed = Listed::new(rows);
    next_row(&mut listed)
}

/// A feed of a source.
pub fn make_feed<S: RowSource + Drop>(
    alloc: Global,
    source: S,
    output: Producer<Flow<Row>>,
) -> Result<Feed<S>, AllocError>
    requires { sent output ≡ [] }
{
    Feed::new(alloc, source, output)
}

/// A turn of it.
pub fn turn_feed<S: RowSource>(feed: &mut Feed<S>) -> Result<Turn, RowFault> {
    feed.turn()
}

/// Its turns to the End.
pub fn serve_feed<S: RowSource, R: Wait + Clock, G: Gate>(
    feed: &mut Feed<S>,
    rt: &R,
    gate: &G,
) -> Result<(), RowFault> {
    feed.serve(rt, gate)
}

/// Its end.
pub fn end_of_feed<S: RowSource + Drop>(feed: Feed<S>) -> Producer<Flow<Row>> {
    feed.into_ends()
}

/// A tape station.
pub fn make_tape(alloc: Global, input: Consumer<Flow<On<Mark>>>) -> Result<TapeStation, AllocError>
    requires { received input ≡ [] }
{
    TapeStation::new(alloc, input)
}

/// A turn of it.
pub fn turn_tape(tape: &mut TapeStation) -> Result<Turn, AllocError> {
    tape.turn()
}

/// Its turns to the End.
pub fn serve_tape<R: Wait + Clock, G: Gate>(
    tape: &mut TapeStation,
    rt: &R,
    gate: &G,
) -> Result<(), AllocError> {
    tape.serve(rt, gate)
}

/// A look at its input.
pub fn look_of_tape<U: Sends<On<Mark>>>(tape: &mut TapeStation, k: usize, up: &mut U, j: usize)
    requires { IsPairAt (U.outputs up.old) j tape.old.consumer }
{
    tape.look(k, up, j)
}

/// Its end and its tapes.
pub fn parts_of_tape(tape: TapeStation) -> (Consumer<Flow<On<Mark>>>, Tapes) {
    tape.into_parts()
}

// A post that sends into rings.
fn is_sending<T, U: Sends<T>>(_post: &U) {}

/// The posts that do.
pub fn are_sending<S: LineStage, T: Ending + Drop, R: RowSource>(
    station: &Station<S>,
    deal: &Deal<T>,
    gather: &Gather<T>,
    feed: &Feed<R>,
) {
    is_sending::<S::Out, _>(station);
    is_sending::<T, _>(deal);
    is_sending::<T, _>(gather);
    is_sending::<Row, _>(feed);
}

/// The marks of a line, how many entries they are, and those of one entry.
pub fn read_tape(tapes: &Tapes, line: LineNo, k: usize) -> (&[Mark], usize, Option<&[Mark]>) {
    (tapes.marks(line), tapes.entries(line), tapes.entry(line, k))
}

/// The chain on one thread.
pub fn tapes_on_one_thread(
    alloc: Global,
    rows: &[Row],
    table: &RouteTable,
) -> Result<Tapes, AllocError> {
    key_serial(alloc, rows, table)
}

/// The chain on threads.
pub fn tapes_on_threads<
    S: RowSource + Drop + Send,
    R: Threads + Wait + Clock + Sync,
    G: Gate + Sync,
>(
    rt: &R,
    alloc: Global,
    source: S,
    table: &RouteTable,
    senders: usize,
    room: usize,
    gate: &G,
) -> Result<Tapes, BankFault>
    requires least_senders { 1 ≤ senders }
    requires most_senders { senders ≤ 8 }
    requires least_room { 1 ≤ room }
    requires most_room { room ≤ 1024 }
{
    run(rt, alloc, source, table, senders, room, gate)
}

/// The chain with one owner.
pub fn make_replay<'a>(
    alloc: Global,
    rows: &'a [Row],
    table: &'a RouteTable,
    senders: usize,
    room: usize,
) -> Result<Replay<'a>, AllocError>
    requires least_senders { 1 ≤ senders }
    requires most_senders { senders ≤ 8 }
    requires least_room { 1 ≤ room }
    requires most_room { room ≤ 1024 }
{
    Replay::new(alloc, rows, table, senders, room)
}

/// A turn of one of its posts.
pub fn turn_replay(replay: &mut Replay<'_>, post: Post) -> Result<Turn, AllocError> {
    replay.turn(post)
}

/// What it has so far.
pub fn read_replay<'a>(replay: &'a Replay<'_>, line: LineNo) -> (&'a [Mark], bool) {
    (replay.marks(line), replay.ended())
}
