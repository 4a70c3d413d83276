// The posts, each on a thread of its own.
ghost use Rattle.std.specs.Prelude.{◌≡◌, ◌≤◌, ◌<◌, ℕ, IfOk, IfErr, None, vec_len};
ghost use Rattle.std.specs.Thread.{IsSend, IsSync};
ghost use Rattle.xb_model.specs.declared.line.TheConstants.{LINES};
ghost use Rattle.xb_model.specs.Tapes.{tape_of, joined_tape, entries_of, marks_at, tapes_of};
ghost use Rattle.xb_branches.specs.declared.branches.TheConstants.{MOST_BRANCHES};
ghost use Rattle.xb_flow.specs.declared.ends.TheConstants.{GREATEST_CAPACITY};
ghost use Rattle.xb_run.specs.Chains.{posts_of};
ghost use Rattle.xb_run.specs.Faults.{IsPostOf, IsBankFault};
ghost use Rattle.xb_run.specs.Promises.{PostsPromised};
ghost use Rattle.xb_run.specs.Started.{HasRoom};

use crate::chain::Chain;
use crate::done::{AllDone, StationDone};
use crate::fault::BankFault;
use crate::finish::finish;
use crate::senders::{join_senders, start_senders};
use crate::start::{GO, Started, Starter, join};
use std::alloc::{AllocError, Global};
use std::sync::Wait;
use std::sync::atomic::{AtomicU64, Ordering};
use std::thread;
use std::thread::{Scope, Threads};
use std::time::Clock;
use xb_flow::{Gate, Post};
use xb_model::{Mark, On, Order, RowSource};
use xb_routes::RouteTable;
use xb_sender::Sender;
use xb_station::Station;
use xb_tape::Tapes;

// Room for what comes of the starts of the senders, and for what these give back.
#[derive(Drop)]
struct Room {
    started: Vec<Started<Station<Sender>>>,
    done: Vec<StationDone<On<Order>, On<Mark>>>,
}

// Room for so many senders.
fn make_room(alloc: Global, senders: usize) -> Result<Room, AllocError>
    ensures { IfOk result (HasRoom senders) }
{
    let started = Vec::with_capacity(alloc, senders)?;
    let done = Vec::with_capacity(alloc, senders)?;
    Ok(Room { started, done })
}

// Starts the posts from the tape up to the feed, tells them to serve unless a start was refused, and
// joins them. `Err` names the post whose start was refused.
fn serve_all<
    's,
    't: 's,
    E,
    S: RowSource + Drop + Send + 's,
    R: Threads + Wait + Clock + Sync,
    G: Gate + Sync,
>(
    scope: &'s Scope<'s, E>,
    rt: &'s R,
    word: &'s AtomicU64,
    chain: Chain<'t, S>,
    room: Room,
    gate: &'s G,
) -> Result<AllDone, Post>
    requires few { vec_len chain.senders ≤ MOST_BRANCHES }
    requires room { HasRoom (vec_len chain.senders) room }
    ensures promised { IfOk result (PostsPromised (posts_of chain.entry)) }
    ensures refused { IfErr result (IsPostOf (vec_len chain.entry.senders)) }
{
    let mut starter = Starter {
        scope,
        rt,
        word,
        gate,
        refused: None,
    };
    let tape = starter.start(Post::Tape, chain.tape);
    let gather = starter.start(Post::Gather, chain.gather);
    let senders = start_senders(&mut starter, chain.senders, room.started);
    let deal = starter.start(Post::Deal, chain.deal);
    let translate = starter.start(Post::Translate, chain.translate);
    let register = starter.start(Post::Register, chain.register);
    let pulse = starter.start(Post::Pulse, chain.pulse);
    let feed = starter.start(Post::Feed, chain.feed);
    if starter.refused.is_none() {
        word.store(GO, Ordering::SeqCst);
    }
    let done = AllDone {
        feed: join(rt, feed),
        pulse: join(rt, pulse),
        register: join(rt, register),
        translate: join(rt, translate),
        deal: join(rt, deal),
        senders: join_senders(rt, senders, room.done),
        gather: join(rt, gather),
        tape: join(rt, tape),
    };
    match starter.refused {
        Some(post) => Err(post),
        None => Ok(done),
    }
}

// Serves the posts of a chain on threads of their own. `Err` names the post whose start was refused.
fn serve_posts<S: RowSource + Drop + Send, R: Threads + Wait + Clock + Sync, G: Gate + Sync>(
    rt: &R,
    chain: Chain<'_, S>,
    room: Room,
    gate: &G,
) -> Result<AllDone, Post>
    requires few { vec_len chain.senders ≤ MOST_BRANCHES }
    requires room { HasRoom (vec_len chain.senders) room }
    ensures promised { IfOk result (PostsPromised (posts_of chain.entry)) }
    ensures refused { IfErr result (IsPostOf (vec_len chain.entry.senders)) }
{
    let told = AtomicU64::new(0);
    let word = &told;
    thread::scope(
        thread::scope_env(),
        rt,
        move |scope| -> Result<AllDone, Post>
            requires few { vec_len chain.senders ≤ MOST_BRANCHES }
            requires room { HasRoom (vec_len chain.senders) room }
            requires types { IsSend S.row × IsSync R.row × IsSync G.row }
            ensures promised { IfOk result (PostsPromised (posts_of chain.entry)) }
            ensures refused { IfErr result (IsPostOf (vec_len chain.entry.senders)) }
        { serve_all(scope, rt, word, chain, room, gate) },
    )
}

/// The tapes of all lines, of the rows that the source still has: of each line, one entry for each
/// attempt in its record up to its close, in order. That is the keying of the number that was
/// dialled, by its route in the table, or a refusal with its reason and count; nothing of another
/// line is on it.
///
/// Each of the posts (feed, pulse, register, translate, deal, 1 to 8 senders, gather and tape) runs
/// on a thread of its own, and rings of 1 to 1,024 places stand between them. `run` waits for all.
///
/// There are no tapes where memory ran out, where a thread could not be started, which the gate may
/// refuse too (then no row is taken, and the first post that was refused is named, of tape, gather,
/// the senders from the highest, deal, translate, register, pulse and feed), and where the source
/// stops with a fault. A fault of the source comes before that of the tapes.
pub fn run<S: RowSource + Drop + Send, R: Threads + Wait + Clock + Sync, G: Gate + Sync>(
    rt: &R,
    alloc: Global,
    source: S,
    table: &RouteTable,
    senders: usize,
    ring: usize,
    gate: &G,
) -> Result<Tapes, BankFault>
    requires least_senders { 1 ≤ senders }
    requires most_senders { senders ≤ MOST_BRANCHES }
    requires least_ring { 1 ≤ ring }
    requires most_ring { ring ≤ GREATEST_CAPACITY }
    ensures tapes { let t = table.now in IfOk result (λ tapes.
        tapes ≡ tapes_of t.plan t.limits t.routes (S.rest source).rows) }
    ensures marks { let t = table.now in IfOk result (λ tapes. (l : ℕ) → l < LINES →
        marks_at tapes l ≡ joined_tape t.plan t.limits t.routes l (S.rest source).rows) }
    ensures entries { let t = table.now in IfOk result (λ tapes. (l : ℕ) → l < LINES →
        entries_of (marks_at tapes l) ≡ tape_of t.plan t.limits t.routes l (S.rest source).rows) }
    ensures end { IfOk result (λ tapes. (S.rest source).stop ≡ None) }
    ensures fault { IfErr result (IsBankFault senders (S.rest source).stop) }
{
    let room = make_room(alloc, senders)?;
    let chain = Chain::link(alloc, source, table, senders, ring)?;
    match serve_posts(rt, chain, room, gate) {
        Ok(done) => finish(done),
        Err(post) => Err(BankFault::NoThread(post)),
    }
}
