// Gates that hold one post until another has come so far: the posts run at the same time.
ghost use Rattle.std.specs.Prelude.{◌≤◌, false, None};

use crate::bank::calls::{Calls, calls_of, check_tapes, run_on};
use std::alloc::Global;
use std::process::Abort;
use std::sync::Wait;
use std::sync::atomic::{AtomicU64, Ordering};
use std::test::Fail;
use std::thread;
use std::thread::Threads;
use std::time::Clock;
use test_kit::attempts::SIX_CALLS;
use xb_model::{Listed, Row, RowFault, RowSource};
use xb_ring::{Gate, MOST_BRANCHES, Post};

/// How often a gate, or a source, looks at most.
const LOOKS: u64 = 1_000_000_000;

// Looks until the count is there. `false` where it never came.
fn looks_until(seen: &AtomicU64, count: u64) -> bool {
    for _ in 0..LOOKS {
        if seen.load(Ordering::SeqCst) >= count {
            return true;
        }
        thread::yield_now();
    }
    false
}

// Holds a post from a count on, until another has come to a count.
#[derive(Drop)]
struct Holding {
    held: Post,
    from: u64,
    until: Post,
    // what is seen of the other post: its greatest count, and one more
    seen: AtomicU64,
    count: u64,
    let_go: AtomicU64,
}

impl Holding {
    fn new(held: Post, from: u64, until: Post, count: u64) -> Holding {
        Holding {
            held,
            from,
            until,
            seen: AtomicU64::new(0),
            count,
            let_go: AtomicU64::new(0),
        }
    }
}

impl Gate for Holding {
    fn pass(&self, post: Post, n: u64) {
        if post == self.until && n >= self.count {
            self.seen.store(1, Ordering::SeqCst);
        }
        if post == self.held && n >= self.from && !looks_until(&self.seen, 1) {
            self.let_go.store(1, Ordering::SeqCst);
        }
    }
}

// Under the gate the posts give the page of six calls, and the gate never let go by itself.
fn check_held<R: Threads + Wait + Clock + Abort + Sync>(
    rt: &R,
    alloc: Global,
    senders: usize,
    gate: &Holding,
) -> Result<(), Fail>
    requires senders { (1 ≤ senders) × (senders ≤ MOST_BRANCHES) }
{
    let calls = calls_of(alloc, &SIX_CALLS)?;
    let source = Listed::new(&calls.rows);
    let tapes = run_on(rt, alloc, source, &calls.table, senders, 1_024, gate);
    assert_eq!(rt; gate.let_go.load(Ordering::SeqCst), 0);
    match tapes {
        Ok(tapes) => check_tapes(alloc, &tapes, &SIX_CALLS),
        Err(_) => Err(Fail::from("no tapes")),
    }
}

// Posts that are held from a count on until another has come to a count, among so many senders.
const HELD: [(usize, Post, u64, Post, u64); 6] = [
    (1, Post::Feed, 386, Post::Tape, 1),
    (4, Post::Feed, 386, Post::Tape, 1),
    (1, Post::Tape, 1, Post::Feed, 426),
    (4, Post::Tape, 1, Post::Feed, 426),
    (2, Post::Send(0), 0, Post::Send(1), 1),
    (2, Post::Send(1), 0, Post::Send(0), 1),
];

#[test]
fn posts_wait_for_each_other(rt: HostRuntime) -> Result<(), Fail> {
    for (senders, held, from, until, count) in HELD {
        let gate = Holding::new(held, from, until, count);
        check_held(&rt, rt.alloc(), senders.clamp(1, 8), &gate)?;
    }
    Ok(())
}

// Keeps the greatest count of the tape that was passed.
#[derive(Drop)]
struct Watching<'a> {
    tape: &'a AtomicU64,
}

impl<'a> Gate for Watching<'a> {
    fn pass(&self, post: Post, n: u64) {
        if post == Post::Tape {
            self.tape.fetch_max(n, Ordering::SeqCst);
        }
    }
}

// Rows, the 387th of which is given only once the tape has received 45 marks. It keeps the count
// of the tape's marks at that moment.
#[derive(Drop)]
struct Waiting<'a> {
    rows: &'a [Row],
    given: u64,
    tape: &'a AtomicU64,
    then: &'a AtomicU64,
}

impl<'a> RowSource for Waiting<'a> {
    ghost rest = { λ s. record { rows = s.rows.now; stop = None; may_allocate = false } };

    fn next_row(&mut self) -> Result<Option<Row>, RowFault> {
        if self.given == 386 {
            looks_until(self.tape, 45);
            self.then
                .store(self.tape.load(Ordering::SeqCst), Ordering::SeqCst);
        }
        self.given = self.given.saturating_add(1);
        match self.rows.split_first() {
            Some((row, rest)) => {
                self.rows = rest;
                Ok(Some(*row))
            }
            None => Ok(None),
        }
    }
}

// Five lines give 45 marks before the sixth has dialled its number, and no more.
fn check_waiting<R: Threads + Wait + Clock + Abort + Sync>(
    rt: &R,
    alloc: Global,
    calls: &Calls,
    senders: usize,
) -> Result<(), Fail>
    requires senders { (1 ≤ senders) × (senders ≤ MOST_BRANCHES) }
{
    let (tape, then) = (AtomicU64::new(0), AtomicU64::new(0));
    let source = Waiting {
        rows: &calls.rows,
        given: 0,
        tape: &tape,
        then: &then,
    };
    let gate = Watching { tape: &tape };
    let tapes = run_on(rt, alloc, source, &calls.table, senders, 1_024, &gate);
    assert_eq!(rt; then.load(Ordering::SeqCst), 45, "{senders} senders");
    assert_eq!(rt; tape.load(Ordering::SeqCst), 54, "{senders} senders");
    match tapes {
        Ok(tapes) => check_tapes(alloc, &tapes, &SIX_CALLS),
        Err(_) => Err(Fail::from("no tapes")),
    }
}

#[test]
fn the_source_waits_for_the_tape(rt: HostRuntime) -> Result<(), Fail> {
    let calls = calls_of(rt.alloc(), &SIX_CALLS)?;
    check_waiting(&rt, rt.alloc(), &calls, 1)?;
    check_waiting(&rt, rt.alloc(), &calls, 4)
}
