// A post that cannot go on waits between its turns: one that did not would make millions of them.
use crate::bank::calls::{run_on, usual_table};
use crate::bank::passes::Passes;
use crate::bank::schedule::round_of;
use std::alloc::Global;
use std::process::Abort;
use std::sync::Wait;
use std::test::Fail;
use std::thread;
use std::thread::Threads;
use std::time::{Clock, Duration, Instant};
use test_kit::pulses::push_row;
use xb_model::{Contact, LineNo, Listed, Row};
use xb_ring::{Gate, Post};

/// How many lines seize, and are then closed: more than all posts and rings of one item hold.
const LINES: u16 = 20;

/// For how long a post is held, in milliseconds.
const HELD: u64 = 300;

/// The most turns that a post may make in no time: 64 yields and some short sleeps before each event.
const MOST_YIELDS: u128 = 6_000;

/// What a turn more takes at least, in microseconds: later sleeps of a wait ask for 127.
const LEAST_SLEEP: u128 = 100;

// Holds one post before its first turn, and counts the turns of all.
#[derive(Drop)]
struct Late<'a, R> {
    rt: &'a R,
    held: Post,
    passes: &'a Passes,
}

impl<'a, R: Clock> Gate for Late<'a, R> {
    fn pass(&self, post: Post, n: u64) {
        if post == self.held && self.passes.count(post) == 0 {
            thread::sleep(self.rt, Duration::from_millis(HELD));
        }
        self.passes.pass(post, n);
    }
}

// Lines that seize.
fn seizures(alloc: Global) -> Result<Vec<Row>, Fail> {
    let mut rows = Vec::new(alloc);
    for number in 0..LINES {
        let line = LineNo::new(number).ok_or("a line")?;
        push_row(&mut rows, line, Contact::Make, 500)?;
    }
    Ok(rows)
}

// While this post is held each other post waits.
fn check_waits<R: Threads + Wait + Clock + Abort + Sync>(
    rt: &R,
    alloc: Global,
    rows: &[Row],
    held: Post,
) -> Result<(), Fail> {
    let table = usual_table(alloc)?;
    let posts = round_of(alloc, 1)?;
    let passes = Passes::new(alloc, &posts)?;
    let gate = Late {
        rt,
        held,
        passes: &passes,
    };
    let start = Instant::now(rt)?;
    let tapes = run_on(rt, alloc, Listed::new(rows), &table, 1, 1, &gate);
    let most = MOST_YIELDS + start.elapsed(rt)?.as_micros() / LEAST_SLEEP;
    assert!(rt; tapes.is_ok(), "{held} is held");
    for post in &posts {
        let turns = passes.count(*post);
        assert!(rt;
            u128::from(turns) <= most,
            "{post}: {turns} turns while {held} is held"
        );
    }
    Ok(())
}

// While the feed is held no item comes, and while the tape is held there is no room.
#[test]
fn posts_wait_for_items_and_for_room(rt: HostRuntime) -> Result<(), Fail> {
    let rows = seizures(rt.alloc())?;
    for held in [Post::Feed, Post::Tape] {
        check_waits(&rt, rt.alloc(), &rows, held)?;
    }
    Ok(())
}
