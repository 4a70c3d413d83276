// Gates that refuse the start of posts.
use crate::bank::calls::{Calls, calls_of, run_on};
use crate::bank::sources::Counted;
use std::alloc::Global;
use std::process::Abort;
use std::sync::Wait;
use std::sync::atomic::{AtomicU64, Ordering};
use std::test::Fail;
use std::thread::Threads;
use std::time::Clock;
use test_kit::attempts::OPERATOR_CALL;
use test_kit::sources::Stopping;
use xb_ring::{Gate, Post};
use xb_run::BankFault;

/// The posts of two senders, in the order in which they are started.
const POSTS: [Post; 9] = [
    Post::Tape,
    Post::Gather,
    Post::Send(1),
    Post::Send(0),
    Post::Deal,
    Post::Translate,
    Post::Register,
    Post::Pulse,
    Post::Feed,
];

// Refuses two posts, and counts what it is asked and what passes.
#[derive(Drop)]
struct Refusing {
    first: Post,
    other: Post,
    asked: AtomicU64,
    passed: AtomicU64,
}

impl Gate for Refusing {
    fn pass(&self, _post: Post, _n: u64) {
        self.passed.fetch_add(1, Ordering::SeqCst);
    }

    fn admit(&self, post: Post) -> bool {
        self.asked.fetch_add(1, Ordering::SeqCst);
        post != self.first && post != self.other
    }
}

// Where the gate refuses these, the first is named, after so many were asked; no row was taken, and no
// post has passed.
fn check_refused<R: Threads + Wait + Clock + Abort + Sync>(
    rt: &R,
    alloc: Global,
    calls: &Calls,
    refused: (Post, Post),
    asked: u64,
) {
    let (first, other) = refused;
    let gate = Refusing {
        first,
        other,
        asked: AtomicU64::new(0),
        passed: AtomicU64::new(0),
    };
    let taken = AtomicU64::new(0);
    let source = Counted {
        source: Stopping {
            rows: &calls.rows,
            stop: None,
        },
        calls: &taken,
    };
    let fault = run_on(rt, alloc, source, &calls.table, 2, 64, &gate).err();
    assert!(rt; fault == Some(BankFault::NoThread(first)), "{first}");
    assert_eq!(rt; taken.load(Ordering::SeqCst), 0, "{first}");
    assert_eq!(rt; gate.passed.load(Ordering::SeqCst), 0, "{first}");
    assert_eq!(rt; gate.asked.load(Ordering::SeqCst), asked, "{first}");
}

// Each post alone, and of two that are refused the first.
#[test]
fn the_first_refused_start_is_named(rt: HostRuntime) -> Result<(), Fail> {
    let calls = calls_of(rt.alloc(), &OPERATOR_CALL)?;
    let mut asked = 0u64;
    for post in POSTS {
        asked = asked.saturating_add(1);
        check_refused(&rt, rt.alloc(), &calls, (post, post), asked);
    }
    check_refused(&rt, rt.alloc(), &calls, (Post::Gather, Post::Pulse), 2);
    Ok(())
}
