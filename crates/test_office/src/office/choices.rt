// The words choose how many senders there are, and how many items a ring has room for: gates see both.
use crate::office::office::usual_deck;
use std::alloc::Global;
use std::process::Abort;
use std::sync::Wait;
use std::sync::atomic::{AtomicU64, Ordering};
use std::test::Fail;
use std::thread;
use std::thread::Threads;
use std::time::Clock;
use test_kit::attempts::OPERATOR_CALL;
use test_kit::words_of;
use xb_office::{DONE, attend_by};
use xb_ring::{Gate, Post};

/// How often a gate looks at most.
const LOOKS: u64 = 100_000_000;

// Holds the first post after the feed until the feed has no room: it keeps how many items the feed had
// sent by then, and how many senders there are.
#[derive(Drop)]
struct Full {
    // what the feed had sent when it last came by, and one more; 0 before it came
    came: AtomicU64,
    // what it had sent when it first came by twice with the same, and one more; 0 before that
    full: AtomicU64,
    senders: AtomicU64,
}

impl Full {
    fn new() -> Full {
        Full {
            came: AtomicU64::new(0),
            full: AtomicU64::new(0),
            senders: AtomicU64::new(0),
        }
    }

    // Looks until the feed can go no further.
    fn hold(&self) {
        for _ in 0..LOOKS {
            if self.full.load(Ordering::SeqCst) > 0 {
                return;
            }
            thread::yield_now();
        }
    }
}

impl Gate for Full {
    fn pass(&self, post: Post, n: u64) {
        match post {
            Post::Feed => {
                let next = n.saturating_add(1);
                let is_held_up = self.came.swap(next, Ordering::SeqCst) == next;
                if is_held_up && self.full.load(Ordering::SeqCst) == 0 {
                    self.full.store(next, Ordering::SeqCst);
                }
            }
            Post::Pulse => self.hold(),
            _ => {}
        }
    }

    fn admit(&self, post: Post) -> bool {
        if let Post::Send(_) = post {
            self.senders.fetch_add(1, Ordering::SeqCst);
        }
        true
    }
}

// By these words there are so many senders, and the first ring has room for so many items.
fn check_choice<R: Threads + Wait + Clock + Abort + Sync>(
    rt: &R,
    alloc: Global,
    words: &[&str],
    deck: &str,
    senders: u64,
    ring: u64,
) -> Result<(), Fail> {
    let words = words_of(alloc, "mfbank", words)?;
    let mut reader = deck.as_bytes();
    let mut page: Vec<u8> = Vec::new(alloc);
    let mut line: Vec<u8> = Vec::new(alloc);
    let gate = Full::new();
    let status = attend_by(rt, alloc, words, &mut reader, &mut page, &mut line, &gate);
    assert_eq!(rt; status, DONE);
    assert_eq!(rt; gate.senders.load(Ordering::SeqCst), senders);
    assert_eq!(rt; gate.full.load(Ordering::SeqCst), ring.saturating_add(1));
    Ok(())
}

#[test]
fn the_words_choose_the_senders_and_the_rings(rt: HostRuntime) -> Result<(), Fail> {
    let alloc = rt.alloc();
    let deck = usual_deck(alloc, &OPERATOR_CALL)?;
    check_choice(&rt, alloc, &["--ring", "1"], deck.as_str(), 4, 1)?;
    check_choice(
        &rt,
        alloc,
        &["--ring", "3", "--senders", "1"],
        deck.as_str(),
        1,
        3,
    )?;
    check_choice(
        &rt,
        alloc,
        &["--senders=8", "--ring=20"],
        deck.as_str(),
        8,
        20,
    )
}
