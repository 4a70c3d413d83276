// A gate that counts.
use std::process::Abort;
use std::sync::atomic::{AtomicU64, Ordering};
use xb_ring::{Gate, Post};

// Counts the passes of one post, and remembers its last count of items.
#[derive(Drop)]
pub(crate) struct Counting {
    post: Post,
    passes: AtomicU64,
    items: AtomicU64,
}

pub(crate) fn passes_of(post: Post) -> Counting {
    Counting {
        post,
        passes: AtomicU64::new(0),
        items: AtomicU64::new(0),
    }
}

impl Gate for Counting {
    fn pass(&self, post: Post, n: u64) {
        if post == self.post {
            self.passes.fetch_add(1, Ordering::SeqCst);
            self.items.store(n, Ordering::SeqCst);
        }
    }
}

// So many passes, the last after so many items.
pub(crate) fn assert_passes(rt: &impl Abort, gate: &Counting, passes: u64, items: u64) {
    assert_eq!(rt; gate.passes.load(Ordering::SeqCst), passes);
    assert_eq!(rt; gate.items.load(Ordering::SeqCst), items);
}
