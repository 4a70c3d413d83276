// A gate that counts the turns of each post.
use std::alloc::{AllocError, Global};
use std::sync::atomic::{AtomicU64, Ordering};
use xb_ring::{Gate, Post};

/// Counts how often each of some posts passes.
#[derive(Drop)]
pub struct Passes {
    counts: Vec<(Post, AtomicU64)>,
}

impl Passes {
    /// None of these posts has passed.
    pub fn new(alloc: Global, posts: &[Post]) -> Result<Passes, AllocError> {
        let mut counts = Vec::new(alloc);
        for post in posts {
            counts.push((*post, AtomicU64::new(0)))?;
        }
        Ok(Passes { counts })
    }

    /// How often a post has passed.
    pub fn count(&self, post: Post) -> u64 {
        for (counted, count) in &self.counts {
            if *counted == post {
                return count.load(Ordering::SeqCst);
            }
        }
        0
    }
}

impl Gate for Passes {
    fn pass(&self, post: Post, _n: u64) {
        for (counted, count) in &self.counts {
            if *counted == post {
                count.fetch_add(1, Ordering::SeqCst);
            }
        }
    }
}
