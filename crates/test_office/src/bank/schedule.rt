// Schedules, and lists of posts.
use crate::bank::played::Played;
use crate::bank::wanted::Wanted;
use std::alloc::{AllocError, Global};
use std::process::Abort;
use std::test::Fail;
use xb_ring::Post;

/// Which post makes the next turn, and what is to come of it.
pub trait Schedule {
    /// Makes the turns of a chain that has made none.
    fn play<A: Abort, P: Played>(&self, rt: &A, chain: &mut P, tapes: &Wanted) -> Result<(), Fail>;
}

/// All posts of a chain with so many senders, each once, the feed first and the tape last.
pub fn round_of(alloc: Global, senders: u8) -> Result<Vec<Post>, AllocError> {
    let mut posts = Vec::new(alloc);
    posts.extend_from_slice(&[
        Post::Feed,
        Post::Pulse,
        Post::Register,
        Post::Translate,
        Post::Deal,
    ])?;
    for sender in 0..senders {
        posts.push(Post::Send(sender))?;
    }
    posts.extend_from_slice(&[Post::Gather, Post::Tape])?;
    Ok(posts)
}

/// The same posts but for one.
pub fn without(alloc: Global, posts: &[Post], starved: Post) -> Result<Vec<Post>, AllocError> {
    let mut others = Vec::new(alloc);
    for post in posts {
        if *post != starved {
            others.push(*post)?;
        }
    }
    Ok(others)
}

// One turn of each post. After each turn the marks of each line are the beginning of its tape, and where
// the chain says that it has ended, the whole.
fn play_round<A: Abort, P: Played>(
    rt: &A,
    chain: &mut P,
    wanted: &Wanted,
    posts: &[Post],
) -> Result<(), Fail> {
    for post in posts {
        chain.turn(*post)?;
        assert!(rt; wanted.agree_with(chain), "after a turn of {post}");
    }
    Ok(())
}

/// So many rounds of these posts. After each turn the marks of each line are the beginning of its tape,
/// and where the chain says that it has ended, the whole.
pub fn play_rounds<A: Abort, P: Played>(
    rt: &A,
    chain: &mut P,
    wanted: &Wanted,
    posts: &[Post],
    rounds: u32,
) -> Result<(), Fail> {
    for _round in 0..rounds {
        play_round(rt, chain, wanted, posts)?;
    }
    Ok(())
}
