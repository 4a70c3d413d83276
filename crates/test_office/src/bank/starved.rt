// Each post in turn has no turn for a long time.
use crate::bank::decks::{Deck, all_decks};
use crate::bank::played::Played;
use crate::bank::schedule::{Schedule, play_rounds, round_of, without};
use crate::bank::wanted::Wanted;
use std::alloc::Global;
use std::process::Abort;
use std::test::Fail;
use xb_ring::Post;

// 1,000 rounds without a post, and 2,000 with it.
#[derive(Clone, Copy)]
struct Starved<'a> {
    name: &'static str,
    post: Post,
    others: &'a [Post],
    all: &'a [Post],
}

impl<'a> Schedule for Starved<'a> {
    fn play<A: Abort, P: Played>(&self, rt: &A, chain: &mut P, tapes: &Wanted) -> Result<(), Fail> {
        play_rounds(rt, chain, tapes, self.others, 1_000)?;
        assert!(rt; !chain.ended(), "{}, {}", self.name, self.post);
        play_rounds(rt, chain, tapes, self.all, 2_000)?;
        assert!(rt; tapes.are_given_by(chain), "{}, {}", self.name, self.post);
        Ok(())
    }
}

fn starve<A: Abort>(
    rt: &A,
    alloc: Global,
    deck: &Deck,
    all: &[Post],
    post: Post,
) -> Result<(), Fail> {
    let others = without(alloc, all, post)?;
    let schedule = Starved {
        name: deck.name,
        post,
        others: &others,
        all,
    };
    deck.play(rt, alloc, 8, 1, &schedule)
}

fn starve_each<A: Abort>(
    rt: &A,
    alloc: Global,
    deck: &Deck,
    all: &[Post],
    posts: &[Post],
) -> Result<(), Fail> {
    for post in posts {
        starve(rt, alloc, deck, all, *post)?;
    }
    Ok(())
}

// Each of these posts in turn, on each deck.
fn starve_on_all<A: Abort>(rt: &A, alloc: Global, posts: &[Post]) -> Result<(), Fail> {
    let all = round_of(alloc, 8)?;
    for deck in &all_decks(alloc)? {
        starve_each(rt, alloc, deck, &all, posts)?;
    }
    Ok(())
}

#[test]
fn hostile_decks_with_a_stage_starved(rt: HostRuntime) -> Result<(), Fail> {
    let stages = [Post::Feed, Post::Pulse, Post::Register, Post::Translate];
    starve_on_all(&rt, rt.alloc(), &stages)
}

#[test]
fn hostile_decks_with_an_early_sender_starved(rt: HostRuntime) -> Result<(), Fail> {
    let senders = [Post::Send(0), Post::Send(1), Post::Send(2), Post::Send(3)];
    starve_on_all(&rt, rt.alloc(), &senders)
}

#[test]
fn hostile_decks_with_a_late_sender_starved(rt: HostRuntime) -> Result<(), Fail> {
    let senders = [Post::Send(4), Post::Send(5), Post::Send(6), Post::Send(7)];
    starve_on_all(&rt, rt.alloc(), &senders)
}

#[test]
fn hostile_decks_with_a_shared_post_starved(rt: HostRuntime) -> Result<(), Fail> {
    let shared = [Post::Deal, Post::Gather, Post::Tape];
    starve_on_all(&rt, rt.alloc(), &shared)
}
