// Random walks: the next turn is that of any post.
use crate::bank::decks::{Deck, all_decks};
use crate::bank::played::Played;
use crate::bank::schedule::{Schedule, play_rounds, round_of};
use crate::bank::wanted::Wanted;
use std::alloc::Global;
use std::process::Abort;
use std::test::Fail;
use test_kit::Dice;
use xb_ring::{Post, Turn};

// How many walks are made.
const WALKS: u64 = 50;

// How many turns a walk takes.
const TURNS: u32 = 4_000;

// One more than the posts of a chain with 8 senders.
const SIDES: u64 = 16;

// No chain has a ninth sender.
const NOT_THERE: Post = Post::Send(8);

// How many rounds end a chain, however far its walk came.
const LAST_ROUNDS: u32 = 1_000;

// What a turn may say, beside the count of marks before and after it: only the tape station adds a mark,
// and only one; the feed never waits for an item, the tape station never for room; and a post that isn't
// there is idle.
fn is_legal(post: Post, turn: Turn, before: usize, after: usize, ended: bool) -> bool {
    match (post, turn) {
        (Post::Tape, Turn::Moved) if !ended => after == before.saturating_add(1),
        (Post::Tape, Turn::Blocked) | (Post::Feed, Turn::Idle) => false,
        _ => after == before && (post != NOT_THERE || turn == Turn::Idle),
    }
}

// Makes one turn, which has to be legal and to leave the beginning of each tape, at the end the whole.
fn step<A: Abort, P: Played>(
    rt: &A,
    chain: &mut P,
    wanted: &Wanted,
    post: Post,
) -> Result<(), Fail> {
    let before = wanted.count_of_marks(chain);
    let turn = chain.turn(post)?;
    let after = wanted.count_of_marks(chain);
    assert!(rt;
        is_legal(post, turn, before, after, chain.ended()),
        "{post}"
    );
    assert!(rt; wanted.agree_with(chain), "{post}");
    Ok(())
}

// Turns of random posts, now and then of one that isn't there.
fn walk_at_random<A: Abort, P: Played>(
    rt: &A,
    chain: &mut P,
    wanted: &Wanted,
    posts: &[Post],
    dice: Dice,
) -> Result<(), Fail> {
    let mut dice = dice;
    for _turn in 0..TURNS {
        let place = dice.throw(SIDES) as usize;
        let post = posts.get(place).copied().unwrap_or(NOT_THERE);
        step(rt, chain, wanted, post)?;
    }
    Ok(())
}

// A walk, and then rounds to the end.
#[derive(Clone, Copy)]
struct Walk<'a> {
    posts: &'a [Post],
    dice: Dice,
}

impl<'a> Schedule for Walk<'a> {
    fn play<A: Abort, P: Played>(&self, rt: &A, chain: &mut P, tapes: &Wanted) -> Result<(), Fail> {
        walk_at_random(rt, chain, tapes, self.posts, self.dice)?;
        play_rounds(rt, chain, tapes, self.posts, LAST_ROUNDS)?;
        assert!(rt; tapes.are_given_by(chain));
        Ok(())
    }
}

// A walk on a random deck by 1 to 8 senders, with room for 1 to 3 items in each ring.
fn walk_on<A: Abort>(rt: &A, alloc: Global, decks: &[Deck], walk: u64) -> Result<(), Fail> {
    let mut dice = Dice::new(walk.saturating_add(1));
    let place = dice.throw(decks.len().max(1) as u64) as usize;
    let deck = decks.get(place).ok_or("a deck")?;
    let senders = dice.throw(8) as u8 + 1;
    let ring = dice.throw(3) as usize + 1;
    let posts = round_of(alloc, senders)?;
    let schedule = Walk {
        posts: &posts,
        dice,
    };
    deck.play(rt, alloc, usize::from(senders), ring, &schedule)
}

#[test]
fn replay_by_random_walks(rt: HostRuntime) -> Result<(), Fail> {
    let decks = all_decks(rt.alloc())?;
    for walk in 0..WALKS {
        walk_on(&rt, rt.alloc(), &decks, walk)?;
    }
    Ok(())
}
