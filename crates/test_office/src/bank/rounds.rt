// Rounds of turns with two senders, on rings with room for one item.
use crate::bank::decks::deck_of;
use crate::bank::played::Played;
use crate::bank::schedule::{Schedule, play_rounds, round_of, without};
use crate::bank::wanted::Wanted;
use std::alloc::Global;
use std::process::Abort;
use std::test::Fail;
use test_kit::attempts::{OPERATOR_CALL, SECOND_CALL};
use test_kit::marks::operator_marks;
use xb_model::{LineNo, Mark};
use xb_ring::{Post, Turn};

// Turns before any item is there, and then rounds until line 5 has called the operator.
#[derive(Clone, Copy)]
struct OperatorInRounds<'a> {
    posts: &'a [Post],
}

impl<'a> Schedule for OperatorInRounds<'a> {
    fn play<A: Abort, P: Played>(&self, rt: &A, chain: &mut P, tapes: &Wanted) -> Result<(), Fail> {
        assert_eq!(rt; chain.turn(Post::Tape)?, Turn::Idle);
        assert_eq!(rt; chain.turn(Post::Send(7))?, Turn::Idle);
        play_rounds(rt, chain, tapes, self.posts, 200)?;
        assert!(rt; chain.ended());
        let line = LineNo::new(5).ok_or("a line")?;
        assert_eq!(rt; chain.marks(line), operator_marks()?.as_slice());
        Ok(())
    }
}

// Rounds to the end.
#[derive(Clone, Copy)]
struct ToTheEnd<'a> {
    posts: &'a [Post],
}

impl<'a> Schedule for ToTheEnd<'a> {
    fn play<A: Abort, P: Played>(&self, rt: &A, chain: &mut P, tapes: &Wanted) -> Result<(), Fail> {
        play_rounds(rt, chain, tapes, self.posts, 1_000)?;
        assert!(rt; tapes.are_given_by(chain));
        Ok(())
    }
}

// Until the operator is called; and another deck from the feed to the tape, and from the tape to the feed.
#[test]
fn replay_in_rounds(rt: HostRuntime) -> Result<(), Fail> {
    let mut posts = round_of(rt.alloc(), 2)?;
    let deck = deck_of(rt.alloc(), &OPERATOR_CALL)?;
    deck.play(&rt, rt.alloc(), 2, 1, &OperatorInRounds { posts: &posts })?;
    let deck = deck_of(rt.alloc(), &SECOND_CALL)?;
    deck.play(&rt, rt.alloc(), 2, 1, &ToTheEnd { posts: &posts })?;
    posts.reverse();
    deck.play(&rt, rt.alloc(), 2, 1, &ToTheEnd { posts: &posts })
}

// Rounds in which one sender has no turn, and the marks that line 3 then has for good.
#[derive(Clone, Copy)]
struct WithoutSender<'a> {
    posts: &'a [Post],
    marks: &'a [Mark],
}

impl<'a> Schedule for WithoutSender<'a> {
    fn play<A: Abort, P: Played>(&self, rt: &A, chain: &mut P, tapes: &Wanted) -> Result<(), Fail> {
        play_rounds(rt, chain, tapes, self.posts, 1_000)?;
        assert!(rt; !chain.ended());
        let line = LineNo::new(3).ok_or("a line")?;
        assert_eq!(rt; chain.marks(line), self.marks);
        Ok(())
    }
}

fn play_without<A: Abort>(rt: &A, alloc: Global, sender: u8, marks: &[Mark]) -> Result<(), Fail> {
    let all = round_of(alloc, 2)?;
    let posts = without(alloc, &all, Post::Send(sender))?;
    let deck = deck_of(alloc, &SECOND_CALL)?;
    let schedule = WithoutSender {
        posts: &posts,
        marks,
    };
    deck.play(rt, alloc, 2, 1, &schedule)
}

#[test]
fn replay_without_a_sender(rt: HostRuntime) -> Result<(), Fail> {
    play_without(&rt, rt.alloc(), 1, &operator_marks()?)?;
    play_without(&rt, rt.alloc(), 0, &[])
}
