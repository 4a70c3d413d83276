// A chain of posts that is played by turns.
use std::alloc::AllocError;
use xb_model::{LineNo, Mark};
use xb_replay::Replay;
use xb_ring::{Post, Turn};

/// What tests need of a replay. They are written for any such chain, so that the contract of a replay,
/// which is wide, is read here alone.
pub trait Played {
    /// Makes one turn of a post.
    fn turn(&mut self, post: Post) -> Result<Turn, AllocError>;

    /// The marks of a line so far.
    fn marks(&self, line: LineNo) -> &[Mark];

    /// Whether all posts have ended.
    fn ended(&self) -> bool;
}

impl<'a> Played for Replay<'a> {
    fn turn(&mut self, post: Post) -> Result<Turn, AllocError> {
        Replay::turn(self, post)
    }

    fn marks(&self, line: LineNo) -> &[Mark] {
        Replay::marks(self, line)
    }

    fn ended(&self) -> bool {
        Replay::ended(self)
    }
}
