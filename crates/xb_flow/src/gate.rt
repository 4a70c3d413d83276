// What each `serve` passes before its turns.
use crate::post::Post;

/// What each `serve` passes before its turns, and each start of a post asks. It sees
/// how far a post has come, and may hold it or refuse its start.
pub trait Gate {
    /// A turn of `post` comes next. So far it has received `n` items, or for the feed sent `n`; from
    /// 2^64 - 1 on `n` stays.
    fn pass(&self, post: Post, n: u64);

    /// Whether `post` may be started.
    fn admit(&self, _post: Post) -> bool {
        true
    }
}

/// A gate that holds and refuses nothing.
#[derive(Clone, Copy, Debug, Drop)]
pub struct NoGate;

impl Gate for NoGate {
    fn pass(&self, _post: Post, _n: u64) {}
}
