// How a post is started on a thread of its own.
ghost use Rattle.std.specs.Prelude.{◌≡◌, IfOk, IfErr};

use std::snapshot::Snapshot;
use std::sync::Wait;
use std::sync::atomic::{AtomicU64, Ordering};
use std::thread::{Promise, PromisedHandle, Scope, Threads};
use std::time::Clock;
use xb_flow::{Gate, Pause, Post};

/// A post that can be served on a thread of its own.
pub(crate) trait Threaded {
    /// What it gives back: its ends, and what came of it.
    type Done: Drop;

    // what is promised of what a post gives back
    ghost promised: { Self → Self.Done → Type 0 };

    /// Serves, and gives back the ends.
    fn serve_out<R: Wait + Clock, G: Gate>(self, rt: &R, name: Post, gate: &G) -> Self::Done
        ensures { promised self result };

    /// Gives back the ends without serving.
    fn stop(self) -> Self::Done
        ensures { promised self result };
}

/// The start word of posts that are to serve.
pub(crate) const GO: u64 = 1;

/// The start word of posts that are to stop, since the start of another was refused.
pub(crate) const STOP: u64 = 2;

// Waits for the start word: whether it is to serve.
fn is_told_to_go<R: Wait + Clock>(rt: &R, word: &AtomicU64) -> bool {
    let mut pause = Pause::new();
    for _ in rt.forever() {
        match word.load(Ordering::SeqCst) {
            GO => return true,
            STOP => return false,
            _ => pause.wait(rt),
        }
    }
    unreachable!()
}

/// What the thread of a post promises of what it gives back.
#[derive(Drop)]
pub(crate) struct Promised<P: Threaded> {
    made: Snapshot<P>,
}

impl<P: Threaded> Promise<P::Done> for Promised<P> {
    ghost kept_by = { λ promise done. P.promised promise.made.value done };
}

/// What came of the start of a post: its thread, or what the post gave back without serving.
pub(crate) type Started<P> = Result<
    PromisedHandle<<P as Threaded>::Done, Promised<P>>,
    <P as Threaded>::Done,
>;

/// Starts posts on threads of a scope, where they wait for the start word, up to the first start that
/// the gate or the runtime refuses: then the word is to stop, and every other post stops at once.
#[derive(Drop)]
pub(crate) struct Starter<'s, E, R, G> {
    pub(crate) scope: &'s Scope<'s, E>,
    pub(crate) rt: &'s R,
    pub(crate) word: &'s AtomicU64,
    pub(crate) gate: &'s G,
    /// The post whose start was refused.
    pub(crate) refused: Option<Post>,
}

impl<'s, E, R: Wait + Clock + Sync, G: Gate + Sync> Starter<'s, E, R, G> {
    ghost use Rattle.std.specs.Prelude.{ℕ, IfSome};
    ghost use Rattle.xb_run.specs.Faults.{IsPostOf};
    ghost use Rattle.xb_run.specs.Started.{IsStarted};

    /// Starts a post, unless a start was refused.
    pub(crate) fn start<P: Threaded + Drop + Send + 's>(
        &mut self,
        name: Post,
        post: P,
    ) -> Started<P>
    where
        P::Done: Send + 's,
        ensures started { IsStarted P.promised post result }
        ensures refused { (senders : ℕ) → IsPostOf senders name →
            IfSome self.old.refused (IsPostOf senders) → IfSome self.new.refused (IsPostOf senders) }
    {
        if self.refused.is_some() {
            return Err(post.stop());
        }
        let (rt, word, gate) = (self.rt, self.word, self.gate);
        if !gate.admit(name) {
            self.refused = Some(name);
            word.store(STOP, Ordering::SeqCst);
            return Err(post.stop());
        }
        let made = Snapshot::of(&post);
        let serve = move || -> P::Done
            ensures { P.promised post result }
        {
            if is_told_to_go(rt, word) {
                post.serve_out(rt, name, gate)
            } else {
                post.stop()
            }
        };
        match self.scope.spawn_with(Promised { made }, serve) {
            Ok(handle) => Ok(handle),
            Err(refused) => {
                self.refused = Some(name);
                word.store(STOP, Ordering::SeqCst);
                Err((refused.value)())
            }
        }
    }
}

/// What a post gives back, once its thread has ended.
pub(crate) fn join<D, Q: Promise<D>, R: Threads>(
    rt: &R,
    started: Result<PromisedHandle<D, Q>, D>,
) -> D
    ensures kept { IfOk started (λ handle. Q.kept_by handle.promise result) }
    ensures stopped { IfErr started (λ done. result ≡ done) }
{
    match started {
        Ok(handle) => handle.join(rt),
        Err(done) => done,
    }
}
