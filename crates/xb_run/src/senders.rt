// The senders: their threads, and their ends in one thread again.
ghost use Rattle.std.specs.Prelude.{◌≡◌, ◌≤◌, ◌<◌, [], List, reverse, vec_len, vec_capacity, slice_index_or, IfSome, true, false, None};
ghost use Rattle.std.specs.List.{All};
ghost use Rattle.rtrb.specs.Ring.{IsPair};
ghost use Rattle.xb_branches.specs.declared.branches.TheConstants.{MOST_BRANCHES};
ghost use Rattle.xb_run.specs.Pairs.{Pairs};
ghost use Rattle.xb_run.specs.Faults.{IsPostOf};
ghost use Rattle.xb_run.specs.Returned.{IsSettled};
ghost use Rattle.xb_run.specs.Started.{IsStarted};

use crate::done::StationDone;
use crate::start::{Started, Starter, Threaded, join};
use rtrb::{Consumer, Producer};
use std::sync::Wait;
use std::thread::Threads;
use std::time::Clock;
use xb_flow::{Flow, Gate, Post, look_at_both};

/// Starts the senders, from the last on.
pub(crate) fn start_senders<
    's,
    E,
    P: Threaded + Drop + Send + 's,
    R: Wait + Clock + Sync,
    G: Gate + Sync,
>(
    starter: &mut Starter<'s, E, R, G>,
    mut senders: Vec<P>,
    mut started: Vec<Started<P>>,
) -> Vec<Started<P>>
where
    P::Done: Send + 's,
    requires few { vec_len senders ≤ MOST_BRANCHES }
    requires none { started.items ≡ [] }
    requires room { vec_len senders ≤ vec_capacity started }
    ensures started { Pairs (IsStarted P.promised) senders.items (reverse result.items) }
    ensures len { vec_len result ≤ vec_len senders }
    ensures refused { IfSome starter.old.refused (IsPostOf (vec_len senders)) →
        IfSome starter.new.refused (IsPostOf (vec_len senders)) }
{
    while let Some(sender) = senders.pop() {
        let name = Post::Send(senders.len() as u8);
        started.push_reserved(starter.start(name, sender));
    }
    started
}

/// Joins the senders, from the last that was started on.
pub(crate) fn join_senders<P: Threaded, R: Threads>(
    rt: &R,
    mut started: Vec<Started<P>>,
    mut all: Vec<P::Done>,
) -> Vec<P::Done>
    requires none { all.items ≡ [] }
    requires room { vec_len started ≤ vec_capacity all }
    ensures { (senders : List P) → Pairs (IsStarted P.promised) senders (reverse started.items) →
        Pairs P.promised senders result.items }
{
    while let Some(sender) = started.pop() {
        all.push_reserved(join(rt, sender));
    }
    all
}

/// The first sender that was not served.
pub(crate) fn unserved_sender<A, B>(all: &Vec<StationDone<A, B>>) -> Option<u8>
    requires few { vec_len all.now ≤ MOST_BRANCHES }
    ensures none { result ≡ None → All (λ done. done.served ≡ true) all.now.items }
    ensures some { IfSome result (λ number. (number < vec_len all.now)
        × ((done : StationDone A B) → (slice_index_or all.now.items number done).served ≡ false)) }
{
    let mut number = 0u8;
    for done in all {
        if !done.served {
            return Some(number);
        }
        number += 1;
    }
    None
}

/// Looks at the two ends of a ring, which come back to one thread: where both lists end with an End,
/// all that was sent was received.
pub(crate) fn settle<T: Drop>(mut producer: Producer<Flow<T>>, mut consumer: Consumer<Flow<T>>)
    requires { IsPair producer consumer }
    ensures { IsSettled producer consumer }
{
    look_at_both(&mut producer, &mut consumer);
}

/// Settles the rings before and after each sender, one ring at a time.
pub(crate) fn settle_senders<A: Drop, B: Drop>(
    mut before: Vec<Producer<Flow<A>>>,
    mut senders: Vec<StationDone<A, B>>,
    mut after: Vec<Consumer<Flow<B>>>,
)
    requires before { Pairs (λ end sender. IsPair end sender.consumer) before.items senders.items }
    requires after { Pairs (λ sender end. IsPair sender.producer end) senders.items after.items }
    ensures before { Pairs (λ end sender. IsSettled end sender.consumer) before.items senders.items }
    ensures after { Pairs (λ sender end. IsSettled sender.producer end) senders.items after.items }
{
    while let Some(sender) = senders.pop() {
        let Some(producer) = before.pop() else {
            unreachable!()
        };
        let Some(consumer) = after.pop() else {
            unreachable!()
        };
        settle(producer, sender.consumer);
        settle(sender.producer, consumer);
    }
}
