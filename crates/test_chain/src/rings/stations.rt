// Turns of a sender's station on one thread, and one that waits for another thread.
ghost use Rattle.std.specs.Prelude.{◌≤◌};
ghost use Rattle.xb_flow.specs.declared.ends.TheConstants.{GREATEST_CAPACITY};

use crate::rings::gates::{assert_passes, passes_of};
use crate::rings::items::{order, pop_end, pop_mark, push};
use rtrb::{Consumer, Producer};
use std::alloc::{AllocError, Global};
use std::process::Abort;
use std::test::Fail;
use std::thread;
use std::thread::join;
use std::time::Duration;
use test_kit::marks::operator_marks;
use xb_model::{Mark, On, Order};
use xb_ring::{Flow, NoGate, Post, Station, Turn, link};
use xb_sender::Sender;

// A station with the ends that feed it and that it sends to.
#[derive(Drop)]
struct Between {
    orders: Producer<Flow<On<Order>>>,
    station: Station<Sender>,
    marks: Consumer<Flow<On<Mark>>>,
}

// A station between rings of these capacities.
fn link_station(alloc: Global, input: usize, output: usize) -> Result<Between, AllocError>
    requires input_least { 1 ≤ input }
    requires input_most { input ≤ GREATEST_CAPACITY }
    requires output_least { 1 ≤ output }
    requires output_most { output ≤ GREATEST_CAPACITY }
{
    let (orders, consumer) = link(alloc, input)?;
    let (producer, marks) = link(alloc, output)?;
    Ok(Between {
        orders,
        station: Station::new(alloc, Sender::new(), consumer, producer)?,
        marks,
    })
}

// The next turns of a station.
fn turns(rt: &impl Abort, station: &mut Station<Sender>, wanted: &[Turn]) {
    for turn in wanted {
        assert_eq!(rt; station.turn(), *turn);
    }
}

// The turns after each of the four marks was taken.
const AFTER_MARKS: [&[Turn]; 4] = [
    &[Turn::Moved, Turn::Blocked],
    &[Turn::Moved, Turn::Blocked],
    &[Turn::Moved, Turn::Moved, Turn::Blocked],
    &[Turn::Moved, Turn::Ended],
];

// The order gives four marks: on rings of one the station is blocked until each was taken, and takes the
// End only once the last was sent.
#[test]
fn blocked_station(rt: HostRuntime) -> Result<(), Fail> {
    let mut post = link_station(rt.alloc(), 1, 1)?;
    turns(&rt, &mut post.station, &[Turn::Idle]);
    push(&rt, &mut post.orders, order(&rt, 1));
    turns(
        &rt,
        &mut post.station,
        &[Turn::Moved, Turn::Moved, Turn::Blocked],
    );
    push(&rt, &mut post.orders, Flow::End);
    for (mark, after) in operator_marks()?.iter().zip(AFTER_MARKS) {
        pop_mark(&rt, &mut post.marks, 5, *mark);
        turns(&rt, &mut post.station, after);
    }
    pop_end(&rt, &mut post.marks);
    Ok(())
}

// An order, four marks and both Ends are seven events, and the turn after them is the eighth.
#[test]
fn serves_with_a_pass_for_each_turn(rt: HostRuntime) -> Result<(), Fail> {
    let mut post = link_station(rt.alloc(), 2, 8)?;
    push(&rt, &mut post.orders, order(&rt, 1));
    push(&rt, &mut post.orders, Flow::End);
    let gate = passes_of(Post::Send(0));
    post.station.serve(&rt, Post::Send(0), &gate);
    assert_passes(&rt, &gate, 8, 1);
    for mark in operator_marks()? {
        pop_mark(&rt, &mut post.marks, 5, mark);
    }
    pop_end(&rt, &mut post.marks);
    let (mut orders, _marks) = post.station.into_ends();
    assert!(rt; orders.pop().is_err(), "all was received");
    Ok(())
}

// The End comes 5 ms late: the station yields and sleeps until then.
#[test]
fn serves_what_comes_late(rt: HostRuntime) -> Result<(), AllocError> {
    let Between {
        mut orders,
        mut station,
        mut marks,
    } = link_station(rt.alloc(), 1, 1)?;
    let (pushed, ()) = join(
        &rt,
        || {
            thread::sleep(&rt, Duration::from_millis(5));
            orders.push(Flow::End).is_ok()
        },
        || station.serve(&rt, Post::Send(0), &NoGate),
    );
    assert!(rt; pushed, "room for the End");
    pop_end(&rt, &mut marks);
    Ok(())
}
