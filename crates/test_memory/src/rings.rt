// A ring, and the posts that are made on one.
use crate::outcome::Outcome;
use crate::refusal::Aim;
use rtrb::{Consumer, Producer};
use std::alloc::Global;
use xb_model::{LineNo, Listed, Mark, On, Order, Row};
use xb_posts::Feed;
use xb_ring::{Flow, Station, Turn, link};
use xb_sender::Sender;

// Room for what a post sends here.
const RING: usize = 4;

type Orders = Producer<Flow<On<Order>>>;

type Marks = Consumer<Flow<On<Mark>>>;

// Whether an item passes by a ring.
fn passes(output: &mut Producer<Flow<LineNo>>, input: &mut Consumer<Flow<LineNo>>) -> bool {
    let Some(line) = LineNo::new(5) else {
        return false;
    };
    output.push(Flow::Item(line)).is_ok() && input.pop() == Ok(Flow::Item(line))
}

/// Makes a ring, by which an item then passes.
pub fn try_link(alloc: Global, aim: Aim) -> Option<Outcome> {
    aim.take(alloc)?;
    Some(match link(alloc, RING) {
        Ok((mut output, mut input)) => Outcome::ample_where(passes(&mut output, &mut input)),
        Err(_) => Outcome::NoMemory,
    })
}

// Whether a station passes the End on, and has then ended.
fn passes_end(orders: &mut Orders, station: &mut Station<Sender>, marks: &mut Marks) -> bool {
    let is_sent = orders.push(Flow::End).is_ok();
    let turns = [station.turn(), station.turn(), station.turn()];
    let is_received = matches!(marks.pop(), Ok(Flow::End));
    is_sent && turns == [Turn::Moved, Turn::Moved, Turn::Ended] && is_received
}

/// Makes the station of a sender, which then passes the End on.
pub fn try_station(alloc: Global, aim: Aim) -> Option<Outcome> {
    let (mut orders, input) = link(alloc, RING).ok()?;
    let (output, mut marks) = link(alloc, RING).ok()?;
    aim.take(alloc)?;
    Some(match Station::new(alloc, Sender::new(), input, output) {
        Ok(mut station) => Outcome::ample_where(passes_end(&mut orders, &mut station, &mut marks)),
        Err(_) => Outcome::NoMemory,
    })
}

// Whether a feed of no rows sends the End.
fn sends_end(feed: &mut Feed<Listed<'_>>, rows: &mut Consumer<Flow<Row>>) -> bool {
    matches!(feed.turn(), Ok(Turn::Moved)) && matches!(rows.pop(), Ok(Flow::End))
}

/// Makes a feed, which then sends the End of no rows.
pub fn try_feed(alloc: Global, aim: Aim) -> Option<Outcome> {
    let (output, mut rows) = link(alloc, RING).ok()?;
    aim.take(alloc)?;
    Some(match Feed::new(alloc, Listed::new(&[]), output) {
        Ok(mut feed) => Outcome::ample_where(sends_end(&mut feed, &mut rows)),
        Err(_) => Outcome::NoMemory,
    })
}
