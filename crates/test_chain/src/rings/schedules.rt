// A chain of posts under random schedules, on one thread.
ghost use Rattle.std.specs.Prelude.{◌≡◌, ◌+◌, ◌≤◌, ◌<◌, [], vec_len, IfOk};
ghost use Rattle.std.specs.List.{All};
ghost use Rattle.rtrb.specs.Ring.{sent, received};

use crate::rings::numbered::{Numbered, on};
use crate::rings::stages::{Pairs, Pieces};
use rtrb::{Consumer, Producer};
use std::alloc::{AllocError, Global};
use std::process::Abort;
use test_kit::Dice;
use xb_model::image_of;
use xb_ring::{Deal, Flow, Gather, Station, Turn, link};

// How many schedules are tried.
const SCHEDULES: u64 = 2_000;

// How many turns a schedule may take.
const MOST_TURNS: u32 = 1_000_000;

// The ends between a deal and a gather, and the stations between them.
#[derive(Drop)]
struct Branches {
    outputs: Vec<Producer<Flow<Numbered>>>,
    stations: Vec<Station<Pieces>>,
    inputs: Vec<Consumer<Flow<Numbered>>>,
}

// Three stations in a row, a deal, a station on each branch, and a gather.
#[derive(Drop)]
struct Posts {
    first: Station<Pairs>,
    second: Station<Pairs>,
    third: Station<Pairs>,
    deal: Deal<Numbered>,
    branches: Vec<Station<Pieces>>,
    gather: Gather<Numbered>,
}

impl Posts {
    // One turn of a post, the branches being numbered from 5 on.
    fn turn(&mut self, post: usize) -> Option<Turn> {
        Some(match post {
            0 => self.first.turn(),
            1 => self.second.turn(),
            2 => self.third.turn(),
            3 => self.deal.turn(),
            4 => self.gather.turn(),
            _ => self.branches.get_mut(post - 5)?.turn(),
        })
    }
}

// Branches on rings of this capacity.
fn link_branches(alloc: Global, count: usize, ring: usize) -> Result<Branches, AllocError>
    requires least { 1 ≤ ring }
    requires most { ring ≤ 1024 }
    ensures outputs { IfOk result (λ all. (vec_len all.outputs ≡ count)
        × All (λ p. sent p ≡ []) all.outputs.items) }
    ensures inputs { IfOk result (λ all. (vec_len all.inputs ≡ count)
        × All (λ c. received c ≡ []) all.inputs.items) }
{
    let mut outputs = Vec::with_capacity(alloc, count)?;
    let mut stations = Vec::with_capacity(alloc, count)?;
    let mut inputs = Vec::with_capacity(alloc, count)?;
    for _branch in 0..count {
        let (output, items) = link(alloc, ring)?;
        let (pieces, input) = link(alloc, ring)?;
        stations.push_reserved(Station::new(alloc, Pieces, items, pieces)?);
        outputs.push_reserved(output);
        inputs.push_reserved(input);
    }
    Ok(Branches {
        outputs,
        stations,
        inputs,
    })
}

// A station after the end of a ring, and the end of the ring that it sends to.
fn station_after(
    alloc: Global,
    items: Consumer<Flow<Numbered>>,
    ring: usize,
) -> Result<(Station<Pairs>, Consumer<Flow<Numbered>>), AllocError>
    requires least { 1 ≤ ring }
    requires most { ring ≤ 1024 }
    requires received { received items ≡ [] }
    ensures { IfOk result (λ ends. received ends.1 ≡ []) }
{
    let (output, sent) = link(alloc, ring)?;
    let station = Station::new(alloc, Pairs, items, output)?;
    Ok((station, sent))
}

// The posts after the end of a ring, and the end of the ring that they send to.
fn posts_after(
    alloc: Global,
    items: Consumer<Flow<Numbered>>,
    count: usize,
    ring: usize,
) -> Result<(Posts, Consumer<Flow<Numbered>>), AllocError>
    requires some { 1 ≤ count }
    requires few { count ≤ 8 }
    requires least { 1 ≤ ring }
    requires most { ring ≤ 1024 }
    requires received { received items ≡ [] }
{
    let (to_tape, tape) = link(alloc, ring)?;
    let Branches {
        outputs,
        stations,
        inputs,
    } = link_branches(alloc, count, ring)?;
    let gather = Gather::new(inputs, to_tape);
    let (first, of_first) = station_after(alloc, items, ring)?;
    let (second, of_second) = station_after(alloc, of_first, ring)?;
    let (third, of_third) = station_after(alloc, of_second, ring)?;
    let posts = Posts {
        first,
        second,
        third,
        deal: Deal::new(of_third, outputs),
        branches: stations,
        gather,
    };
    Ok((posts, tape))
}

// What the stages make of the items, each for the whole list.
fn whole_image(alloc: Global, items: Vec<Numbered>) -> Result<Vec<Numbered>, AllocError> {
    let first = image_of(alloc, &Pairs, items)?;
    let second = image_of(alloc, &Pairs, first)?;
    let third = image_of(alloc, &Pairs, second)?;
    image_of(alloc, &Pieces, third)
}

// Up to 20 items on three lines.
fn random_items(
    rt: &impl Abort,
    alloc: Global,
    dice: &mut Dice,
) -> Result<Vec<Numbered>, AllocError> {
    let mut items = Vec::new(alloc);
    for _ in 0..dice.throw(21) {
        let line = dice.throw(3) as u16;
        items.push(on(rt, line, dice.throw(4) as u8 + 1))?;
    }
    Ok(items)
}

// Sends the next item, or the End after all of them; whether more is to come.
fn feed_next(feed: &mut Producer<Flow<Numbered>>, items: &[Numbered], fed: usize) -> bool {
    match items.get(fed) {
        Some(item) => feed.push(Flow::Item(*item)).is_ok(),
        None => fed == items.len() && feed.push(Flow::End).is_ok(),
    }
}

// Takes what has arrived: each item is the next of the whole image, and the End comes after all.
fn take_all(
    rt: &impl Abort,
    tape: &mut Consumer<Flow<Numbered>>,
    whole: &[Numbered],
    taken: &mut usize,
    schedule: u64,
) -> bool {
    for _ in 0..4 {
        match tape.pop() {
            Ok(Flow::Item(item)) => {
                assert!(rt;
                    whole.get(*taken) == Some(&item),
                    "schedule {schedule}, item {taken}"
                );
                *taken = taken.saturating_add(1);
            }
            Ok(Flow::End) => {
                assert!(rt;
                    *taken == whole.len(),
                    "schedule {schedule} ended at item {taken}"
                );
                return true;
            }
            Err(_) => return false,
        }
    }
    false
}

// Feeds the items and gives the posts turns by the dice; whether the End arrived.
fn play(
    rt: &impl Abort,
    dice: &mut Dice,
    posts: &mut Posts,
    ends: (&mut Producer<Flow<Numbered>>, &mut Consumer<Flow<Numbered>>),
    lists: (&[Numbered], &[Numbered]),
    schedule: u64,
) -> bool {
    let (feed, tape) = ends;
    let (items, whole) = lists;
    let sides = (posts.branches.len() as u64).saturating_add(6);
    let mut fed = 0;
    let mut taken = 0;
    for _ in 0..MOST_TURNS {
        let post = dice.throw(sides) as usize;
        if posts.turn(post).is_none() && feed_next(feed, items, fed) {
            fed = fed.saturating_add(1);
        }
        if take_all(rt, tape, whole, &mut taken, schedule) {
            return true;
        }
    }
    false
}

// Runs one schedule; whether the End arrived.
fn run_schedule(rt: &impl Abort, alloc: Global, schedule: u64) -> Result<bool, AllocError> {
    let mut dice = Dice::new(schedule.saturating_add(1));
    let count = dice.throw(8) as usize + 1;
    let ring = dice.throw(3) as usize + 1;
    let items = random_items(rt, alloc, &mut dice)?;
    let whole = whole_image(alloc, items.clone()?)?;
    let (mut feed, rows) = link(alloc, ring)?;
    let (mut posts, mut tape) = posts_after(alloc, rows, count, ring)?;
    let ends = (&mut feed, &mut tape);
    Ok(play(rt, &mut dice, &mut posts, ends, (&items, &whole), schedule))
}

#[test]
fn every_schedule_sends_the_image(rt: HostRuntime) -> Result<(), AllocError> {
    for schedule in 0..SCHEDULES {
        let ended = run_schedule(&rt, rt.alloc(), schedule)?;
        assert!(rt; ended, "schedule {schedule} did not end");
    }
    Ok(())
}
