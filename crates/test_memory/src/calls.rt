// The calls by their names.
use crate::outcome::Outcome;
use crate::refusal::Aim;
use crate::{chain, office, replays, rings, tapes, texts};
use std::alloc::Global;
use std::sync::Wait;
use std::thread::Threads;
use std::time::Clock;

/// Makes what a call needs, so many allocations, and then the call; `None` where it is not called.
pub fn try_call<R: Threads + Wait + Clock + Sync>(
    rt: &R,
    alloc: Global,
    name: &str,
    aim: Aim,
) -> Option<Outcome> {
    match name {
        "link" => rings::try_link(alloc, aim),
        "Station::new" => rings::try_station(alloc, aim),
        "RouteTable::read" => texts::try_table(alloc, aim),
        "Feed::new" => rings::try_feed(alloc, aim),
        "TapeStation::new" => tapes::try_new(alloc, aim),
        "TapeStation::turn" => tapes::try_turns(alloc, aim),
        "TapeStation::serve" => tapes::try_serve(rt, alloc, aim),
        "key_serial" => chain::try_serial(alloc, aim),
        "page" => chain::try_page(alloc, aim),
        "read_rows" => texts::try_rows(alloc, aim),
        "Scan::next_row" => texts::try_next_row(alloc, aim),
        "run" => chain::try_run(rt, alloc, aim),
        "Replay::new" => replays::try_replay(alloc, aim),
        "Replay::turn" => replays::try_turns(alloc, aim),
        "operate" => office::try_operate(rt, alloc, aim),
        "operate_on_a_fault" => office::try_faulty(rt, alloc, aim),
        "attend" => office::try_attend(rt, alloc, aim),
        _ => Some(Outcome::Wrong),
    }
}
