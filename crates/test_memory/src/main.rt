//! One call of the chain, with one of its allocations refused.
//!
//! Standard input is `CALL BEFORE`: the name of a call, and how many allocations to make before it. Where
//! the 1,000th allocation of the process is refused (`rt try --fail-alloc 1000`), that number moves the
//! refusal through the call. Printed is what the call came to, and how many allocations succeed after it:
//! 1,000 where the refusal has been. `CALL set-up` makes only what the call needs, and counts then.
#![tactic(auto)]

mod calls;
mod chain;
mod decks;
mod held;
mod office;
mod outcome;
mod refusal;
mod replays;
mod rings;
mod tapes;
mod texts;

use crate::calls::try_call;
use crate::refusal::{Aim, asked_of, count_left};
use std::io::Read;
use std::process::ExitCode;

fn main(rt: HostRuntime) -> ExitCode {
    let alloc = rt.alloc();
    let mut asked = [0u8; 64];
    let Ok(length) = rt.stdin().read(&mut asked) else {
        return ExitCode::FAILURE;
    };
    let Some((name, aim)) = asked.get(..length).and_then(asked_of) else {
        return ExitCode::FAILURE;
    };
    let outcome = try_call(&rt, alloc, name, aim);
    let left = count_left(alloc);
    let printed = match (outcome, aim) {
        (Some(outcome), _) => println!(rt; "{} {left}", outcome.word()),
        (None, Aim::SetUp) => println!(rt; "set-up {left}"),
        (None, Aim::Call(_)) => println!(rt; "early {left}"),
    };
    match printed {
        Ok(()) => ExitCode::SUCCESS,
        Err(_) => ExitCode::FAILURE,
    }
}
