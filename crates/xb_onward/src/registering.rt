// Keys into a register, and what it tells of them.
ghost use Rattle.std.specs.Prelude.{◌≡◌, ◌≤◌, ◌<◌, ◌+◌, ◌++◌, [], IfOk, IfErr, List, OnErr, length, map, take};
ghost use Rattle.std.specs.Option.{option_to_list};
ghost use Rattle.xb_incoming.specs.declared.key.TheConstants.{TIME_OUT_MS};
ghost use Rattle.xb_incoming.specs.Machine.{HasTaken};
ghost use Rattle.xb_onward.specs.Keys.{key_in};
ghost use Rattle.xb_onward.specs.Outcomes.{outcome_in};
ghost use Rattle.xb_onward.specs.Registering.{told_of};

use crate::key::{PlainKey, key_of};
use crate::outcome::{PlainOutcome, plain_outcome};
use xb_incoming::{Register, TIME_OUT_MS};
use xb_model::Dialled;

/// There is not room for more outcomes than there are keys.
#[derive(Clone, Copy, Debug, PartialEq, Eq)]
pub struct FewRooms;

// Puts an outcome after those that are in the room, if there is one: so many are there then.
fn put_outcome(outcome: Option<Dialled>, room: &mut [PlainOutcome], count: usize) -> usize
    requires { count < length room.old }
    ensures put { map outcome_in (take result room.new)
        ≡ map outcome_in (take count room.old) ++ option_to_list outcome }
    ensures few { result ≤ count + 1 }
    ensures length { length room.new ≡ length room.old }
{
    match outcome {
        None => count,
        Some(dialled) => {
            room[count] = plain_outcome(&dialled);
            count + 1
        }
    }
}

// Has a register that has taken nothing take keys: so many outcomes are in the room then.
fn take_keys(register: &mut Register, keys: &[PlainKey], room: &mut [PlainOutcome]) -> usize
    requires fresh { HasTaken TIME_OUT_MS register.old [] [] }
    requires room { length keys.now < length room.old }
    ensures taken { HasTaken TIME_OUT_MS register.new (map key_in keys.now)
        (map outcome_in (take result room.new)) }
    ensures few { result ≤ length keys.now }
    ensures length { length room.new ≡ length room.old }
{
    let mut count = 0;
    for key in keys {
        count = put_outcome(register.take(key_of(key)), room, count);
    }
    count
}

/// What an incoming register tells of keys, by a time-out of 10,000 ms: the first outcomes of the room, as many as the
/// result says. Where the keys have not ended, these are the outcomes that are certain by them; where they have, all.
/// There have to be more rooms than keys; on an `Err` the room is as it was.
pub fn register_keys(
    keys: &[PlainKey],
    ended: bool,
    room: &mut [PlainOutcome],
) -> Result<usize, FewRooms>
    ensures tells { IfOk result (λ count.
        map outcome_in (take count room.new) ≡ told_of ended (map key_in keys.now)) }
    ensures few { IfOk result (λ count. count ≤ length room.new) }
    ensures refused { IfErr result (λ _. length room.old ≤ length keys.now) }
    ensures kept { OnErr result (room.new ≡ room.old) }
{
    if room.len() <= keys.len() {
        return Err(FewRooms);
    }
    let mut register = Register::new(TIME_OUT_MS);
    let mut count = take_keys(&mut register, keys, room);
    if ended {
        count = put_outcome(register.finish(), room, count);
    }
    Ok(count)
}
