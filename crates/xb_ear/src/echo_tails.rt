// The tails of keys.
ghost use Rattle.std.specs.Prelude.{◌≡◌, ◌<◌, ◌^◌, ◌++◌, ◌∷◌, [], drop};
ghost use Rattle.xb_ear.specs.Tails.{counted, is_outdone, strength, without_tail};

use crate::hearing::is_same;
use crate::sight::Sight;

/// A tail is sought in so many windows before it: it lasts for 147 ms at most.
pub const TAIL_WINDOWS: usize = 64;

/// So many windows in a row have to outdo a tail: more than lie across an edge, so that one of them lies in the key.
pub(crate) const TAIL_ROW: u64 = 6;

/// So many times what a tail holds is less than what its key did: a tail is 4.8 dB weaker.
pub(crate) const TAIL_WEAKER: u128 = 3;

/// What a window of another pair held counts for one part in so many: keys may differ by 7.8 dB, and what a room leaves
/// of two keys at once may show a third one.
pub(crate) const TAIL_OTHER: u128 = 2;

// What both tones hold that a window sees.
fn strength(seen: Option<Sight>) -> u128
    ensures value { result ≡ strength seen }
    ensures bound { result < 2 ^ 65 }
{
    match seen {
        None => 0,
        Some(sight) => u128::from(sight.low) + u128::from(sight.high),
    }
}

// What counts of a window before one that sees this.
fn counted(seen: Option<Sight>, before: Option<Sight>) -> u128
    ensures { result ≡ counted seen before }
{
    if is_same(seen, before) {
        strength(before)
    } else {
        strength(before) / TAIL_OTHER
    }
}

// Whether so many windows in a row before held more than so many times as much.
fn is_outdone(before: &[Option<Sight>], seen: Option<Sight>) -> bool
    ensures { result ≡ is_outdone before.now seen }
{
    let most = TAIL_WEAKER * strength(seen);
    let mut row = 0u64;
    for earlier in before {
        if counted(seen, *earlier) <= most {
            row = 0;
        } else if TAIL_ROW <= row + 1 {
            return true;
        } else {
            row += 1;
        }
    }
    false
}

/// What a window sees, but for a tail of what the windows before it held.
pub(crate) fn without_tail(before: &[Option<Sight>], seen: Option<Sight>) -> Option<Sight>
    ensures { result ≡ without_tail before.now seen }
{
    if is_outdone(before, seen) { None } else { seen }
}

/// Moves the last windows on by one, which sees this.
pub(crate) fn move_on(before: &mut [Option<Sight>; TAIL_WINDOWS], seen: Option<Sight>)
    ensures { before.new ≡ drop 1 before.old ++ seen ∷ [] }
{
    before.copy_within(1.., 0);
    before[TAIL_WINDOWS - 1] = seen;
}
