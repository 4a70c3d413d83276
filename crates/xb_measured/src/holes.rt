// The windows of a key that see no pair.
ghost use Rattle.std.specs.Prelude.{◌≡◌, ◌≤◌, false, length};
ghost use Rattle.xb_measured.specs.Blanks.{blank_by, blank_of, blanks_after, place_of};

use xb_ear::{Heard as HeardKey, Receiver as Ear, Sight, TAIL_WINDOWS};

// 1 where two windows in a row see no pair.
fn blank_by(was_blank: bool, held: Option<Sight>) -> u64
    ensures value { result ≡ blank_by was_blank held }
    ensures bound { result ≤ 1 }
{
    if was_blank && held.is_none() { 1 } else { 0 }
}

// How many windows see no pair, as the one before each does; the first has none before it.
fn blanks_in(held: &[Option<Sight>]) -> u64
    requires { length held.now ≤ 64 }
    ensures { result ≡ blanks_after false held.now }
{
    let mut blanks = 0u64;
    let mut was_blank = false;
    for sight in held {
        blanks += blank_by(was_blank, *sight);
        was_blank = sight.is_none();
    }
    blanks
}

// Where a window stands among the last 64.
fn place_of(at: u64, window: u64) -> usize
    ensures value { result ≡ place_of at window }
    ensures bound { result ≤ 64 }
{
    (TAIL_WINDOWS as u64).saturating_sub(at.saturating_sub(window)) as usize
}

/// How many of the windows of a key see no pair, as the one before each does, of the last 64.
pub(crate) fn blank_of(ear: &Ear, key: HeardKey) -> u64
    ensures { result ≡ blank_of ear.now key }
{
    let ear = ear.parts();
    let from = place_of(ear.hearing.at, key.first);
    let to = place_of(ear.hearing.at, key.past);
    blanks_in(&ear.held[from.min(to)..to])
}
