// The rhythm of a keying.
ghost use Rattle.std.specs.Prelude.{◌≡◌, ◌≤◌, ◌++◌, None, IfOk, OnOk, length};
ghost use Rattle.xb_measured.specs.Rhythms.{count_up_to, gaps_after, lengths_of, listed_ms, ranked, rhythm_of};

use crate::figures::{gap_ms, length_ms};
use crate::keys::NamedKey;
use std::alloc::{AllocError, Global};

/// Half a key and its gap more than is usual are no doubt, nor are so many ms besides.
pub(crate) const LONG_GAP_MS: u64 = 8;

/// A key that is longer by two thirds than is usual is no doubt, nor are so many ms besides.
pub(crate) const LONG_KEY_MS: u64 = 6;

/// No sender leaves less than so many ms between two keys.
pub(crate) const LEAST_GAP_MS: u64 = 20;

/// What is usual in a keying.
#[derive(Clone, Copy, Debug, PartialEq, Eq)]
pub(crate) struct Rhythm {
    /// How long a key lasts but for KP, in ms.
    pub key_ms: u64,
    /// How long the time between two keys is, in ms.
    pub gap_ms: u64,
}

// How many times are no longer than this.
fn count_up_to(ms: u64, times: &[u64]) -> usize
    ensures value { result ≡ count_up_to ms times.now }
    ensures bound { result ≤ length times.now }
{
    let mut count = 0;
    for time in times {
        if *time <= ms {
            count += 1;
        }
    }
    count
}

// The time of this rank, by length.
fn ranked(rank: usize, times: &[u64]) -> u64
    ensures { result ≡ ranked rank times.now }
{
    let mut least = u64::MAX;
    for time in times {
        if rank <= count_up_to(*time, times) {
            least = least.min(*time);
        }
    }
    least
}

// How long keys last, but for KP.
fn lengths_of(alloc: Global, keys: &[NamedKey]) -> Result<Vec<u64>, AllocError>
    ensures { IfOk result (λ times. times.items ≡ lengths_of keys.now) }
{
    let mut times = Vec::new(alloc);
    for key in keys {
        if !key.is_kp() {
            times.push(length_ms(key.heard()))?;
        }
    }
    Ok(times)
}

// Puts a time after others, if there is one.
fn push_ms(times: &mut Vec<u64>, ms: Option<u64>) -> Result<(), AllocError>
    ensures { OnOk result (times.new.items ≡ times.old.items ++ listed_ms ms) }
{
    if let Some(ms) = ms {
        times.push(ms)?;
    }
    Ok(())
}

// The times between keys.
fn gaps_of(alloc: Global, keys: &[NamedKey]) -> Result<Vec<u64>, AllocError>
    ensures { IfOk result (λ times. times.items ≡ gaps_after None keys.now) }
{
    let mut times = Vec::new(alloc);
    let mut before = None;
    for key in keys {
        let heard = key.heard();
        push_ms(&mut times, gap_ms(before, heard))?;
        before = Some(heard);
    }
    Ok(times)
}

/// What is usual in a keying of these keys. `Err` says that memory ran out.
pub(crate) fn rhythm_of(alloc: Global, keys: &[NamedKey]) -> Result<Rhythm, AllocError>
    ensures { IfOk result (λ rhythm. rhythm ≡ rhythm_of keys.now) }
{
    let lengths = lengths_of(alloc, keys)?;
    let gaps = gaps_of(alloc, keys)?;
    Ok(Rhythm {
        key_ms: ranked((lengths.len() + 1) / 2, &lengths),
        gap_ms: ranked((gaps.len() + 3) / 4, &gaps),
    })
}

impl Rhythm {
    ghost use Rattle.std.specs.Prelude.{◌≡◌};
    ghost use Rattle.xb_measured.specs.Rhythms.{least_key_ms, most_gap_ms, most_key_ms};

    /// The longest time between two keys that is no doubt.
    pub(crate) fn most_gap_ms(self) -> u128
        ensures { result ≡ most_gap_ms self }
    {
        let gap = u128::from(self.gap_ms);
        gap + (gap + u128::from(self.key_ms)) / 2 + u128::from(LONG_GAP_MS)
    }

    /// The longest key that is no doubt.
    pub(crate) fn most_key_ms(self) -> u128
        ensures { result ≡ most_key_ms self }
    {
        let key = u128::from(self.key_ms);
        key + 2 * key / 3 + u128::from(LONG_KEY_MS)
    }

    /// The shortest one.
    pub(crate) fn least_key_ms(self) -> u64
        ensures { result ≡ least_key_ms self }
    {
        self.key_ms / 2
    }
}
