// Sums of samples with a wave.
ghost use Rattle.std.specs.Prelude.{◌≡◌, ◌≤◌, ◌<◌, ◌*◌, ◌*ℤ◌, length, pos, slice_index_or, unsigned_abs};
ghost use Rattle.xb_measured.specs.Waves.{sums_of, wave, weighed, weights};

use xb_sound::sine_at;

// A raised cosine over 160 samples.
static WEIGHTS: [u16; 160] = [
    0, 2, 5, 9, 16, 23, 32, 43, 55, 69, 84, 100, 118, 137, 158, 180, 203, 227, 252, 279, 307, 336,
    366, 396, 428, 461, 494, 529, 564, 599, 636, 672, 710, 748, 786, 824, 863, 902, 941, 980,
    1_020, 1_059, 1_098, 1_137, 1_176, 1_214, 1_252, 1_290, 1_328, 1_364, 1_401, 1_436, 1_471,
    1_506, 1_539, 1_572, 1_604, 1_634, 1_664, 1_693, 1_721, 1_748, 1_773, 1_797, 1_820, 1_842,
    1_863, 1_882, 1_900, 1_916, 1_931, 1_945, 1_957, 1_968, 1_977, 1_984, 1_991, 1_995, 1_998,
    2_000, 2_000, 1_998, 1_995, 1_991, 1_984, 1_977, 1_968, 1_957, 1_945, 1_931, 1_916, 1_900,
    1_882, 1_863, 1_842, 1_820, 1_797, 1_773, 1_748, 1_721, 1_693, 1_664, 1_634, 1_604, 1_572,
    1_539, 1_506, 1_471, 1_436, 1_401, 1_364, 1_328, 1_290, 1_252, 1_214, 1_176, 1_137, 1_098,
    1_059, 1_020, 980, 941, 902, 863, 824, 786, 748, 710, 672, 636, 599, 564, 529, 494, 461, 428,
    396, 366, 336, 307, 279, 252, 227, 203, 180, 158, 137, 118, 100, 84, 69, 55, 43, 32, 23, 16, 9,
    5, 2, 0,
];

// How many places of the table of sines a cosine is ahead.
const QUARTER: u64 = 20;

/// The sums of the products of weighted samples with a cosine and with a sine.
#[derive(Clone, Copy)]
pub(crate) struct Sums {
    pub(crate) cosine: i64,
    pub(crate) sine: i64,
}

// The weight of a sample.
fn weight_at(place: usize) -> u16
    requires { place < 160 }
    ensures value { result ≡ slice_index_or weights place 0 }
    ensures bound { result ≤ 2000 }
{
    WEIGHTS[place]
}

// Sample n of a wave, so many places of the table ahead of a sine.
fn wave_at(hz: u16, ahead: u64, n: u64) -> i16
    requires near { ahead ≤ 20 }
    requires few { n ≤ 200 }
    ensures value { result ≡ wave hz ahead n }
    ensures bound { unsigned_abs result ≤ 10000 }
{
    let place = (u64::from(hz) * n / 100 + ahead) % 80;
    sine_at(place as usize)
}

// A sample by its weight, times one of a wave.
fn product(weight: u16, x: i16, y: i16) -> i64
    requires heavy { weight ≤ 2000 }
    requires high { unsigned_abs y ≤ 10000 }
    ensures value { result ≡ pos weight *ℤ x *ℤ y }
    ensures bound { unsigned_abs result ≤ 655360000000 }
{
    i64::from(weight) * i64::from(x) * i64::from(y)
}

// The sum of the products of weighted samples with a wave, from its sample `from` on.
fn weighed(samples: &[i16], hz: u16, ahead: u64, from: u64) -> i64
    requires few { length samples.now ≤ 160 }
    requires near { ahead ≤ 20 }
    requires early { from ≤ 40 }
    ensures value { result ≡ weighed (wave hz ahead) from weights samples.now }
    ensures bound { unsigned_abs result ≤ 104857600000000 }
{
    let mut sum = 0i64;
    let mut place = 0usize;
    let mut n = from;
    for x in samples {
        sum += product(weight_at(place), *x, wave_at(hz, ahead, n));
        place += 1;
        n += 1;
    }
    sum
}

/// The sums of up to 160 samples with a frequency in Hz, from its sample `from` on.
pub(crate) fn sums_of(samples: &[i16], hz: u16, from: u64) -> Sums
    requires few { length samples.now ≤ 160 }
    requires early { from ≤ 40 }
    ensures value { result ≡ sums_of hz from samples.now }
    ensures cosine { unsigned_abs result.cosine ≤ 104857600000000 }
    ensures sine { unsigned_abs result.sine ≤ 104857600000000 }
{
    Sums {
        cosine: weighed(samples, hz, QUARTER, from),
        sine: weighed(samples, hz, 0, from),
    }
}
