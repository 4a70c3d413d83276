// The filter of a sound of more than 8,000 samples a second.
ghost use Rattle.std.specs.Prelude.{◌≡◌, ◌≤◌, ◌*◌, ◌%◌, ◌-ℤ◌, ◌*ℤ◌, length, pos, unsigned_abs};
ghost use Rattle.xb_rx.specs.Samples.{above_zero, filtered_sample, rounded, sum_of};

use crate::coding::MOST_FRAMES;
use crate::weights::weight_at;

/// Each sample of 8,000 a second is made of those in the time of so many.
pub(crate) const WINDOW: usize = 8;

/// The most samples in that time.
pub(crate) const MOST_WINDOW: usize = 192;

// A sample times its weight.
fn weighed(sample: i16, weight: i16) -> i64
    requires { unsigned_abs weight ≤ 9245 }
    ensures value { result ≡ sample *ℤ weight }
    ensures bound { unsigned_abs result ≤ 302940160 }
{
    i64::from(sample) * i64::from(weight)
}

// A sum, and 0 for one below it.
fn above_zero(sum: i64) -> u64
    ensures { result ≡ above_zero sum }
{
    if sum < 0 { 0 } else { sum as u64 }
}

// The sample that is so far above the least one.
fn at_height(height: u64) -> i16
    requires { height ≤ 65535 }
    ensures { result ≡ pos height -ℤ pos 32768 }
{
    (height as i32 - 32_768) as i16
}

// A sum by weights as a sample, where so many samples make one of 8,000 a second.
fn rounded(sum: i64, frames: usize) -> i16
    requires one { 1 ≤ frames }
    requires most { frames ≤ 24 }
    requires sum { unsigned_abs sum ≤ 302940160 * (8 * frames) }
    ensures { result ≡ rounded (10000 * frames) sum }
{
    let unit = 10_000 * frames as u64;
    let raised = above_zero(sum + (32_768 * unit + unit / 2) as i64);
    at_height((raised / unit).min(65_535))
}

// The sum of the samples of a window by their weights.
fn sum_of(window: &[i16], frames: usize) -> i64
    requires one { 1 ≤ frames }
    requires most { frames ≤ 24 }
    requires length { length window.now ≡ 8 * frames }
    ensures value { result ≡ sum_of frames (8 * frames) window.now }
    ensures bound { unsigned_abs result ≤ 302940160 * (8 * frames) }
{
    let step = MOST_FRAMES / frames;
    let mut sum = 0i64;
    for n in 0..window.len() {
        sum += weighed(window[n], weight_at(n * step));
    }
    sum
}

/// The sample of 8,000 a second at the end of a window, where so many samples make one.
pub(crate) fn filtered(window: &[i16], frames: usize) -> i16
    requires one { 1 ≤ frames }
    requires most { frames ≤ 24 }
    requires length { length window.now ≡ 8 * frames }
    ensures { result ≡ filtered_sample frames window.now }
{
    rounded(sum_of(window, frames), frames)
}
