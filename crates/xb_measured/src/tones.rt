// The frequency and the level of a tone.
ghost use Rattle.std.specs.Prelude.{◌≡◌, ◌≤◌, ◌*◌, ◌^◌, ◌*ℤ◌, length, slice_index_or, unsigned_abs};
ghost use Rattle.xb_measured.specs.Tones.{AreSmall, across, along, gains, hz_with, level_of, off_of, tone_of};

use crate::heard::MeasuredTone;
use crate::levels::count_up_to;
use crate::wave_sums::{Sums, sums_of};

// So many samples are measured at a time, the second time so many later.
const SPAN: usize = 160;

const LATER: usize = 40;

// A tone turns in 40 samples by 1.8 degrees more for each Hz that it is higher. These are 10,000 times the tangents of
// half of that, of three halves and so on, up to 89.1 degrees.
static TANGENTS: [u64; 50] = [
    157, 472, 787, 1_104, 1_423, 1_745, 2_071, 2_401, 2_736, 3_076, 3_424, 3_779, 4_142, 4_515,
    4_899, 5_295, 5_704, 6_128, 6_569, 7_028, 7_508, 8_012, 8_541, 9_099, 9_691, 10_319, 10_990,
    11_708, 12_482, 13_319, 14_229, 15_224, 16_319, 17_532, 18_887, 20_413, 22_148, 24_142, 26_464,
    29_208, 32_506, 36_554, 41_653, 48_288, 57_297, 70_264, 90_579, 127_062, 212_049, 636_567,
];

// The most Hz that a tone is told to be off.
const MOST_OFF: usize = 50;

// By how many thousandths more the level of a tone is than the sums say, where it is 0 Hz off, 1 Hz and so on to 50.
static GAINS: [u64; 51] = [
    1_000, 1_001, 1_002, 1_005, 1_008, 1_013, 1_019, 1_026, 1_034, 1_043, 1_053, 1_065, 1_077,
    1_092, 1_107, 1_124, 1_142, 1_162, 1_184, 1_207, 1_232, 1_259, 1_288, 1_319, 1_352, 1_388,
    1_426, 1_467, 1_511, 1_558, 1_609, 1_663, 1_721, 1_783, 1_850, 1_922, 1_999, 2_082, 2_171,
    2_266, 2_369, 2_481, 2_601, 2_730, 2_870, 3_022, 3_187, 3_365, 3_559, 3_770, 4_000,
];

// The four squares of an amplitude of 1, with a gain of 1,000.
const FULL: u128 = 1_280_000_000_000_000_000_000;

// The product of two sums.
fn product(a: i64, b: i64) -> i128
    requires a { unsigned_abs a ≤ 104857600000000 }
    requires b { unsigned_abs b ≤ 104857600000000 }
    ensures value { result ≡ a *ℤ b }
    ensures bound { unsigned_abs result ≤ 10995116277760000000000000000 }
{
    i128::from(a) * i128::from(b)
}

/// The square of a sum.
pub(crate) fn square(a: i64) -> u128
    requires { unsigned_abs a ≤ 104857600000000 }
    ensures value { result ≡ unsigned_abs a ^ 2 }
    ensures bound { result ≤ 10995116277760000000000000000 }
{
    let size = u128::from(a.unsigned_abs());
    size * size
}

// How far the later sums lie along the first.
fn along(first: Sums, later: Sums) -> i128
    requires first { AreSmall first }
    requires later { AreSmall later }
    ensures value { result ≡ along first later }
{
    product(first.cosine, later.cosine) + product(first.sine, later.sine)
}

// And how far across them: above 0 where the tone is higher than its frequency.
fn across(first: Sums, later: Sums) -> i128
    requires first { AreSmall first }
    requires later { AreSmall later }
    ensures value { result ≡ across first later }
    ensures bound { unsigned_abs result ≤ 21990232555520000000000000000 }
{
    product(first.sine, later.cosine) - product(first.cosine, later.sine)
}

// How many Hz a tone is off by which the later sums lie so far along and across.
fn off_of(along: i128, across: i128) -> usize
    requires { unsigned_abs across ≤ 21990232555520000000000000000 }
    ensures value { result ≡ off_of along across }
    ensures bound { result ≤ 50 }
{
    if along <= 0 {
        return MOST_OFF;
    }
    let turn = 10_000 * across.unsigned_abs() / along.unsigned_abs();
    count_up_to(turn, &TANGENTS)
}

// The gain of a tone that is so many Hz off.
fn gain_at(off: usize) -> u64
    requires { off ≤ 50 }
    ensures value { result ≡ slice_index_or gains off 0 }
    ensures bound { result ≤ 4000 }
{
    GAINS[off]
}

// The level of a tone that is so many Hz off.
fn level_of(first: Sums, later: Sums, off: usize) -> u64
    requires first { AreSmall first }
    requires later { AreSmall later }
    requires near { off ≤ 50 }
    ensures { result ≡ level_of first later off }
{
    let early = square(first.cosine) + square(first.sine);
    let late = square(later.cosine) + square(later.sine);
    ((early + late) * u128::from(gain_at(off)) / FULL) as u64
}

// The frequency of a tone that is so many Hz off: below 0 across it is lower.
fn hz_with(hz: u16, across: i128, off: usize) -> u32
    requires { off ≤ 50 }
    ensures { result ≡ hz_with hz across off }
{
    if across < 0 {
        u32::from(hz).saturating_sub(off as u32)
    } else {
        u32::from(hz) + off as u32
    }
}

/// The tone of 200 samples that is nearest to this frequency.
pub(crate) fn tone_of(stretch: &[i16], hz: u16) -> MeasuredTone
    requires { length stretch.now ≡ 200 }
    ensures { result ≡ tone_of hz stretch.now }
{
    let first = sums_of(&stretch[..SPAN], hz, 0);
    let later = sums_of(&stretch[LATER..], hz, LATER as u64);
    let across = across(first, later);
    let off = off_of(along(first, later), across);
    MeasuredTone {
        hz: hz_with(hz, across, off),
        level: level_of(first, later, off),
    }
}
