// The sine table, and one sample of a tone.
ghost use Rattle.std.specs.Prelude.{◌≡◌, ◌<◌, ◌≤◌, unsigned_abs};
ghost use Rattle.xb_sound.specs.Sines.{pair_sample, sine_at, sine_sample};

use xb_model::Tone;

/// How many samples there are in a second.
pub const SAMPLES_PER_SECOND: u32 = 8_000;

/// How many samples a period of 100 Hz has. Each MF frequency is a multiple of 100 Hz.
pub const PERIOD: usize = 80;

/// The greatest sample of one frequency: with two of them, each at about -7 dBm0, nothing clips.
pub const AMPLITUDE: i16 = 10_000;

// One period of 100 Hz.
static SINE: [i16; PERIOD] = [
    0, 785, 1564, 2334, 3090, 3827, 4540, 5225, 5878, 6494, 7071, 7604, 8090, 8526, 8910, 9239,
    9511, 9724, 9877, 9969, 10000, 9969, 9877, 9724, 9511, 9239, 8910, 8526, 8090, 7604, 7071,
    6494, 5878, 5225, 4540, 3827, 3090, 2334, 1564, 785, 0, -785, -1564, -2334, -3090, -3827,
    -4540, -5225, -5878, -6494, -7071, -7604, -8090, -8526, -8910, -9239, -9511, -9724, -9877,
    -9969, -10000, -9969, -9877, -9724, -9511, -9239, -8910, -8526, -8090, -7604, -7071, -6494,
    -5878, -5225, -4540, -3827, -3090, -2334, -1564, -785,
];

/// The sample at a place of a period of 100 Hz, from a start at 0.
pub fn sine_at(place: usize) -> i16
    requires { place < 80 }
    ensures value { result ≡ sine_at place }
    ensures bound { unsigned_abs result ≤ 10000 }
{
    SINE[place]
}

/// Sample n of a frequency in Hz, from a start at 0.
pub fn sine_sample(hz: u16, n: u32) -> i16
    ensures value { result ≡ sine_sample hz n }
    ensures bound { unsigned_abs result ≤ 10000 }
{
    let place = u64::from(hz) * u64::from(n) / 100 % 80;
    sine_at(place as usize)
}

// Sample n of two frequencies that sound together.
pub(crate) fn pair_sample(tone: Tone, n: u32) -> i16
    ensures { result ≡ pair_sample tone n }
{
    sine_sample(tone.low, n) + sine_sample(tone.high, n)
}
