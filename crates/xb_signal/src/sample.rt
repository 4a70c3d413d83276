// One sample of what sounds, and of 16 bits.
ghost use Rattle.std.specs.Prelude.{◌≡◌, ◌<◌, ◌≤◌, unsigned_abs};
ghost use Rattle.xb_signal.specs.OneSample.{clean_sample, cut, fits, has_room, is_drawn, peak_of, quiet_sample, sample_at};

use crate::key_sample::keyed_sample;
use crate::moment::Moment;
use crate::segment::Sound;
use crate::setting::Setting;
use crate::steady::{steady_peak, steady_sample};
use crate::wave::mixed;
use xb_chance::swing;

// Sample n of what sounds that begins in a state of the noise, with nothing added.
pub(crate) fn clean_sample(setting: &Setting, state: u64, sound: &Sound, n: u32) -> i32
    ensures value { result ≡ clean_sample setting.now state sound.now n }
    ensures bound { unsigned_abs result ≤ 393210 }
{
    let (low, high) = (setting.low, setting.high);
    match sound {
        Sound::Written(tones) => mixed(low, high, tones.hz(), n),
        Sound::Keyed(pair) => keyed_sample(low, high, &setting.shape, state, *pair, n),
    }
}

// Whether it depends on that state.
pub(crate) fn is_drawn(setting: &Setting, sound: &Sound) -> bool
    ensures { result ≡ is_drawn setting.now sound.now }
{
    match sound {
        Sound::Written(_) => false,
        Sound::Keyed(_) => setting.shape.is_drawn,
    }
}

// Whether a sample has 16 bits.
fn fits(sample: i32) -> bool
    ensures { result ≡ fits sample }
{
    -32_768 <= sample && sample <= 32_767
}

// A sample, or where it has more than 16 bits the greatest or the least that has not.
fn cut(sample: i32) -> i16
    ensures { result ≡ cut sample }
{
    if sample > 32_767 {
        32_767
    } else if sample < -32_768 {
        -32_768
    } else {
        sample as i16
    }
}

// Sample n after a moment, of what sounds from then on and of what sounds all through.
fn quiet_sample(setting: &Setting, moment: Moment, sound: &Sound, n: u32) -> i32
    requires { n < 524288 }
    ensures value { result ≡ quiet_sample setting.now moment sound.now n }
    ensures bound { unsigned_abs result ≤ 983025 }
{
    let steady = steady_sample(&setting.steady, u32::from(moment.place) + n);
    clean_sample(setting, moment.noise, sound, n) + steady
}

// Sample n after a moment, of all that sounds and of the noise.
pub(crate) fn sample_at(setting: &Setting, moment: Moment, sound: &Sound, n: u32) -> i16
    requires { n < 524288 }
    ensures { result ≡ sample_at setting.now moment sound.now n }
{
    let quiet = quiet_sample(setting, moment, sound, n);
    cut(quiet + swing(setting.noise_peak, moment.noise, n))
}

// How much may be added to a sample of what sounds, or taken from it.
pub(crate) fn peak_of(setting: &Setting) -> u32
    ensures value { result ≡ peak_of setting.now }
    ensures bound { result ≤ 655350 }
{
    u32::from(setting.noise_peak) + steady_peak(&setting.steady)
}

// Whether a sample has 16 bits with anything that is added up to the peak.
pub(crate) fn has_room(peak: u32, sample: i32) -> bool
    requires small { unsigned_abs sample ≤ 393210 }
    requires few { peak ≤ 655350 }
    ensures { result ≡ has_room peak sample }
{
    fits(sample + peak as i32) && fits(sample - peak as i32)
}
