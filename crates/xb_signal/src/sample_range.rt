// Whether the samples of segments have 16 bits.
ghost use Rattle.std.specs.Prelude.{◌≡◌};
ghost use Rattle.xb_signal.specs.Segments.{all_fit, samples_fit, sound_fits};

use crate::sample::{clean_sample, has_room, is_drawn, peak_of};
use crate::segment::{SAMPLES_PER_MS, Segment, Sound};
use crate::setting::Setting;

// Whether each sample of what sounds for a time has 16 bits, whatever is added, where no place is drawn.
fn samples_fit(setting: &Setting, sound: &Sound, ms: u16) -> bool
    ensures { result ≡ samples_fit setting.now sound.now ms }
{
    let peak = peak_of(setting);
    for n in 0..u32::from(ms) * SAMPLES_PER_MS {
        let clean = clean_sample(setting, 0, sound, n);
        if !has_room(peak, clean) {
            return false;
        }
    }
    true
}

// The same, and where the tones of a key begin at any places, whether they fit when they are greatest at once.
fn sound_fits(setting: &Setting, sound: &Sound, ms: u16) -> bool
    ensures { result ≡ sound_fits setting.now sound.now ms }
{
    if is_drawn(setting, sound) {
        let greatest = i32::from(setting.low) + i32::from(setting.high);
        has_room(peak_of(setting), greatest)
    } else {
        samples_fit(setting, sound, ms)
    }
}

/// Whether no sample of segments has to be cut, whatever the noise is, and whenever each of them sounds.
pub fn all_fit(setting: &Setting, segments: &[Segment]) -> bool
    ensures { result ≡ all_fit setting.now segments.now }
{
    for segment in segments {
        if !sound_fits(setting, &segment.sound, segment.ms) {
            return false;
        }
    }
    true
}
