// A moment of a signal: what of it goes on from one segment to the next.
ghost use Rattle.std.specs.Prelude.{◌≡◌, ◌<◌};
ghost use Rattle.xb_signal.specs.Moments.{moment_after, start};

use xb_chance::state_after;

// How many samples a second has. After so many each frequency of whole Hz is at the same place again.
const SECOND: u32 = 8_000;

/// A moment between two samples of a signal.
#[derive(Clone, Copy)]
pub struct Moment {
    /// The state of the noise.
    pub noise: u64,
    /// How many samples of its second are over: up to 7,999.
    pub place: u16,
}

impl Moment {
    /// The moment before the first sample.
    pub fn start(seed: u64) -> Moment
        ensures { result ≡ start seed }
    {
        Moment {
            noise: seed,
            place: 0,
        }
    }

    /// The moment after so many samples more.
    pub fn after(self, samples: u32) -> Moment
        requires { samples < 524288 }
        ensures { result ≡ moment_after self samples }
    {
        Moment {
            noise: state_after(self.noise, samples),
            place: ((u32::from(self.place) + samples) % SECOND) as u16,
        }
    }
}
