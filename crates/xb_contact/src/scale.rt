// From ticks to ms.
ghost use Rattle.std.specs.Prelude.{◌≡◌, ◌+◌, ◌*◌, ◌/◌, ◌<◌, ◌^◌, ◌↔◌, IsTrue};
ghost use Rattle.xb_contact.specs.Times.{CanCount, ms_at};

/// How long a tick is: `ticks` ticks last `ms` ms.
#[derive(Clone, Copy, Debug, PartialEq, Eq)]
pub struct Scale {
    /// So many ms
    pub ms: u64,
    /// are so many ticks, at least 1.
    pub ticks: u64,
}

impl Scale {
    /// The time of a tick in ms, to the nearest, a half rounded up.
    pub fn ms_at(self, tick: u64) -> u64
        requires some { 0 < self.ticks }
        requires fits { CanCount self tick }
        ensures { result ≡ ms_at self tick }
    {
        (tick * self.ms + self.ticks / 2) / self.ticks
    }

    /// Whether a tick's time can be counted.
    pub fn can_count(self, tick: u64) -> bool
        ensures { IsTrue result ↔ CanCount self tick }
    {
        match tick.checked_mul(self.ms) {
            Some(product) => product < u64::MAX - self.ticks,
            None => false,
        }
    }
}

/// A tick is a nanosecond.
pub const NANOSECONDS: Scale = Scale {
    ms: 1,
    ticks: 1_000_000,
};
