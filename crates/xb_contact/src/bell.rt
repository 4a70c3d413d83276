// What is heard of a line's bell.
ghost use Rattle.std.specs.Prelude.{◌≡◌};
ghost use Rattle.xb_contact.specs.Ringing.{bell_later, bell_with_make, is_due, periods_lacked, silent};

// A period of ringing, a make and the break after it, lasts 15 to 67 ms. It is counted down from `TOO_LONG`, so at least
// 1 and at most `LEFT_OF_SHORTEST` is left of it where the next make begins.
const TOO_LONG: u64 = 68;

const LEFT_OF_SHORTEST: u64 = 53;

// So many periods in a row are a burst.
const PERIODS: u64 = 8;

/// What is heard of a line's bell. All of it is counted down, so it does not grow with the recording.
#[derive(Clone, Copy, Debug, PartialEq, Eq)]
pub(crate) struct Bell {
    // In how many ms the period that the last make began is too long.
    pub(crate) period: u64,
    // How many periods a burst lacks.
    pub(crate) lacks: u64,
    // For how many ms an answer still counts.
    pub(crate) waits: u64,
}

// Whether a make ends a period where it begins with so much left of it.
fn is_due(period: u64) -> bool
    ensures { result ≡ is_due period }
{
    0 < period && period <= LEFT_OF_SHORTEST
}

impl Bell {
    /// Nothing was heard.
    pub fn silent() -> Bell
        ensures { result ≡ silent }
    {
        Bell {
            period: 0,
            lacks: PERIODS,
            waits: 0,
        }
    }

    /// So many ms later.
    pub fn later(self, ticks: u64) -> Bell
        ensures { result ≡ bell_later self ticks }
    {
        Bell {
            period: self.period.saturating_sub(ticks),
            lacks: self.lacks,
            waits: self.waits.saturating_sub(ticks),
        }
    }

    // How many periods a burst lacks where another make begins.
    fn periods_lacked(self) -> u64
        ensures { result ≡ periods_lacked self }
    {
        if is_due(self.period) {
            self.lacks.saturating_sub(1)
        } else {
            PERIODS
        }
    }

    /// Another make begins. With a burst before it an answer counts for `wait` ms.
    pub fn with_make(self, wait: u64) -> Bell
        ensures { result ≡ bell_with_make wait self }
    {
        let lacks = self.periods_lacked();
        Bell {
            period: TOO_LONG,
            lacks,
            waits: if lacks == 0 { wait } else { self.waits },
        }
    }
}
