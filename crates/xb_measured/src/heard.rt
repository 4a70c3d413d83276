// Keys with their tones.
use xb_ear::Sight;

/// A tone, as it was measured.
#[derive(Clone, Copy, Debug, PartialEq, Eq)]
pub struct MeasuredTone {
    /// Its frequency, in Hz.
    pub hz: u32,
    /// The square of its amplitude.
    pub level: u64,
}

/// When the tones of a key began: for how many tenths of a ms each has sounded at the same moment, soon after the key began.
#[derive(Clone, Copy, Debug, PartialEq, Eq)]
pub struct Onsets {
    /// The lower tone.
    pub low: u32,
    /// The higher one.
    pub high: u32,
}

/// A key that sounded, with its tones as they were measured.
#[derive(Clone, Copy, Debug, PartialEq, Eq)]
pub struct Heard {
    /// Its pair, and the levels of both tones in the window where they were strongest.
    pub sight: Sight,
    /// The number of the first window that saw it.
    pub first: u64,
    /// The number of the window after the last one that counted.
    pub past: u64,
    /// Its lower tone.
    pub low: MeasuredTone,
    /// Its higher one.
    pub high: MeasuredTone,
    /// When both began; `None` where too few samples round the beginning of the key are known.
    pub onsets: Option<Onsets>,
    /// How many of its windows saw no pair, as the one before each did, of the last 64.
    pub blank: u64,
}
