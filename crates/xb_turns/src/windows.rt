// By what a dial is judged.

/// A window of a figure in tenths, its ends among it.
#[derive(Clone, Copy, Debug, PartialEq, Eq)]
pub struct Window {
    /// The least.
    pub least: u64,
    /// The most.
    pub most: u64,
}

/// By what a dial is judged.
#[derive(Clone, Copy, Debug, PartialEq, Eq)]
pub struct Windows {
    /// Pulses a second to which a dial is adjusted.
    pub adjust: Window,
    /// Pulses a second that are accepted.
    pub accept: Window,
    /// How much of the time is break, in percent.
    pub share: Window,
}
