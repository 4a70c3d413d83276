// A pulse as it is sent.

/// A pulse as it is sent: a break and the make after it, each in ms.
#[derive(Clone, Copy, Debug, PartialEq, Eq)]
pub struct SentPulse {
    /// The break.
    pub break_ms: u64,
    /// The make after it.
    pub make_ms: u64,
}
