// What holds for all lines.

/// What holds for all lines.
#[derive(Clone, Copy, Debug, PartialEq, Eq)]
pub struct Common {
    /// After a break of how many ms a line is on hook; 0 is as 1.
    pub release_ms: u32,
    /// From how many ms on a run is given in parts.
    pub most_ms: u32,
    /// Whether it is told how many bounces were taken away.
    pub said: bool,
    /// Whether edges may be lost, and are told.
    pub lossy: bool,
}
