// What a receiver knows, in parts.
use crate::echo_tails::TAIL_WINDOWS;
use crate::hearing::Hearing;
use crate::sight::Sight;

/// What a receiver knows, for a caller that keeps it in memory of its own.
#[derive(Clone, Copy, Debug, PartialEq, Eq)]
pub struct PlainEar {
    /// The samples that the next window begins with, and room for more.
    pub window: [i16; 80],
    /// How many they are: fewer than 80.
    pub filled: usize,
    /// What stood out in the last windows.
    pub held: [Option<Sight>; TAIL_WINDOWS],
    /// The least power that lay beside the six frequencies of late.
    pub least: u64,
    /// What is known after the windows so far.
    pub hearing: Hearing,
}
