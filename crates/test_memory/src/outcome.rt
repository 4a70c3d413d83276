// What a call comes to.

/// What a call came to.
#[derive(Clone, Copy, Debug, PartialEq, Eq)]
pub enum Outcome {
    /// What it comes to with ample memory.
    Ample,
    /// Out of memory, and all else as it was.
    NoMemory,
    /// A post that could not be started, and all else as it was.
    NoThread,
    /// Anything else.
    Wrong,
}

impl Outcome {
    /// Ample memory's outcome, where what it is to be holds.
    pub fn ample_where(is_right: bool) -> Outcome {
        if is_right {
            Outcome::Ample
        } else {
            Outcome::Wrong
        }
    }

    /// Out of memory, where what is to be left as it was is so.
    pub fn no_memory_where(is_right: bool) -> Outcome {
        if is_right {
            Outcome::NoMemory
        } else {
            Outcome::Wrong
        }
    }

    /// The word that is printed.
    pub fn word(self) -> &'static str {
        match self {
            Outcome::Ample => "ample",
            Outcome::NoMemory => "no-memory",
            Outcome::NoThread => "no-thread",
            Outcome::Wrong => "wrong",
        }
    }
}
