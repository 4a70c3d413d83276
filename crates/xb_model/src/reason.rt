// Why an attempt is refused.
ghost use Rattle.std.specs.Prelude.{◌≡◌};
ghost use Rattle.xb_model.specs.Page.{reason_text};

/// Why an attempt is refused.
#[derive(Clone, Copy, Debug, PartialEq, Eq)]
pub enum Reason {
    /// A mutilated digit was heard before a number was complete.
    Mutilated,
    /// No code of the route table covers the number.
    Unknown,
    /// The line was released, or its record closed, before a number was complete.
    Abandoned,
    /// A make reached the time-out before a number was complete.
    TimedOut,
}

impl Reason {
    /// The word of the page and of the report: `MUTILATED`, `UNKNOWN`, `ABANDONED` or `TIMEDOUT`.
    pub fn word(self) -> &'static str
        ensures { result.now ≡ reason_text self }
    {
        match self {
            Reason::Mutilated => "MUTILATED",
            Reason::Unknown => "UNKNOWN",
            Reason::Abandoned => "ABANDONED",
            Reason::TimedOut => "TIMEDOUT",
        }
    }
}
