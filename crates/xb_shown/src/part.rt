// What is shown at a time.
use crate::heading::Title;
use xb_measured::{Heard, NamedKey};

/// Keys that are shown together.
#[derive(Clone, Copy)]
pub struct Part<'a> {
    /// What they are.
    pub title: Title,
    /// The last key before them.
    pub before: Option<Heard>,
    /// The keys.
    pub keys: &'a [NamedKey],
}
