// What goes through a ring.
ghost use Rattle.std.specs.Prelude.{◌≡◌, [], ◌∷◌, length};
ghost use Rattle.xb_flow.specs.Flows.{items_of};

/// An item, or the end of the items.
#[derive(Clone, Copy, Debug, PartialEq, Eq, Drop)]
pub enum Flow<T> {
    /// An item.
    Item(T),
    /// The end: nothing goes through the ring after it.
    End,
}

impl<T> Flow<T> {
    /// How many items it is: 1, or 0 for the End.
    pub fn count(&self) -> u64
        ensures { result ≡ length (items_of (self.now ∷ [])) }
    {
        match self {
            Flow::Item(_) => 1,
            Flow::End => 0,
        }
    }
}
