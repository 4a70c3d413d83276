//! Laws of the feed: each is the contract of a function that does nothing.
ghost use Rattle.std.specs.Prelude.{◌≡◌};
ghost use Rattle.xb_posts.specs.declared.filling.TheConstants.{AHEAD};

/// How many rows a feed takes ahead.
pub fn constants()
    ensures { AHEAD ≡ 16 }
{}
