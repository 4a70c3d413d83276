// The posts of the chain.
use std::fmt;

/// A post of the chain: a stage with its ring ends. It prints as one word, or for a
/// sender two.
#[derive(Clone, Copy, Debug, PartialEq, Eq)]
pub enum Post {
    /// Sends the rows.
    Feed,
    /// Rows to signals.
    Pulse,
    /// Signals to dialled numbers.
    Register,
    /// Dialled numbers to orders.
    Translate,
    /// Orders to the senders in turn.
    Deal,
    /// A sender, counted from 0: orders to marks.
    Send(u8),
    /// The marks of the senders, entry by entry in turn.
    Gather,
    /// Keeps the marks.
    Tape,
}

impl fmt::Display for Post {
    ghost use Rattle.std.specs.Prelude.{Some};
    ghost use Rattle.xb_flow.specs.FaultTexts.{post_text};

    ghost output = { λ post. Some (post_text post) };

    fn fmt<W: fmt::Write>(&self, f: &mut fmt::Formatter<W>) -> fmt::Result {
        match self {
            Post::Feed => f.write_str("feed"),
            Post::Pulse => f.write_str("pulse"),
            Post::Register => f.write_str("register"),
            Post::Translate => f.write_str("translate"),
            Post::Deal => f.write_str("deal"),
            Post::Send(sender) => write!(f, "send {sender}"),
            Post::Gather => f.write_str("gather"),
            Post::Tape => f.write_str("tape"),
        }
    }
}
