// How the texts of a picture look.
use xb_svg::{Anchor, Ink, Look};

// A time of the axis, or how long something lasts.
pub(crate) const SMALL: Look = Look {
    size: 46,
    ink: Ink::Faint,
    anchor: Anchor::Middle,
    bold: false,
};

// A frequency beside its lane.
pub(crate) const FREQUENCY: Look = Look {
    anchor: Anchor::End,
    ..SMALL
};

// A limit that is missed.
pub(crate) const MISSED: Look = Look {
    ink: Ink::Red,
    bold: true,
    ..SMALL
};

// The name of a key.
pub(crate) const NAME: Look = Look {
    size: 104,
    ink: Ink::Dark,
    anchor: Anchor::Middle,
    bold: true,
};

// What stands over a keying.
pub(crate) const HEAD: Look = Look {
    size: 76,
    anchor: Anchor::Start,
    ..NAME
};

// The same of a key that stands in none, and of what is not drawn.
pub(crate) const RED_HEAD: Look = Look {
    ink: Ink::Red,
    ..HEAD
};
