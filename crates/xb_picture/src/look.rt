// How the texts of the picture look.
use xb_svg::{Anchor, Ink, Look};

// How a text beside the drawing looks.
pub(crate) const SMALL: Look = Look {
    size: 54,
    ink: Ink::Faint,
    anchor: Anchor::Middle,
    bold: false,
};

// The same of one that begins at its place.
pub(crate) const BESIDE: Look = Look {
    anchor: Anchor::Start,
    ..SMALL
};

// How the limits look, and what is said of the attempts that are not drawn.
pub(crate) const NOTE: Look = Look { size: 62, ..BESIDE };

// How it looks where an attempt begins.
pub(crate) const FROM: Look = Look {
    size: 60,
    anchor: Anchor::End,
    ..SMALL
};

// How the names of the two heights look.
pub(crate) const NAME: Look = Look {
    size: 50,
    anchor: Anchor::End,
    ..SMALL
};

// How three dots look over pulses that no pause ended.
pub(crate) const DOTS: Look = Look { size: 150, ..SMALL };

// How a big text looks.
pub(crate) const HEAD: Look = Look {
    size: 92,
    ink: Ink::Dark,
    anchor: Anchor::Start,
    bold: true,
};

// How the line of a picture looks.
pub(crate) const BIG: Look = Look { size: 150, ..HEAD };

// How the value of a digit looks, but for its colour.
pub(crate) const BIG_VALUE: Look = Look {
    anchor: Anchor::Middle,
    ..BIG
};

// How red words look: what is wrong, what stands below it, and how long a run is that is wrong.
pub(crate) const RED: Look = Look {
    ink: Ink::Red,
    bold: true,
    ..SMALL
};

pub(crate) const PLAIN_RED: Look = Look { bold: false, ..RED };

pub(crate) const SHORT_RED: Look = Look { size: 50, ..RED };
