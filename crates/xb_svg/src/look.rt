// How an element looks.
ghost use Rattle.std.specs.Prelude.{◌≡◌};
ghost use Rattle.xb_svg.specs.Looks.{anchor_text, ink_text, weight_text};

/// The colours of a picture.
#[derive(Clone, Copy, Debug, PartialEq, Eq)]
pub enum Ink {
    /// What is said first.
    Dark,
    /// What is said beside it.
    Faint,
    /// What is wrong.
    Red,
    /// What is measured.
    Blue,
    /// The paper.
    White,
    /// The ground of a digit that was heard.
    PaleBlue,
    /// The ground of a digit that is spoiled.
    PaleRed,
    /// The ground of what does not count.
    PaleGrey,
    /// The ground of what is within limits.
    PaleGreen,
    /// The ground of what is within narrower limits.
    LightGreen,
}

/// Which part of a text stands at its place.
#[derive(Clone, Copy, Debug, PartialEq, Eq)]
pub enum Anchor {
    /// Its beginning.
    Start,
    /// Its middle.
    Middle,
    /// Its end.
    End,
}

/// How a text looks.
#[derive(Clone, Copy, Debug, PartialEq, Eq)]
pub struct Look {
    /// How high its letters are, in units of the picture.
    pub size: u16,
    /// Its colour.
    pub ink: Ink,
    /// Which part of it stands at its place.
    pub anchor: Anchor,
    /// Whether its letters are bold.
    pub bold: bool,
}

// The colour as it is written.
pub(crate) fn ink_text(ink: Ink) -> &'static str
    ensures { result.now ≡ ink_text ink }
{
    match ink {
        Ink::Dark => "#1b2a3a",
        Ink::Faint => "#6b7a8a",
        Ink::Red => "#c8102e",
        Ink::Blue => "#2f6db5",
        Ink::White => "#ffffff",
        Ink::PaleBlue => "#e8f0fa",
        Ink::PaleRed => "#fdeaec",
        Ink::PaleGrey => "#f2f2f2",
        Ink::PaleGreen => "#eaf6ec",
        Ink::LightGreen => "#cfe9d5",
    }
}

// The anchor as it is written.
pub(crate) fn anchor_text(anchor: Anchor) -> &'static str
    ensures { result.now ≡ anchor_text anchor }
{
    match anchor {
        Anchor::Start => "start",
        Anchor::Middle => "middle",
        Anchor::End => "end",
    }
}

// The weight of bold letters, or of others, as it is written.
pub(crate) fn weight_text(bold: bool) -> &'static str
    ensures { result.now ≡ weight_text bold }
{
    if bold { "bold" } else { "normal" }
}
