// How the tones of keys are disturbed.
ghost use Rattle.std.specs.Prelude.{◌≡◌};
ghost use Rattle.xb_signal.specs.Shapes.{standard_shape};

/// How the two tones of each key differ from what its name says.
#[derive(Clone, Copy, Debug, PartialEq, Eq)]
pub struct Shape {
    /// How high the tones are, in thousandths of their frequencies: 1,000 is as they are named.
    pub pitch: u16,
    /// How much later than the key its low tone begins, in ms.
    pub low_late_ms: u16,
    /// How much later than the key its high tone begins, in ms.
    pub high_late_ms: u16,
    /// Where the hole begins, in which both tones are silent, in ms after the beginning of the key.
    pub hole_from_ms: u16,
    /// How long it is, in ms. 0 is no hole.
    pub hole_ms: u16,
    /// Whether each tone begins at a place of its period that is drawn, and not at 0.
    pub is_drawn: bool,
}

impl Shape {
    /// Both tones as they are named, from the beginning of the key to its end.
    pub fn standard() -> Shape
        ensures { result ≡ standard_shape }
    {
        Shape {
            pitch: 1_000,
            low_late_ms: 0,
            high_late_ms: 0,
            hole_from_ms: 0,
            hole_ms: 0,
            is_drawn: false,
        }
    }
}
