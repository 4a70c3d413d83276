// Random numbers.
ghost use Rattle.std.specs.Prelude.{◌<◌};

/// Random numbers, by xorshift. Dice that begin with the same number throw the same.
#[derive(Clone, Copy)]
pub struct Dice {
    state: u64,
}

impl Dice {
    /// Dice that begin with this number, or with 1 in place of 0.
    pub fn new(seed: u64) -> Dice {
        Dice { state: seed.max(1) }
    }

    /// A number under `sides`.
    pub fn throw(&mut self, sides: u64) -> u64
        requires { 0 < sides }
        ensures { result < sides }
    {
        let mut x = self.state;
        x ^= x << 13;
        x ^= x >> 7;
        x ^= x << 17;
        self.state = x;
        x % sides
    }
}
