// Two out of five.
ghost use Rattle.std.specs.Prelude.{◌≡◌, ◌==◌, count_by, is_some};
ghost use Rattle.xb_model.specs.Numbers.{digit_of_count};
ghost use Rattle.xb_model.specs.TwoOfFive.{digit_of_pattern, pattern_of_count, at_rest};

use crate::digit::Digit;
use std::marker::Model;

/// Five elements, of the weights 0, 1, 2, 4 and 7, each of which operates or not.
#[derive(Clone, Copy, Debug, PartialEq, Eq)]
pub struct Relays {
    zero: bool,
    one: bool,
    two: bool,
    four: bool,
    seven: bool,
}

// Clauses see which elements operate, in the order of the weights.
impl Model for Relays {
    ghost use Rattle.std.specs.Prelude.{Bool, false, List, [], ◌∷◌, slice_index_or};

    ghost Value = { List Bool };

    ghost view = { λ r. r.zero ∷ r.one ∷ r.two ∷ r.four ∷ r.seven ∷ [] };

    ghost inverse = { λ bits. record {
      zero = slice_index_or bits 0 false;
      one = slice_index_or bits 1 false;
      two = slice_index_or bits 2 false;
      four = slice_index_or bits 3 false;
      seven = slice_index_or bits 4 false;
    } };
}

impl Relays {
    /// The elements that these bits operate, in the order of the weights.
    pub fn of_bits(bits: [bool; 5]) -> Relays
        ensures { result ≡ bits }
    {
        let [zero, one, two, four, seven] = bits;
        Relays {
            zero,
            one,
            two,
            four,
            seven,
        }
    }

    /// The two elements of the digit that `count` pulses give, 10 pulses being digit 0; none where
    /// the train is bad, or the count is not 1 to 10.
    #[tactic(auto, using(crate::proofs::Spelled::spells))]
    pub fn of_count(count: u8, bad: bool) -> Relays
        ensures pattern { result ≡ pattern_of_count count bad }
        ensures digit { digit_of_pattern result ≡ digit_of_count count bad }
    {
        if bad {
            return Relays::default();
        }
        Relays::of_bits(match count {
            1 => [true, true, false, false, false],
            2 => [true, false, true, false, false],
            3 => [false, true, true, false, false],
            4 => [true, false, false, true, false],
            5 => [false, true, false, true, false],
            6 => [false, false, true, true, false],
            7 => [true, false, false, false, true],
            8 => [false, true, false, false, true],
            9 => [false, false, true, false, true],
            10 => [false, false, false, true, true],
            _ => [false; 5],
        })
    }

    /// Whether exactly two elements operate.
    pub fn check(self) -> bool
        ensures two { result ≡ (count_by (λ bit. bit) self == 2) }
        ensures digit { result ≡ is_some (digit_of_pattern self) }
    {
        let operated = u8::from(self.zero)
            + u8::from(self.one)
            + u8::from(self.two)
            + u8::from(self.four)
            + u8::from(self.seven);
        operated == 2
    }

    /// The digit that the elements stand for: the sum of the two weights, and 0 for the sum 11.
    /// `None` exactly where `check` is false.
    pub fn digit(self) -> Option<Digit>
        ensures { result ≡ digit_of_pattern self }
    {
        if !self.check() {
            return None;
        }
        let sum = u8::from(self.one)
            + 2 * u8::from(self.two)
            + 4 * u8::from(self.four)
            + 7 * u8::from(self.seven);
        Digit::new(if sum == 11 { 0 } else { sum })
    }
}

impl Default for Relays {
    ghost is_default = { λ relays. relays ≡ at_rest };

    fn default() -> Relays {
        Relays::of_bits([false; 5])
    }
}
