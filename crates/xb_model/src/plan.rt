// The length of a number.
ghost use Rattle.std.specs.Prelude.{◌≡◌, length};
ghost use Rattle.xb_model.specs.Numbers.{reaches};
ghost use Rattle.xb_model.specs.Plans.{plan_len, plan_of_digits, length_after_three, is_service_code, is_area_code};

use crate::digit::Digit;

/// How the length of a number follows from its first digits. N is 2 to 9, X is 0 to 9.
#[derive(Clone, Copy, Debug, PartialEq, Eq)]
pub enum Plan {
    /// One digit where the first is 0, three for N11, seven for anything else.
    Seven,
    /// Ten digits for N0X, and for N1X other than N11; the rest is as in plan Seven.
    Ten,
}

impl Plan {
    /// The plan whose longest numbers have so many digits, 7 or 10; `None` for any other.
    pub fn of_digits(digits: u32) -> Option<Plan>
        ensures { result ≡ plan_of_digits digits }
    {
        match digits {
            7 => Some(Plan::Seven),
            10 => Some(Plan::Ten),
            _ => None,
        }
    }
}

/// Whether three digits are N11, as 411.
pub fn is_service_code(first: Digit, second: Digit, third: Digit) -> bool
    ensures { result ≡ is_service_code first second third }
{
    first.get() >= 2 && second.get() == 1 && third.get() == 1
}

/// Whether three digits are N0X, or N1X other than N11, as 212.
pub fn is_area_code(first: Digit, second: Digit, third: Digit) -> bool
    ensures { result ≡ is_area_code first second third }
{
    first.get() >= 2 && second.get() <= 1 && !is_service_code(first, second, third)
}

// The length of a number that begins with these three digits, the first not 0.
fn length_after_three(plan: Plan, first: Digit, second: Digit, third: Digit) -> u8
    ensures { result ≡ length_after_three plan first second third }
{
    match plan {
        _ if is_service_code(first, second, third) => 3,
        Plan::Ten if is_area_code(first, second, third) => 10,
        Plan::Seven | Plan::Ten => 7,
    }
}

/// The length of a number that begins with these digits; `None` while they do not tell: there is
/// no digit, or there are fewer than three and the first is not 0.
pub fn plan_len(plan: Plan, digits: &[Digit]) -> Option<u8>
    ensures { result ≡ plan_len plan digits.now }
{
    match digits {
        [] => None,
        [first, rest @ ..] => {
            if first.get() == 0 {
                Some(1)
            } else if let [second, third, ..] = rest {
                Some(length_after_three(plan, *first, *second, *third))
            } else {
                None
            }
        }
    }
}

/// Whether digits are as many as the number has that begins with them, or more.
pub fn is_reached(plan: Plan, digits: &[Digit]) -> bool
    ensures { result ≡ reaches (plan_len plan digits.now) (length digits.now) }
{
    match plan_len(plan, digits) {
        Some(len) => usize::from(len) <= digits.len(),
        None => false,
    }
}
