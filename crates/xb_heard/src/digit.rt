// A digit, as it was heard.
ghost use Rattle.std.specs.Prelude.{◌≡◌, map, IfOk};
ghost use Rattle.xb_heard.specs.Parts.{part_in};
ghost use Rattle.xb_heard.specs.Digits.{digit_by, digit_in, digits_of_parts, unfinished_of_parts};

use crate::fault::{Spoiler, first_spoiler};
use crate::parts::Part;
use crate::run::PlacedRun;
use std::alloc::{AllocError, Global};
use xb_model::Limits;

/// A pulse train that a pause ended.
#[derive(Clone, Copy, Debug)]
pub struct HeardDigit<'a> {
    /// Its breaks, and the makes between them.
    pub pulses: &'a [PlacedRun],
    /// The make that ended it.
    pub pause: PlacedRun,
    /// The first of its runs that is wrong, unless it is a good digit.
    pub spoiler: Option<Spoiler>,
}

// The digit of these pulses.
fn digit_of(limits: Limits, pulses: &[PlacedRun], pause: PlacedRun) -> HeardDigit<'_>
    ensures { digit_in result ≡ digit_by limits pulses.entry.now pause }
{
    HeardDigit {
        pulses,
        pause,
        spoiler: first_spoiler(limits, pulses),
    }
}

// The digits of parts; one that no pause ends is the last, and none.
pub(crate) fn digits_of_parts<'a>(
    alloc: Global,
    parts: &[Part<'a>],
    limits: Limits,
) -> Result<Vec<HeardDigit<'a>>, AllocError>
    ensures { IfOk result (λ digits.
        map digit_in digits.items ≡ digits_of_parts limits (map part_in parts.now)) }
{
    let mut digits = Vec::new(alloc);
    for part in parts {
        let Some(pause) = part.last else {
            break;
        };
        digits.push(digit_of(limits, part.inner, pause))?;
    }
    Ok(digits)
}

// The pulses that no pause ended: the part without an end.
pub(crate) fn unfinished_of_parts<'a>(parts: &[Part<'a>]) -> &'a [PlacedRun]
    ensures { result.now ≡ unfinished_of_parts (map part_in parts.now) }
{
    for part in parts {
        if part.last.is_none() {
            return part.inner;
        }
    }
    &[]
}
