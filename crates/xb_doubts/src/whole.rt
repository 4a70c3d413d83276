// What is suspicious in all rows of a deck together.
ghost use Rattle.std.specs.Prelude.{◌≡◌, ◌<◌, ◌^◌, IfOk, length, nat_le};
ghost use Rattle.xb_doubts.specs.declared.counted.TheConstants.{LEAST_RINGS};
ghost use Rattle.xb_doubts.specs.Ringing.{is_ringing};
ghost use Rattle.xb_doubts.specs.Units.{wrong_unit};

use crate::counted::LEAST_RINGS;
use crate::heard::{Heard, heard_in};
use crate::units::{Unit, wrong_unit};
use std::alloc::{AllocError, Global};
use xb_model::{Limits, Row};

/// What is suspicious in all rows together.
#[derive(Clone, Copy, Debug, PartialEq, Eq)]
pub struct Whole {
    /// The unit of which the times look, if it is another one than ms.
    pub unit: Option<Unit>,
    /// Whether ten or more attempts are as ringing makes them.
    pub is_ringing: bool,
}

// Whether ten or more of what is heard are as ringing makes them.
fn is_ringing(heard: Heard) -> bool
    ensures { result ≡ nat_le LEAST_RINGS heard.counted.rings }
{
    LEAST_RINGS <= heard.counted.rings
}

/// What is suspicious in rows by these limits. `Err` where memory ran out.
pub fn whole_of(alloc: Global, limits: Limits, rows: &[Row]) -> Result<Whole, AllocError>
    requires { length rows.now < 2 ^ 32 }
    ensures unit { IfOk result (λ whole. whole.unit ≡ wrong_unit limits rows.now) }
    ensures ringing { IfOk result (λ whole. whole.is_ringing ≡ is_ringing limits rows.now) }
{
    let heard = heard_in(alloc, limits, rows)?;
    let unit = wrong_unit(alloc, limits, heard, rows)?;
    Ok(Whole {
        unit,
        is_ringing: is_ringing(heard),
    })
}
