// Where the refusal falls.
use std::alloc::{AllocError, Global};

/// The allocation of the process that is refused, from 1.
const REFUSED: u32 = 1_000;

/// What a run is to do.
#[derive(Clone, Copy)]
pub enum Aim {
    /// Make what the call needs, and not call.
    SetUp,
    /// Make so many allocations, and then call.
    Call(u32),
}

impl Aim {
    /// Makes the allocations before the call; `None` where there is to be no call, or one is refused.
    pub fn take(self, alloc: Global) -> Option<()> {
        match self {
            Aim::SetUp => None,
            Aim::Call(before) => allocate(alloc, before).ok(),
        }
    }
}

// Makes so many allocations; `Err` where one is refused.
fn allocate(alloc: Global, many: u32) -> Result<(), AllocError> {
    for _ in 0..many {
        let _one = Box::new(alloc, 0u8)?;
    }
    Ok(())
}

/// How many allocations succeed before one is refused, 1,000 at most.
pub fn count_left(alloc: Global) -> u32 {
    for left in 0..REFUSED {
        if Box::new(alloc, 0u8).is_err() {
            return left;
        }
    }
    REFUSED
}

/// The name of a call, and what stands after it.
pub fn asked_of(text: &[u8]) -> Option<(&str, Aim)> {
    let text = str::from_utf8(text).ok()?;
    let (name, aim) = text.trim_end().split_once(' ')?;
    match aim {
        "set-up" => Some((name, Aim::SetUp)),
        before => Some((name, Aim::Call(before.parse::<u32>().ok()?))),
    }
}
