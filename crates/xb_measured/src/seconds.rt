// Times in seconds.
ghost use Rattle.std.specs.Prelude.{◌≡◌, IfOk, string_bytes};
ghost use Rattle.xb_measured.specs.Seconds.{seconds_text};

use std::alloc::{AllocError, Global};

/// So many ms in seconds, with three decimals. `Err` says that memory ran out.
pub fn seconds_text(alloc: Global, ms: u64) -> Result<String, AllocError>
    ensures { IfOk result (λ text. string_bytes text ≡ seconds_text ms) }
{
    let seconds = ms / 1000;
    let rest = ms % 1000;
    format!(in alloc; "{seconds}.{rest:03}")
}
