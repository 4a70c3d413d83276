// What is told of digits of a push-button telephone.
ghost use Rattle.std.specs.Prelude.{◌≡◌, IfOk, string_bytes};
ghost use Rattle.xb_measured.specs.ButtonLines.{buttons_line};

use crate::seconds::seconds_text;
use std::alloc::{AllocError, Global};

// How many ms a block lasts.
const BLOCK_MS: u64 = 20;

/// The line that tells that such digits sound in so many blocks, and for how long; nothing where there are none. `Err`
/// says that memory ran out.
pub fn buttons_line(alloc: Global, blocks: u64) -> Result<String, AllocError>
    ensures { IfOk result (λ text. string_bytes text ≡ buttons_line blocks) }
{
    if blocks == 0 {
        return Ok(String::new(alloc));
    }
    let seconds = seconds_text(alloc, blocks.saturating_mul(BLOCK_MS))?;
    format!(in alloc;
        "mfrx: digits of a push-button telephone (DTMF) sound for {seconds} s of it\n"
    )
}
