// The calls of a text.
ghost use Rattle.std.specs.Prelude.{◌≡◌, ◌≤◌, Ok, IfOk, IfErr, IfSome, OnOk, length};
ghost use Rattle.xb_calls.specs.CallTexts.{IsFaultOf, calls_from, calls_of_text};
ghost use Rattle.xb_calls.specs.Heard.{AreComplete};
ghost use Rattle.xb_calls.specs.TextLines.{StopsBy, TakesLine};

use crate::call::Call;
use crate::call_line::call_of_line;
use crate::fault::CallFault;
use crate::text_line::{is_passed_over, strip_carriage_return, without_mark};
use std::alloc::Global;
use xb_model::Plan;
use xb_text::first_piece;

/// The most bytes of a text of calls (own limit).
pub const MOST_TEXT_BYTES: usize = 16_777_216;

// Puts the call of text line `n` after the earlier ones, unless the line is passed over.
fn take_line(
    alloc: Global,
    whole: Option<Plan>,
    n: u32,
    line: &[u8],
    calls: &mut Vec<Call>,
) -> Result<(), CallFault>
    ensures taken { OnOk result (TakesLine whole n line.now calls.old.items calls.new.items) }
    ensures fault { IfErr result (λ f. StopsBy whole n line.now f) }
{
    if is_passed_over(line) {
        return Ok(());
    }
    let call = call_of_line(alloc, whole, n, line)?;
    if calls.push(call).is_err() {
        return Err(CallFault::NoMemory);
    }
    Ok(())
}

/// The calls of a text, one in each text line, or its first fault: the line, a blank, and the digits, which may be
/// grouped by blanks and hyphens, as `7 234-5678`. Blanks are spaces and tabs, and may stand before the line too. A
/// text line ends at LF or at the end of the text, and one CR before that end is dropped; it is passed over where
/// nothing follows its blanks, or a `#`. A byte order mark at the beginning of the text is dropped. With a plan each
/// number has to be complete by it, and may not go on after that.
pub fn calls_of_text(
    alloc: Global,
    text: &[u8],
    whole: Option<Plan>,
) -> Result<Vec<Call>, CallFault>
    requires { length text.now ≤ MOST_TEXT_BYTES }
    ensures calls { IfOk result (λ calls. calls_of_text whole text.now ≡ Ok calls.items) }
    ensures fault { IfErr result (λ f. IsFaultOf (calls_of_text whole text.now) f) }
    ensures complete { IfOk result (λ calls. IfSome whole (λ plan. AreComplete plan calls.items)) }
{
    let mut calls = Vec::new(alloc);
    let mut n = 0;
    let plain = without_mark(text);
    let mut left = Some(plain);
    while let Some(lines) = left {
        let (line, later) = first_piece(b'\n', lines);
        n += 1;
        take_line(alloc, whole, n, strip_carriage_return(line), &mut calls)?;
        left = later;
    }
    Ok(calls)
}
