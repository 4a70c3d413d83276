// The picture of a line, as a text.
ghost use Rattle.std.specs.Prelude.{◌≡◌, IfOk, map, string_bytes};
ghost use Rattle.xb_heard.specs.Attempts.{attempt_in};
ghost use Rattle.xb_picture.specs.Drawing.{IsPicture, many, skipped};

use crate::picture::{MOST_ATTEMPTS, WIDTH, picture_of};
use crate::sheet::height_of;
use std::alloc::{AllocError, Global};
use xb_heard::HeardAttempt;
use xb_model::{Limits, LineNo};
use xb_svg::push_drawing;

// How many attempts stand before those that are drawn.
fn skipped(attempt: Option<u32>) -> usize
    ensures { result ≡ skipped attempt }
{
    match attempt {
        Some(attempt) => (attempt as usize).saturating_sub(1),
        None => 0,
    }
}

// How many attempts are drawn at most.
fn many(attempt: Option<u32>) -> usize
    ensures { result ≡ many attempt }
{
    match attempt {
        Some(_) => 1,
        None => MOST_ATTEMPTS,
    }
}

/// The picture of attempts of a line, as the text of an SVG element: of the one of this number, from 1, or of
/// the first `MOST_ATTEMPTS`. `Err` says that memory ran out.
pub fn draw_attempts(
    alloc: Global,
    limits: Limits,
    line: LineNo,
    attempt: Option<u32>,
    attempts: &[HeardAttempt],
) -> Result<String, AllocError>
    ensures { IfOk result (λ text. IsPicture limits line attempt
        (map attempt_in attempts.now) (string_bytes text)) }
{
    let sheet = picture_of(
        alloc,
        limits,
        line,
        skipped(attempt),
        many(attempt),
        attempts,
    )?;
    let mut out = String::new(alloc);
    push_drawing(&mut out, WIDTH, height_of(&sheet), &sheet.elements)?;
    Ok(out)
}
