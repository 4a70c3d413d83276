// Lines.
ghost use Rattle.std.specs.Prelude.{◌≡◌, ◌++◌, OnOk, string_bytes};
ghost use Rattle.std.specs.List.{flat_map};
ghost use Rattle.xb_svg.specs.Elements.{dashed_line_text, line_text, path_text, step_text};

use crate::look::{Ink, ink_text};
use std::alloc::AllocError;

/// A step of a line, to a place.
#[derive(Clone, Copy, Debug, PartialEq, Eq)]
pub enum Step {
    /// To this place, with nothing drawn.
    Move(u64, u64),
    /// Straight to this place.
    Straight(u64, u64),
    /// Across to this place from the left.
    Across(u64),
    /// Up or down to this place from the top.
    Upright(u64),
}

// Puts a step after the text.
fn push_step(out: &mut String, step: Step) -> Result<(), AllocError>
    ensures { OnOk result (string_bytes out.new ≡ string_bytes out.old ++ step_text step) }
{
    match step {
        Step::Move(x, y) => write!(out, "M{x} {y}"),
        Step::Straight(x, y) => write!(out, "L{x} {y}"),
        Step::Across(x) => write!(out, "H{x}"),
        Step::Upright(y) => write!(out, "V{y}"),
    }
}

// Puts the steps of a line after the text.
fn push_steps(out: &mut String, steps: &[Step]) -> Result<(), AllocError>
    ensures { OnOk result (string_bytes out.new ≡ string_bytes out.old ++ flat_map step_text steps.now) }
{
    for step in steps {
        push_step(out, *step)?;
    }
    Ok(())
}

// Puts a line after the text, except its end.
fn push_path(out: &mut String, steps: &[Step], ink: Ink, width: u16) -> Result<(), AllocError>
    ensures { OnOk result (string_bytes out.new ≡ string_bytes out.old ++ path_text steps.now ink width) }
{
    out.push_str("<path d=\"")?;
    push_steps(out, steps)?;
    let stroke = ink_text(ink);
    write!(
        out,
        "\" fill=\"none\" stroke=\"{stroke}\" stroke-width=\"{width}"
    )
}

// Puts a line of this colour, so thick, after the text.
pub(crate) fn push_line(
    out: &mut String,
    steps: &[Step],
    ink: Ink,
    width: u16,
) -> Result<(), AllocError>
    ensures { OnOk result (string_bytes out.new ≡ string_bytes out.old ++ line_text steps.now ink width) }
{
    push_path(out, steps, ink, width)?;
    out.push_str("\"/>\n")
}

/// Puts a dashed line of this colour, so thick, after the text.
pub fn push_dashed_line(
    out: &mut String,
    steps: &[Step],
    ink: Ink,
    width: u16,
) -> Result<(), AllocError>
    ensures { OnOk result (string_bytes out.new
        ≡ string_bytes out.old ++ dashed_line_text steps.now ink width) }
{
    push_path(out, steps, ink, width)?;
    out.push_str("\" stroke-dasharray=\"30 20\"/>\n")
}
