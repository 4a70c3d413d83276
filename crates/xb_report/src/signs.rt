// Faults in words whose signs are marked.
ghost use Rattle.std.specs.Prelude.{◌≡◌, ◌++◌, OnOk, string_bytes};
ghost use Rattle.xb_report.specs.Marked.{fault_marked, spoiler_marked};

use crate::words::{push_fault_with, push_spoiler_with};
use std::alloc::AllocError;
use xb_heard::{PulseFault, Spoiler};
use xb_model::Limits;

/// Puts what is wrong with a run of so many ms after the text, in the words of the report, its signs marked
/// as XML and HTML want them. `Err` says that memory ran out.
pub fn push_marked_fault(
    out: &mut String,
    limits: Limits,
    fault: PulseFault,
    ms: u64,
) -> Result<(), AllocError>
    ensures { OnOk result (string_bytes out.new ≡ string_bytes out.old ++ fault_marked limits fault ms) }
{
    push_fault_with(out, "&lt;", "&gt;", limits, fault, ms)
}

// Puts what spoils a digit after the text, and where, its signs so marked.
pub(crate) fn push_marked_spoiler(
    out: &mut String,
    limits: Limits,
    spoiler: Spoiler,
) -> Result<(), AllocError>
    ensures { OnOk result (string_bytes out.new ≡ string_bytes out.old ++ spoiler_marked limits spoiler) }
{
    push_spoiler_with(out, "&lt;", "&gt;", limits, spoiler)
}
