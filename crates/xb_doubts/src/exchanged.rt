// Rows whose makes and breaks are exchanged, as those of a wire that was recorded the wrong way round.
ghost use Rattle.std.specs.Prelude.{◌≡◌, IfOk};
ghost use Rattle.xb_doubts.specs.Exchanged.{dial_limits, exchanged_row, exchanged_rows, other_contact};

use std::alloc::{AllocError, Global};
use xb_model::{Contact, Limits, Row};

/// No half period of a bell lasts so many ms, and each pulse of a dial of 8 to 12 a second does.
pub(crate) const DIAL_MS: u32 = 40;

/// The limits by which no half period of a bell is a pulse.
pub(crate) fn dial_limits(limits: Limits) -> Limits
    ensures { result ≡ dial_limits limits }
{
    Limits {
        pulse_min: limits.pulse_min.max(DIAL_MS),
        ..limits
    }
}

// The other contact of a loop.
fn other_contact(contact: Contact) -> Contact
    ensures { result ≡ other_contact contact }
{
    match contact {
        Contact::Make => Contact::Brk,
        Contact::Brk => Contact::Make,
        Contact::Close => Contact::Close,
    }
}

// A make in place of a break, or a break in place of a make.
fn exchanged_row(row: Row) -> Row
    ensures { result ≡ exchanged_row row }
{
    match Row::new(row.line(), other_contact(row.contact()), row.ms()) {
        Some(other) => other,
        None => row,
    }
}

/// Rows of which each make is a break, and each break a make.
pub(crate) fn exchanged_rows(alloc: Global, rows: &[Row]) -> Result<Vec<Row>, AllocError>
    ensures { IfOk result (λ others. others.items ≡ exchanged_rows rows.now) }
{
    let mut others = Vec::new(alloc);
    for row in rows {
        others.push(exchanged_row(*row))?;
    }
    Ok(others)
}
