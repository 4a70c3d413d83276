// Rows that are joined to runs.
ghost use Rattle.std.specs.Prelude.{◌≡◌, ◌+◌, ◌≤◌, ◌<◌, ◌^◌, ◌∷◌, List, OnOk};
ghost use Rattle.xb_model.specs.declared.row.TheConstants.{GREATEST_MS};
ghost use Rattle.xb_model.specs.Records.{same_contact};
ghost use Rattle.xb_model.specs.Rows.{LoopRow};
ghost use Rattle.xb_heard.specs.declared.run.PlacedRun.{PlacedRun as OneRun};
ghost use Rattle.xb_heard.specs.PlacedRuns.{end_of, joined_after, placed, runs_after};

use crate::run::PlacedRun;
use std::alloc::AllocError;
use xb_model::{Contact, Row};

/// Whether two contacts are the same.
pub(crate) fn same_contact(one: Contact, other: Contact) -> bool
    ensures { result ≡ same_contact one other }
{
    match (one, other) {
        (Contact::Make, Contact::Make) => true,
        (Contact::Brk, Contact::Brk) => true,
        (Contact::Close, Contact::Close) => true,
        _ => false,
    }
}

// Takes a run that begins where the last one ends: it lengthens that one, or follows it.
fn take_run(
    runs: &mut Vec<PlacedRun>,
    contact: Contact,
    ms: u64,
    first_record: u32,
) -> Result<(), AllocError>
    requires { end_of runs.old.items + ms < 2 ^ 64 }
    ensures joined { OnOk result ((more : List OneRun) →
        joined_after runs.new.items more
        ≡ joined_after runs.old.items (placed contact ms (end_of runs.old.items) first_record ∷ more)) }
    ensures end { OnOk result (end_of runs.new.items ≡ end_of runs.old.items + ms) }
{
    let mut start = 0;
    if let Some(last) = runs.last_mut() {
        if same_contact(last.contact, contact) {
            last.ms += ms;
            return Ok(());
        }
        start = last.start + last.ms;
    }
    runs.push(PlacedRun {
        contact,
        ms,
        start,
        first_record,
    })?;
    Ok(())
}

// Takes a row of the line whose runs these are, the record of that number: after a close of the line rows
// add nothing.
pub(crate) fn take_row(
    runs: &mut Vec<PlacedRun>,
    closed: &mut bool,
    row: Row,
    number: u32,
) -> Result<(), AllocError>
    requires { end_of runs.old.items + GREATEST_MS < 2 ^ 64 }
    ensures runs { OnOk result ((rows : List LoopRow) →
        runs_after runs.new.items closed.new row.line (number + 1) rows
        ≡ runs_after runs.old.items closed.old row.line number (row ∷ rows)) }
    ensures end { OnOk result (end_of runs.new.items ≤ end_of runs.old.items + GREATEST_MS) }
{
    let contact = row.contact();
    let ms = row.ms();
    if contact == Contact::Close {
        *closed = true;
    } else if !*closed && ms > 0 {
        take_run(runs, contact, u64::from(ms), number)?;
    }
    Ok(())
}
