// The runs of rows.
ghost use Rattle.std.specs.Prelude.{◌≡◌, ◌≤◌, ◌<◌, ◌+◌, ◌-◌, ◌*◌, ◌^◌, ◌++◌, ◌∷◌, IfOk, List, min};
ghost use Rattle.xb_contact.specs.declared.hold.Hold.{Hold};
ghost use Rattle.xb_contact.specs.Holds.{join, runs_of};
ghost use Rattle.xb_dial.specs.Runs.{hold_of_row, level_in, runs_in, us_in};

use std::alloc::{AllocError, Global};
use xb_contact::{Hold, Level};
use xb_model::{Contact, Row};

/// For how many ms the contact is open before the rows, and again after them.
pub(crate) const IDLE_MS: u32 = 1_000;

// How many us a ms has.
pub(crate) const US_OF_MS: u32 = 1_000;

// How long the recording of rows is, in us; 2^64 - 1 where it is longer.
pub(crate) fn us_in(rows: &[Row]) -> u64
    ensures { result ≡ min (us_in rows.now) (2 ^ 64 - 1) }
{
    let mut us = 2 * u64::from(IDLE_MS) * u64::from(US_OF_MS);
    for row in rows {
        us = us.saturating_add(u64::from(row.ms()) * u64::from(US_OF_MS));
    }
    us
}

// The level of a contact: closed in a make, else open.
fn level_in(contact: Contact) -> Level
    ensures { result ≡ level_in contact }
{
    match contact {
        Contact::Make => Level::Closed,
        Contact::Brk | Contact::Close => Level::Open,
    }
}

// What a row says, in ms.
fn hold_of_row(row: &Row) -> Hold
    ensures { result ≡ hold_of_row row.now }
{
    Hold {
        level: level_in(row.contact()),
        ticks: u64::from(row.ms()),
    }
}

// A hold after the last run, which grows longer by it, or stands among the runs before, and the hold is the last.
fn last_after(runs: &mut Vec<Hold>, last: Hold, hold: Hold) -> Result<Hold, AllocError>
    requires { last.ticks + hold.ticks < 2 ^ 64 }
    ensures runs { IfOk result (λ next. (later : List Hold) →
        runs.old.items ++ join last (runs_of (hold ∷ later)) ≡ runs.new.items ++ join next (runs_of later)) }
    ensures within { IfOk result (λ next. next.ticks ≤ last.ticks + hold.ticks) }
{
    if hold.ticks == 0 {
        return Ok(last);
    }
    if last.level == hold.level {
        return Ok(Hold {
            level: last.level,
            ticks: last.ticks + hold.ticks,
        });
    }
    runs.push(last)?;
    Ok(hold)
}

// The runs of the contact that dials rows, in ms.
pub(crate) fn runs_in(alloc: Global, rows: &[Row]) -> Result<Vec<Hold>, AllocError>
    requires { us_in rows.now < 2 ^ 64 }
    ensures { IfOk result (λ runs. runs.items ≡ runs_in rows.now) }
{
    let on_hook = Hold {
        level: Level::Open,
        ticks: u64::from(IDLE_MS),
    };
    let mut runs = Vec::new(alloc);
    let mut last = on_hook;
    for row in rows {
        last = last_after(&mut runs, last, hold_of_row(row))?;
    }
    last = last_after(&mut runs, last, on_hook)?;
    runs.push(last)?;
    Ok(runs)
}
