// The route table before the rows of a deck.
ghost use Rattle.std.specs.Prelude.{◌≡◌, IfErr, IfOk, OnOk, Some, option_map};
ghost use Rattle.xb_loop.specs.Tables.{IsBeforeRows, IsFaultOfRoutes, IsFaultOfTable, IsReleaseOf, table_ended};

use crate::fault::LoopFault;
use std::alloc::{AllocError, Global};
use xb_command::Files;
use xb_model::Limits;
use xb_routes::{RouteFault, RouteTable};

// Adds what stands between a table and the rows: the end of its last line, and a line `---`.
fn end_table(text: &mut Vec<u8>) -> Result<(), AllocError>
    ensures { OnOk result (text.new.items ≡ table_ended text.old.items) }
{
    if !text.is_empty() && !text.ends_with(b"\n") {
        text.push(b'\n')?;
    }
    text.extend_from_slice(b"---\n")?;
    Ok(())
}

// Why no deck begins with a route table that is refused.
fn fault_of_routes<'a>(fault: RouteFault) -> LoopFault<'a>
    ensures { IsFaultOfRoutes fault result }
{
    match fault {
        RouteFault::NoMemory => LoopFault::NoMemory,
        fault => LoopFault::Routes(fault),
    }
}

// The beginning of a deck: a route table, which is judged, and the line that cuts it off; and the release limit of the
// table.
fn deck_beginning<'a, F: Files>(
    alloc: Global,
    files: &F,
    name: &'a str,
) -> Result<(Vec<u8>, u32), LoopFault<'a>>
    ensures text { IfOk result (λ begun. IsBeforeRows (F.bytes files.now) (Some name.now) begun.0.items) }
    ensures release { IfOk result (λ begun. IsReleaseOf (F.bytes files.now) (Some name.now) begun.1) }
    ensures fault { IfErr result (IsFaultOfTable (F.bytes files.now) (Some name.now)) }
{
    let mut text = match files.read(alloc, name) {
        Ok(text) => text,
        Err(error) => return Err(LoopFault::Table(name, error)),
    };
    let limits = match RouteTable::read(alloc, &text) {
        Ok(table) => table.limits(),
        Err(fault) => return Err(fault_of_routes(fault)),
    };
    end_table(&mut text)?;
    Ok((text, limits.release))
}

/// What comes before the rows, the route table of this name and the line that cuts it off, and its release limit in ms.
/// Without a name that is nothing, and the standard limit, and there is no fault.
pub(crate) fn beginning_of<'a, F: Files>(
    alloc: Global,
    files: &F,
    table: Option<&'a str>,
) -> Result<(Vec<u8>, u32), LoopFault<'a>>
    ensures text { IfOk result (λ begun.
        IsBeforeRows (F.bytes files.now) (option_map (λ name. name.now) table.entry) begun.0.items) }
    ensures release { IfOk result (λ begun.
        IsReleaseOf (F.bytes files.now) (option_map (λ name. name.now) table.entry) begun.1) }
    ensures fault { IfErr result (λ fault.
        IsFaultOfTable (F.bytes files.now) (option_map (λ name. name.now) table.entry) fault) }
{
    match table {
        Some(name) => deck_beginning(alloc, files, name),
        None => Ok((Vec::new(alloc), Limits::standard().release)),
    }
}
