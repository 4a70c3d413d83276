// The table of a file.
ghost use Rattle.std.specs.Prelude.{◌≡◌, IfErr, IfOk, Ok};
ghost use Rattle.xb_outgoing.specs.Files.{HasTable, IsFaultOfTable, IsFaultOfText, table_file};
ghost use Rattle.xb_outgoing.specs.Tables.{outgoing_of_text};

use crate::fault::{OutgoingFault, TableFault};
use crate::table::OutgoingTable;
use std::alloc::Global;
use xb_command::{Files, OpenFault, no_text};

// The file of a table: `-` is standard input, which is a file of the system too.
fn table_file(name: &str) -> &str
    ensures { result.now ≡ table_file name.entry.now }
{
    match name {
        "-" => "/dev/stdin",
        name => name,
    }
}

// The table of a text.
fn table_of<'a>(alloc: Global, text: &[u8]) -> Result<OutgoingTable, TableFault<'a>>
    ensures table { IfOk result (λ table. outgoing_of_text text.now ≡ Ok table) }
    ensures fault { IfErr result (IsFaultOfText text.now) }
{
    match OutgoingTable::of_text(alloc, text) {
        Ok(table) => Ok(table),
        Err(OutgoingFault::NoMemory) => Err(TableFault::NoMemory),
        Err(fault) => Err(TableFault::Text(fault)),
    }
}

/// The table of a file, whose name may be `-` for standard input. A file that is sound, or text in UTF-16, is not read.
///
/// What the contract says of bytes it says of files whose bytes are known to contracts.
pub fn read_table<'a, F: Files>(
    alloc: Global,
    files: &F,
    name: &'a str,
) -> Result<OutgoingTable, TableFault<'a>>
    ensures table { IfOk result (HasTable (F.bytes files.now) name.entry.now) }
    ensures fault { IfErr result (IsFaultOfTable (F.bytes files.now) name.entry.now) }
{
    let text = match files.read(alloc, table_file(name)) {
        Ok(text) => text,
        Err(error) => return Err(TableFault::File(OpenFault::System(name, error))),
    };
    match no_text(&text) {
        Some(what) => Err(TableFault::File(OpenFault::NoText(name, what))),
        None => table_of(alloc, &text),
    }
}
