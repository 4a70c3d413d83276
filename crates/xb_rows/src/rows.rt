// The rows of a whole text, and of a reader.
ghost use Rattle.std.specs.Prelude.{◌≡◌, ◌≤◌, IfErr, IfOk, IfSome, length};
ghost use Rattle.xb_rows.specs.declared.scan.TheConstants.{MOST_RECORDS};
ghost use Rattle.xb_rows.specs.RowResults.{AreRowsOf, IsFaultOf, IsReadFaultOf, IsReadToEnd, fault_of_read};

use crate::scan::Scan;
use std::alloc::Global;
use std::io::Read;
use xb_model::{Row, RowFault, RowSource};
use xb_text::{ReadFault, read_whole};

/// The rows of a CSV text, or its first fault: the faults of `Scan`, and `NoMemory` where memory
/// ran out. A text that is in memory already is not copied, as it is by `read_rows`.
pub fn rows_of_text(alloc: Global, text: &[u8]) -> Result<Vec<Row>, RowFault>
    ensures rows { IfOk result (λ rows. AreRowsOf text.now rows.items) }
    ensures few { IfOk result (λ rows. length rows.items ≤ MOST_RECORDS) }
    ensures fault { IfErr result (λ f. IsFaultOf text.now f) }
{
    let mut scan = Scan::new(alloc, text);
    let mut rows = Vec::new(alloc);
    while let Some(row) = scan.next_row()? {
        if rows.push(row).is_err() {
            return Err(RowFault::NoMemory);
        }
    }
    Ok(rows)
}

// Why there are no rows, where the reader was not read to its end.
fn fault_of_read(fault: ReadFault) -> RowFault
    ensures { result ≡ fault_of_read fault }
{
    match fault {
        ReadFault::NoMemory => RowFault::NoMemory,
        ReadFault::Failed | ReadFault::TooLong => RowFault::Read,
    }
}

/// The rows of a reader's bytes, which are read to their end first: `Read` where a read failed, an
/// interrupted one too; else the faults of `Scan`, and `NoMemory` where memory ran out. After any
/// result but `Read` and `NoMemory` the reader stands at its end.
///
/// What the contract says of bytes holds for readers whose bytes contracts know (byte slices); those
/// of a process's standard input are not known.
pub fn read_rows<R: Read>(alloc: Global, reader: &mut R) -> Result<Vec<Row>, RowFault>
    ensures rows { IfSome (R.remaining reader.old) (λ text. IfOk result (λ rows. AreRowsOf text rows.items)) }
    ensures few { IfOk result (λ rows. length rows.items ≤ MOST_RECORDS) }
    ensures fault { IfSome (R.remaining reader.old) (λ text. IfErr result (λ f. IsReadFaultOf text f)) }
    ensures end { IsReadToEnd result (R.remaining reader.new) }
{
    match read_whole(alloc, reader, usize::MAX) {
        Ok(text) => rows_of_text(alloc, text.as_slice()),
        Err(fault) => Err(fault_of_read(fault)),
    }
}
