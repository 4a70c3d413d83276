//! The loop records: a CSV text in, its rows out, whole or one at a time; and rows in, their text out. The
//! module `laws` says what the definitions in `specs/` give, on worked texts and on rows as they are
//! written.
//!
//! - `rows_of_text`: exactly the rows of a text in memory, at most 1,000,000, or its first fault, or that
//!   memory ran out.
//! - `Scan` is a source of the same rows, and stops with the same fault, for good. It reads plain records
//!   without `csv`, which no clause tells: what a text means is what `csv` reads.
//! - `read_rows`, of a reader whose bytes a contract can name: the rows of the text, which then has no
//!   fault, or the text's first fault; a failed read may be returned in place of any other fault.
//! - `RowReader`, of a stream whose bytes a contract can name: the rows of the stream's text, as many as
//!   may follow the header, and then their fault or a failed read, for good. It takes no memory, and tells a
//!   record that can be no row before its end: by its first three fields, where one of them is longer than
//!   4,096 bytes. Else a stream stops as its text does (`laws::streams_are_texts`). Its machine of states is
//!   that of `csv` (`machine`).
//! - `row_of_line`: the row of a text line by itself, without a header before it and without memory: what a text of
//!   the header and this line begins with (`laws::lines_are_records`), and if it has no quote and no CR, what it gives
//!   wherever it stands in the rows of a text (`laws::lines_stand_alone`).
//! - `record_of`: exactly the record of a row. `text_of_rows`: exactly the text of the rows. Rows that are
//!   no more than 1,000,000 are read back of it (`laws::written_rows_are_read`), and it is what a `csv`
//!   writer writes (`written_rows_are_csv`).
#![tactic(auto)]

mod csv_scan;
mod fields;
mod kept;
pub mod laws;
mod machine;
mod place;
mod plain;
mod record;
mod record_reader;
mod row_reader;
mod rows;
mod scan;
mod steps;
mod stream_bytes;
mod stream_steps;
mod text_line;
mod writing;

pub use row_reader::RowReader;
pub use rows::{read_rows, rows_of_text};
pub use scan::{MOST_RECORDS, Scan};
pub use text_line::row_of_line;
pub use writing::{MOST_ROW_BYTES, record_of, text_of_rows};
