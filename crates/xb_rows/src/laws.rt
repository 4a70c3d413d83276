//! What the definitions give: each law is the contract of a function that does nothing.
ghost use Rattle.xb_rows.specs.Constants.{AreConstants};
ghost use Rattle.xb_rows.specs.Streams.{StreamsAreTexts};
ghost use Rattle.xb_rows.specs.TextLines.{LinesAreRecords, LinesStandAlone};
ghost use Rattle.xb_rows.specs.WorkedTexts.{MostRecords, RowsOfTexts};
ghost use Rattle.xb_rows.specs.WrittenRows.{WrittenRowsAreCsv, WrittenRowsAreRead};

/// The most digits of a line and of a time, the most records, and the most bytes of a field that a stream
/// waits for, each as it is.
pub fn constants()
    ensures { AreConstants }
{}

/// The rows of some texts, and the stop after them.
#[tactic(auto, unfolding(csv::proofs::OnLiterals::csv_on_literals, crate::specs::RowTexts::rest_from))]
pub fn rows_of_texts()
    ensures { RowsOfTexts }
{}

/// A stream gives what its text does, but for a record with a long field among its first three that has not
/// three; and where all records of either are rows, they are the same.
#[tactic(auto, using(crate::proofs::StreamRows::streams_are_texts))]
pub fn streams_are_texts()
    ensures { StreamsAreTexts }
{}

/// After 1,000,000 records a further one is the fault.
#[tactic(auto, unfolding(crate::specs::RowTexts::rest_from))]
pub fn most_records()
    ensures { MostRecords }
{}

/// Rows that are written are read, if they are not too many.
#[tactic(auto, using(crate::proofs::WrittenRecords::written_rows_are_read))]
pub fn written_rows_are_read()
    ensures { WrittenRowsAreRead }
{}

/// The text of rows is the one that a `csv` writer writes of them.
#[tactic(auto, using(crate::proofs::CsvTexts::written_rows_are_csv))]
pub fn written_rows_are_csv()
    ensures { WrittenRowsAreCsv }
{}

/// A text without a header is read as the rows of the header and this text begin.
#[tactic(auto, using(crate::proofs::TextLines::lines_are_records))]
pub fn lines_are_records()
    ensures { LinesAreRecords }
{}

/// A text line without quotes gives what it gives by itself, wherever it stands in the rows of a text.
#[tactic(auto, using(crate::proofs::LineRecords::lines_stand_alone))]
pub fn lines_stand_alone()
    ensures { LinesStandAlone }
{}
