//! What the marks so far are: each law is the contract of a function that does nothing.
ghost use Rattle.std.specs.Prelude.{◌≡◌, ℕ, List};
ghost use Rattle.std.specs.List.{AllByRecursion};
ghost use Rattle.xb_model.specs.declared.mark.Mark.{Mark};
ghost use Rattle.xb_model.specs.declared.on.On.{On};
ghost use Rattle.xb_model.specs.Lines.{row_line};
ghost use Rattle.xb_model.specs.Rows.{LoopRow};
ghost use Rattle.xb_routes.specs.Table.{Table};
ghost use Rattle.xb_model.specs.Image.{image_on};
ghost use Rattle.xb_serial.specs.Chain.{live_machine};
ghost use Rattle.xb_serial.specs.Entrances.{EntrancesAgree};
ghost use Rattle.xb_serial.specs.Office.{Office, HasTaken, marks_of_rows};
ghost use Rattle.xb_serial.specs.Promises.{KeepsPromises};
ghost use Rattle.xb_serial.specs.WorkedRows.{KeyedInTheRowOfItsPause, RefusedInTheRowOfTheTimeOut};
ghost use Rattle.xb_serial.specs.declared.line.TheConstants.{MOST_MARKS};

/// How many marks one row gives at the most.
pub fn constants()
    ensures { MOST_MARKS ≡ 24 }
{}

/// Whatever rows an office has taken, the marks that it has given are those of the chain; on each line
/// they are the first of its tape, whatever rows come later; they are all of it once the line is
/// closed; and while it is open they lack nothing of the tape of the rows so far but the refusal of an
/// attempt that goes on.
pub fn keeps_promises()
    ensures { (office : Office) (rows : List LoopRow) (marks : List (On Mark)) →
        HasTaken office rows marks → KeepsPromises office.table rows marks }
{}

/// On rows of one line the chain is one machine: who hands the line's state on from row to row, beginning
/// with a line before its first row, gets the chain's marks.
pub fn one_state_is_enough()
    ensures { (table : Table) (l : ℕ) (rows : List LoopRow) →
        AllByRecursion (λ row. row_line row ≡ l) rows →
        image_on (live_machine table) rows ≡ marks_of_rows table rows }
{}

/// A line may come in by its rows or by its signals, told one by one: the signals of its whole record give its
/// tape; after any rows, those that they have sent give the marks of the rows, and leave the register as the
/// rows do.
pub fn entrances_agree()
    ensures { (table : Table) → EntrancesAgree table }
{}

/// 234 5678 row by row: no mark until the row that reaches the last digit's pause, and with it all nine.
pub fn keyed_in_the_row_of_its_pause()
    ensures { KeyedInTheRowOfItsPause }
{}

/// A line that does not dial: no mark until the row that reaches the time-out, and with it the refusal.
pub fn refused_in_the_row_of_the_time_out()
    ensures { RefusedInTheRowOfTheTimeOut }
{}
