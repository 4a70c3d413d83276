// Goes over the tapes of all lines.
ghost use Rattle.std.specs.Iterator.{YieldsFirstBy, item_count};

use std::marker::Model;
use xb_model::{LineNo, Mark, PerLine};

/// Gives each line with its marks, the lines ascending. Clauses see what it has left to give.
#[derive(Drop)]
pub struct EachTape<'a> {
    // the next line
    pub(crate) number: u16,
    pub(crate) lines: &'a PerLine<Vec<Mark>>,
}

impl<'a> Model for EachTape<'a> {
    ghost use Rattle.std.specs.Prelude.{◌≡◌, ℕ, List, map, drop, length};
    ghost use Rattle.std.specs.List.{enumerate_from};
    ghost use Rattle.xb_model.specs.declared.line.TheConstants.{LINES};
    ghost use Rattle.xb_model.specs.declared.mark.Mark.{Mark as TapeMark};

    ghost Value = { List (ℕ × List TapeMark) };

    ghost view = { λ each.
        enumerate_from each.number (drop each.number (map (λ marks. marks.items) each.lines.now)) };

    ghost invariant = { λ each. length each.lines.now ≡ LINES };
}

impl<'a> Iterator for EachTape<'a> {
    type Item = (LineNo, &'a [Mark]);

    ghost next_gives = { YieldsFirstBy (λ item. (item.0, item.1.now)) (λ left. left) };

    ghost remaining = { item_count (λ left. left) };

    fn next(&mut self) -> Option<(LineNo, &'a [Mark])> {
        let line = LineNo::new(self.number)?;
        self.number += 1;
        let marks = self.lines.get(line);
        Some((line, marks.as_slice()))
    }
}
