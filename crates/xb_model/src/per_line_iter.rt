// Goes over the values of all lines.
ghost use Rattle.std.specs.Prelude.{◌≡◌};
ghost use Rattle.std.specs.Iterator.{YieldsFirstBy, item_count};

use crate::line::LineNo;
use std::marker::Model;

/// Gives each line with its value, the lines ascending. Clauses see what it has left to give.
#[derive(Drop)]
pub struct EachLine<'a, T> {
    // the line of the first of `values`
    pub(crate) number: u16,
    pub(crate) values: &'a [T],
}

impl<'a, T> Model for EachLine<'a, T> {
    ghost use Rattle.std.specs.Prelude.{◌≡◌, ◌+◌, ℕ, List, length};
    ghost use Rattle.std.specs.List.{enumerate_from};
    ghost use Rattle.xb_model.specs.declared.line.TheConstants.{LINES};

    ghost Value = { List (ℕ × T) };

    ghost view = { λ each. enumerate_from each.number each.values.now };

    ghost invariant = { λ each. each.number + length each.values.now ≡ LINES };
}

impl<'a, T> Iterator for EachLine<'a, T> {
    type Item = (LineNo, &'a T);

    ghost next_gives = { YieldsFirstBy (λ item. (item.0, item.1.now)) (λ left. left) };

    ghost remaining = { item_count (λ left. left) };

    fn next(&mut self) -> Option<(LineNo, &'a T)> {
        let (value, values) = self.values.split_first()?;
        let line = LineNo::new(self.number)?;
        self.number += 1;
        self.values = values;
        Some((line, value))
    }
}
