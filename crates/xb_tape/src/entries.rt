// The entries of a tape.
ghost use Rattle.std.specs.Prelude.{◌≡◌, position};
ghost use Rattle.xb_model.specs.Keyings.{is_ending};

use xb_model::Mark;

// Gives the entries of marks in order, each up to and with the mark that ends it. Marks after the
// last ending mark belong to no entry.
#[derive(Clone, Copy)]
pub(crate) struct EachEntry<'a> {
    // the marks after the entries given so far
    marks: &'a [Mark],
}

// The entries of marks.
pub(crate) fn entries(marks: &[Mark]) -> EachEntry<'_>
    ensures { result.marks.now ≡ marks.now }
{
    EachEntry { marks }
}

// The place of the first mark that ends an entry.
fn first_ending(marks: &[Mark]) -> Option<usize>
    ensures { result ≡ position is_ending marks.now }
{
    marks.iter().position(|mark| mark.ends())
}

impl<'a> Iterator for EachEntry<'a> {
    ghost use Rattle.std.specs.Iterator.{YieldsFirstRef, item_count};
    ghost use Rattle.xb_model.specs.Tapes.{entries_of};

    type Item = &'a [Mark];

    ghost next_gives = { YieldsFirstRef (λ each. entries_of each.marks.now) };

    ghost remaining = { item_count (λ each. entries_of each.marks.now) };

    fn next(&mut self) -> Option<&'a [Mark]> {
        let last = first_ending(self.marks)?;
        let (entry, rest) = self.marks.split_at(last + 1);
        self.marks = rest;
        Some(entry)
    }
}
