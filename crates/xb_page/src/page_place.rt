// Where the reading of a page stands, and the head of the entry that comes next.
ghost use Rattle.std.specs.Prelude.{◌≡◌, ◌<◌, ◌≤◌, ◌+◌, ◌^◌, IfErr, IfOk, IfSome, Err, Ok, drop, option_copied};
ghost use Rattle.xb_model.specs.declared.line.TheConstants.{LINES};
ghost use Rattle.xb_page.specs.Places.{four_digits_of, head_of_fields, head_of_words, line_after, next_number, next_place, number_at, place_with, space, text_line, written};
ghost use Rattle.xb_text.specs.Pieces.{pieces, pieces_left};

use crate::fault::PageFault;
use crate::fields::{four_digits, is_decimal, is_refusal};
use crate::pieces::next_field;
use xb_model::LineNo;

/// The line of the last entry and its number, or the first line that the page may have and 0 before any
/// entry; and how many entries were keyed, and how many refused.
#[derive(Clone, Copy)]
pub(crate) struct PagePlace {
    pub(crate) line: u16,
    pub(crate) entries: usize,
    pub(crate) keyed: usize,
    pub(crate) refused: usize,
}

/// The head of an entry, and the text of the fields that follow, if there are any.
#[derive(Clone, Copy)]
pub(crate) struct Head<'a> {
    pub(crate) line: LineNo,
    pub(crate) number: usize,
    pub(crate) refused: bool,
    pub(crate) rest: Option<&'a [u8]>,
}

// The line that four digits write.
fn line_of_digits(field: &[u8]) -> Option<LineNo>
    ensures { result ≡ four_digits_of field.now }
{
    LineNo::new(four_digits(field)?)
}

impl PagePlace {
    // Before the first entry.
    pub(crate) fn start(line: u16) -> PagePlace
        ensures { result ≡ place_with line 0 0 0 }
    {
        PagePlace {
            line,
            entries: 0,
            keyed: 0,
            refused: 0,
        }
    }

    // The number of the text line here.
    pub(crate) fn text_line(&self) -> usize
        requires { text_line self.now < 2 ^ 64 }
        ensures { result ≡ text_line self.now }
    {
        self.keyed + self.refused + 1
    }

    // The number of the next entry, if it is of this line.
    fn number_at(&self, line: LineNo) -> usize
        requires { self.now.entries + 1 < 2 ^ 64 }
        ensures value { result ≡ number_at self.now line }
        ensures most { result ≤ self.now.entries + 1 }
    {
        if line.get() == self.line {
            self.entries + 1
        } else {
            1
        }
    }

    // The number of the next entry, if the field writes it.
    fn next_number(&self, line: LineNo, field: &[u8]) -> Option<usize>
        requires { self.now.entries + 1 < 2 ^ 64 }
        ensures value { result ≡ next_number self.now line field.now }
        ensures most { IfSome result (λ n. n ≤ self.now.entries + 1) }
    {
        let number = self.number_at(line);
        if is_decimal(field, number) {
            Some(number)
        } else {
            None
        }
    }

    // The head that three fields write, before the rest of their text line.
    fn head_of_words<'a>(
        &self,
        line: &[u8],
        number: &[u8],
        kind: &[u8],
        rest: Option<&'a [u8]>,
    ) -> Result<Head<'a>, PageFault>
        requires lines { text_line self.now < 2 ^ 64 }
        requires entries { self.now.entries + 1 < 2 ^ 64 }
        ensures head { let fields = pieces_left space (option_copied rest.entry) in
            IfOk result (λ head.
            head_of_words self.now line.now number.now kind.now fields ≡ Ok (written head)) }
        ensures fault { let fields = pieces_left space (option_copied rest.entry) in
            IfErr result (λ f. head_of_words self.now line.now number.now kind.now fields ≡ Err f) }
        ensures number { IfOk result (λ head. head.number ≤ self.now.entries + 1) }
    {
        let n = self.text_line();
        let line = line_of_digits(line).ok_or(PageFault::Line(n))?;
        if line.get() < self.line {
            return Err(PageFault::Early(n));
        }
        let number = self.next_number(line, number).ok_or(PageFault::Number(n))?;
        let refused = is_refusal(kind).ok_or(PageFault::Kind(n))?;
        Ok(Head {
            line,
            number,
            refused,
            rest,
        })
    }

    // The head that the text line here writes, or its first fault.
    pub(crate) fn head_of<'a>(&self, text: &'a [u8]) -> Result<Head<'a>, PageFault>
        requires lines { text_line self.now < 2 ^ 64 }
        requires entries { self.now.entries + 1 < 2 ^ 64 }
        ensures head { IfOk result (λ head.
            head_of_fields self.now (pieces space text.now) ≡ Ok (written head)) }
        ensures fault { IfErr result (λ f. head_of_fields self.now (pieces space text.now) ≡ Err f) }
        ensures number { IfOk result (λ head. head.number ≤ self.now.entries + 1) }
    {
        let (line, left) = next_field(Some(text));
        let (number, left) = next_field(left);
        let (kind, rest) = next_field(left);
        self.head_of_words(line, number, kind, rest)
    }

    // The place after an entry.
    pub(crate) fn after(&self, line: LineNo, number: usize, refused: bool) -> PagePlace
        requires { text_line self.now < 2 ^ 64 }
        ensures { result ≡ next_place self.now line number refused }
    {
        PagePlace {
            line: line.get(),
            entries: number,
            keyed: if refused { self.keyed } else { self.keyed + 1 },
            refused: if refused {
                self.refused + 1
            } else {
                self.refused
            },
        }
    }

    // The first line that the next page may have.
    pub(crate) fn line_after(&self) -> u16
        requires most { self.now.line ≤ LINES }
        requires some { 0 < self.now.entries → self.now.line < LINES }
        ensures line { result ≡ line_after self.now }
        ensures most { result ≤ LINES }
    {
        if self.entries == 0 {
            self.line
        } else {
            self.line + 1
        }
    }
}
