// The sender, and the marks that it sends.
ghost use Rattle.std.specs.Prelude.{◌≡◌, ◌+◌, ◌<◌, ◌≤◌, [], ◌∷◌, ◌++◌, map, length};
ghost use Rattle.arrayvec.specs.ArrayVec.{array_vec_len};
ghost use Rattle.xb_model.specs.declared.key.Key.TheVariants.{Digit as DigitKey};
ghost use Rattle.xb_model.specs.Keyings.{tone, marks_of};
ghost use Rattle.xb_model.specs.OnLines.{all_on};
ghost use Rattle.xb_model.specs.declared.stage.TheConstants.{MOST_OUTPUTS};
ghost use Rattle.xb_sender.specs.Laws.{GivesMarks, GivesOneEntryEach};
ghost use Rattle.xb_sender.specs.Machine.{machine};

use arrayvec::ArrayVec;
use xb_model::{Digit, Key, LineStage, MOST_OUTPUTS, Mark, On, Order, mf, send};

// Appends a key with its pair of tones.
fn push_key(marks: &mut ArrayVec<Mark, MOST_OUTPUTS>, key: &Key)
    requires { array_vec_len marks.old < MOST_OUTPUTS }
    ensures items { marks.new.items ≡ marks.old.items ++ tone key.now ∷ [] }
    ensures len { array_vec_len marks.new ≡ array_vec_len marks.old + 1 }
{
    let pair = mf(*key);
    marks.push(Mark::Tone(*key, pair));
}

// Appends each digit with its pair of tones.
fn push_digits(marks: &mut ArrayVec<Mark, MOST_OUTPUTS>, digits: &[Digit])
    requires { array_vec_len marks.old + length digits.now ≤ MOST_OUTPUTS }
    ensures items { marks.new.items ≡ marks.old.items ++ map (λ d. tone (DigitKey d)) digits.now }
    ensures len { array_vec_len marks.new ≡ array_vec_len marks.old + length digits.now }
{
    for digit in digits {
        push_key(marks, &Key::Digit(*digit));
    }
}

/// The marks of an order: to key, the trunk group, KP, the digits and ST, each key with its pair of
/// tones; of a refused attempt, one mark with the reason and the count.
pub fn marks_of(order: &Order) -> ArrayVec<Mark, MOST_OUTPUTS>
    ensures { result.items ≡ marks_of order.now }
{
    let mut marks = ArrayVec::new();
    match order {
        Order::Key(trunk, digits) => {
            marks.push(Mark::Trunk(*trunk));
            push_key(&mut marks, &Key::Kp);
            push_digits(&mut marks, digits.digits());
            push_key(&mut marks, &Key::St);
        }
        Order::Refused(reason, heard) => marks.push(Mark::Refused(*reason, *heard)),
    }
    marks
}

/// The stage that keys orders ("Notes on Distance Dialing"): for each it sends its marks. It keeps no
/// state.
#[derive(Clone, Copy, Debug, Default, PartialEq, Eq)]
pub struct Sender;

impl Sender {
    /// A sender: the one value of this type, which serves all lines. The orders of a line give
    /// their marks, in order, on that line; the marks of each order are one entry of its tape.
    pub fn new() -> Sender
        ensures marks { GivesMarks (⟦<Sender as LineStage>⟧.machine result) }
        ensures entries { GivesOneEntryEach (⟦<Sender as LineStage>⟧.machine result) }
    {
        Sender
    }
}

impl LineStage for Sender {
    type In = On<Order>;

    type Out = On<Mark>;

    type State = ();

    ghost machine = { λ sender. machine };

    ghost on_line = { λ sender state item. all_on item.line (marks_of item.what) };

    fn fresh(&self) {}

    fn step(&self, _state: &mut (), item: On<Order>, out: &mut Vec<On<Mark>>) {
        let On { line, what } = item;
        for mark in marks_of(&what).as_slice() {
            send(line, out, *mark);
        }
    }
}
