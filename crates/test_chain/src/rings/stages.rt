// Small stages.
ghost use Rattle.std.specs.Prelude.{true, false, not, [], ◌∷◌, refl, if◌then◌else◌};

use crate::rings::numbered::Numbered;
use xb_ring::LineStage;

// Sends each item on, and after each second item of a line a 9.
#[derive(Drop)]
pub(crate) struct Pairs;

impl LineStage for Pairs {
    type In = Numbered;

    type Out = Numbered;

    // whether the line's next item is a second one
    type State = bool;

    ghost machine = { λ stage. record {
      start = false;
      next = λ second item. not second;
      outs = λ second item. item ∷ (if second then record { line = item.line; what = 9 } ∷ [] else []);
    } };

    ghost on_line = { λ stage. elim [ true ↦ λ item. (refl, (refl, tt)) | false ↦ λ item. (refl, tt) ] };

    fn fresh(&self) -> bool {
        false
    }

    fn step(&self, second: &mut bool, item: Numbered, out: &mut Vec<Numbered>) {
        let Numbered { line, what } = item;
        out.push_reserved(Numbered { line, what });
        if *second {
            out.push_reserved(Numbered { line, what: 9 });
        }
        *second = !*second;
    }
}

// Sends a piece for each item that is not 0: the item, and then a 0.
#[derive(Drop)]
pub(crate) struct Pieces;

impl LineStage for Pieces {
    type In = Numbered;

    type Out = Numbered;

    type State = ();

    ghost machine = { λ stage. record {
      start = tt;
      next = λ state item. tt;
      outs = λ state item. item ∷ record { line = item.line; what = 0 } ∷ [];
    } };

    ghost on_line = { λ stage state item. (refl, (refl, tt)) };

    fn fresh(&self) {}

    fn step(&self, _state: &mut (), item: Numbered, out: &mut Vec<Numbered>) {
        let Numbered { line, what } = item;
        out.push_reserved(Numbered { line, what });
        out.push_reserved(Numbered { line, what: 0 });
    }
}
