//! Laws of stages: each is the contract of a function that does nothing.
ghost use Rattle.std.specs.Prelude.{◌≡◌, ℕ, List};
ghost use Rattle.std.specs.List.{flat_map};
ghost use Rattle.xb_model.specs.declared.line.LineNo.{LineNo};
ghost use Rattle.xb_model.specs.declared.on.On.{On};
ghost use Rattle.xb_model.specs.Image.{image, image_on};
ghost use Rattle.xb_model.specs.Lines.{of_line, on_line_of};
ghost use Rattle.xb_model.specs.OnLines.{on_line};
ghost use Rattle.xb_model.specs.Stateless.{stateless};
ghost use Rattle.xb_model.specs.declared.stage.TheConstants.{MOST_OUTPUTS, OUTPUT_ROOM};

use crate::stage::LineStage;

/// How many items a stage sends for one item at the most, and the room that it is given for them.
pub fn constants()
    ensures most_outputs { MOST_OUTPUTS ≡ 24 }
    ensures output_room { OUTPUT_ROOM ≡ 24 }
{}

/// The items of a line in an image are the image of the line's items.
pub fn lines_are_apart<S: LineStage>()
    ensures { (stage : S) (l : ℕ) (items : List S.In) →
        of_line S.Out.line_of l (image S.In.line_of (S.machine stage) items)
        ≡ image S.In.line_of (S.machine stage) (of_line S.In.line_of l items) }
{}

/// The items of a line in an image are what one state, handed on from item to item, makes of the
/// line's items.
pub fn one_state_each<S: LineStage>()
    ensures { (stage : S) (l : ℕ) (items : List S.In) →
        of_line S.Out.line_of l (image S.In.line_of (S.machine stage) items)
        ≡ image_on (S.machine stage) (of_line S.In.line_of l items) }
{}

/// A stage that keeps no state sends for each item what it sends for that item alone.
pub fn stateless_lines<A, B>()
    ensures one_line { (f : A → List B) (line : LineNo) (whats : List A) →
        image_on (stateless f) (on_line line whats) ≡ on_line line (flat_map f whats) }
    ensures all_lines { (f : A → List B) (items : List (On A)) →
        image on_line_of (stateless f) items
        ≡ flat_map (λ item. on_line item.line (f item.what)) items }
{}
