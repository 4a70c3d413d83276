// Laws of images, and of what is dealt and merged.
ghost use Rattle.std.specs.Prelude.{◌≡◌, ℕ, ◌<◌, ◌==◌, List, [], ◌∷◌, ◌++◌, map, Bool, true, if◌then◌else◌};
ghost use mathlib.Core.List.{IsPrefix};
ghost use Rattle.std.specs.List.{flat_map};
ghost use Rattle.std.specs.declared.alloc.Global.{Global};
ghost use Rattle.rtrb.specs.declared.producer.Producer.{Producer};
ghost use Rattle.rtrb.specs.declared.consumer.Consumer.{Consumer};
ghost use Rattle.rtrb.specs.declared.AnyItems.{AnyItems};
ghost use Rattle.rtrb.specs.Ring.{IsPair, SameProducer, SameConsumer};
ghost use Rattle.xb_model.specs.declared.line.LineNo.{LineNo};
ghost use Rattle.xb_model.specs.declared.on.On.{On};
ghost use Rattle.xb_model.specs.Lines.{on_line_of};
ghost use Rattle.xb_model.specs.Image.{image};
ghost use Rattle.xb_model.specs.OnLines.{on_line};
ghost use Rattle.xb_model.specs.Stateless.{stateless};
ghost use Rattle.xb_branches.specs.declared.branches.TheConstants.{MOST_BRANCHES};
ghost use Rattle.xb_flow.specs.declared.ends.TheConstants.{GREATEST_CAPACITY};
ghost use Rattle.xb_flow.specs.declared.flow.Flow.{Flow};
ghost use Rattle.xb_flow.specs.declared.flow.Flow.TheVariants.{Item, End};
ghost use Rattle.xb_flow.specs.Flows.{items_of, has_end, flow_of};
ghost use Rattle.xb_station.specs.FlowImages.{flow_image};
ghost use Rattle.xb_branches.specs.Dealt.{dealt};
ghost use Rattle.xb_branches.specs.Merged.{merged, IsPiece};

use xb_flow::Ending;
use xb_model::LineStage;

/// How many branches there may be, and how much room a ring may have.
pub fn constants()
    ensures most_branches { MOST_BRANCHES ≡ 8 }
    ensures greatest_capacity { GREATEST_CAPACITY ≡ 1024 }
{}

/// An End gives one End and closes the image: what comes after it counts for nothing.
pub fn end_closes<S: LineStage>()
    ensures { (stage : S) (items : List S.In) (rest : List (Flow S.In)) →
        flow_image S.In.line_of (S.machine stage) (map Item items ++ End ∷ rest)
        ≡ map Item (image S.In.line_of (S.machine stage) items) ++ End ∷ [] }
{}

/// Of what is sent in all, what was sent so far is the beginning; with the End it is all of it.
pub fn sent_so_far<T>()
    ensures beginning { (outs rest : List (Flow T)) (items : List T) (ended : Bool) →
        outs ++ rest ≡ flow_of items ended → IsPrefix (items_of outs) items }
    ensures whole { (outs rest : List (Flow T)) (items : List T) (ended : Bool) →
        outs ++ rest ≡ flow_of items ended → has_end outs ≡ true →
        (items_of outs ≡ items) × (ended ≡ true) }
{}

/// The ends of one ring stay the ends of one ring, whatever goes through it.
pub fn pair_stays<T>()
    ensures { (p q : Producer T Global AnyItems) (c d : Consumer T Global AnyItems) →
        SameProducer p q → SameConsumer c d → IsPair p c → IsPair q d }
{}

/// The image of a prefix is a prefix of the image, with and without the End.
pub fn prefix_of_image<S: LineStage>()
    ensures items { (stage : S) (part whole : List S.In) → IsPrefix part whole →
        IsPrefix (image S.In.line_of (S.machine stage) part) (image S.In.line_of (S.machine stage) whole) }
    ensures flow { (stage : S) (part whole : List (Flow S.In)) → IsPrefix part whole →
        IsPrefix (flow_image S.In.line_of (S.machine stage) part)
        (flow_image S.In.line_of (S.machine stage) whole) }
{}

/// Where each item gives one piece, merging what the dealt items give is what all items give.
pub fn merged_is_whole<I, O: Ending>()
    ensures { (n : ℕ) (f : I → List O) (items : List I) → 0 < n →
        ((item : I) → IsPiece O.ending (f item)) →
        merged O.ending n (λ j. flat_map f (dealt n j items)) ≡ flat_map f items }
{}

/// The same of a stage that keeps no state: where it sends one piece for each item, merging the
/// images of the dealt items gives the image of all.
pub fn merged_images<A, B>()
    ensures { (ends : On B → Bool) (n : ℕ) (f : A → List B) (items : List (On A)) → 0 < n →
        ((line : LineNo) (what : A) → IsPiece ends (on_line line (f what))) →
        merged ends n (λ j. image on_line_of (stateless f) (dealt n j items))
        ≡ image on_line_of (stateless f) items }
{}

/// Merging prefixes gives a prefix.
pub fn prefix_of_merged<O: Ending>()
    ensures { (n : ℕ) (parts lists : ℕ → List O) → 0 < n →
        ((j : ℕ) → j < n → IsPrefix (parts j) (lists j)) →
        IsPrefix (merged O.ending n parts) (merged O.ending n lists) }
{}

/// What is dealt of three items to two outputs, and what is merged of two lists in which 0 ends a
/// piece: up to and with a piece that is not ended, and nothing after a piece that is missing.
pub fn small_lists()
    ensures dealt_first { dealt {X = ℕ} 2 0 (7 ∷ 8 ∷ 9 ∷ []) ≡ 7 ∷ 9 ∷ [] }
    ensures dealt_second { dealt {X = ℕ} 2 1 (7 ∷ 8 ∷ 9 ∷ []) ≡ 8 ∷ [] }
    ensures unfinished { merged (λ x. x == 0) 2 (λ j. if j == 0 then 5 ∷ 0 ∷ 7 ∷ [] else 6 ∷ 0 ∷ [])
        ≡ 5 ∷ 0 ∷ 6 ∷ 0 ∷ 7 ∷ [] }
    ensures missing { merged (λ x. x == 0) 2 (λ j. if j == 0 then [] else 6 ∷ 0 ∷ []) ≡ [] }
{}
