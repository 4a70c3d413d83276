// The ends of several rings.
ghost use Rattle.std.specs.Prelude.{◌≡◌, ℕ, ◌<◌, ◌==◌, ◌↔◌, [], ◌∷◌, ◌++◌, IsTrue, IfOk, OnErr, map, vec_len, slice_index_or, slice_set, if◌then◌else◌};
ghost use Rattle.std.specs.List.{HoldsAt};
ghost use Rattle.std.specs.declared.alloc.Global.{Global};
ghost use Rattle.rtrb.specs.declared.producer.Producer.{Producer};
ghost use Rattle.rtrb.specs.declared.consumer.Consumer.{Consumer};
ghost use Rattle.rtrb.specs.declared.AnyItems.{AnyItems};
ghost use Rattle.rtrb.specs.Ring.{sent, received, known_free, known_items, SameProducer, SameConsumer, ProducerLooked, ConsumerLooked};
ghost use Rattle.xb_flow.specs.Rings.{IsPairAt, IsRingAt, ProducersLooked, ConsumerLookedAt};
ghost use Rattle.xb_branches.specs.DealSteps.{next_place};

use rtrb::{Consumer, PopError, Producer};
use xb_flow::{Flow, Sends, look_at_both};

/// The most outputs of a deal, and the most inputs of a gather.
pub const MOST_BRANCHES: usize = 8;

// The place after a place, of `len` in turn.
pub(crate) fn after(place: usize, len: usize) -> usize
    requires { place < len }
    ensures { result ≡ next_place len place }
{
    if place + 1 < len { place + 1 } else { 0 }
}

// Whether an output has no room.
pub(crate) fn is_full_at<T>(producers: &mut Vec<Producer<T>>, place: usize) -> bool
    requires { place < vec_len producers.old }
    ensures looked { (j : ℕ) (p : Producer T Global AnyItems) → j < vec_len producers.old →
        ProducerLooked (slice_index_or producers.old.items j p) (slice_index_or producers.new.items j p) }
    ensures len { vec_len producers.new ≡ vec_len producers.old }
    ensures value { (p : Producer T Global AnyItems) →
        IsTrue result ↔ (known_free (slice_index_or producers.new.items place p) ≡ 0) }
{
    let producer = &mut producers[place];
    producer.is_full()
}

// Sends an item to an output that has room.
pub(crate) fn push_at<T>(producers: &mut Vec<Producer<T>>, place: usize, item: T)
    requires in_range { place < vec_len producers.old }
    requires room { (p : Producer T Global AnyItems) →
        0 < known_free (slice_index_or producers.old.items place p) }
    ensures len { vec_len producers.new ≡ vec_len producers.old }
    ensures same { (j : ℕ) (p : Producer T Global AnyItems) → j < vec_len producers.old →
        SameProducer (slice_index_or producers.old.items j p) (slice_index_or producers.new.items j p) }
    ensures sent { (j : ℕ) (p : Producer T Global AnyItems) → j < vec_len producers.old →
        sent (slice_index_or producers.new.items j p)
        ≡ sent (slice_index_or producers.old.items j p) ++ (if place == j then item ∷ [] else []) }
{
    let producer = &mut producers[place];
    producer.push_reserved(item);
}

// Looks at both ends of an output.
pub(crate) fn look_at_output<T>(
    producers: &mut Vec<Producer<T>>,
    place: usize,
    end: &mut Consumer<T>,
)
    requires { IsPairAt producers.old.items place end.old }
    ensures producers { ProducersLooked producers.old.items producers.new.items }
    ensures end { ConsumerLooked end.old end.new }
    ensures ring { IsRingAt producers.new.items place end.new }
{
    let producer = &mut producers[place];
    look_at_both(producer, end);
}

// Takes the next item of an input.
pub(crate) fn pop_at<T>(consumers: &mut Vec<Consumer<T>>, place: usize) -> Result<T, PopError>
    requires { place < vec_len consumers.old }
    ensures len { vec_len consumers.new ≡ vec_len consumers.old }
    ensures same { (j : ℕ) (c : Consumer T Global AnyItems) → j < vec_len consumers.old →
        SameConsumer (slice_index_or consumers.old.items j c) (slice_index_or consumers.new.items j c) }
    ensures ok { IfOk result (λ x. map received consumers.new.items
        ≡ slice_set (map received consumers.old.items) place
        (slice_index_or (map received consumers.old.items) place [] ++ x ∷ [])) }
    ensures empty { OnErr result (map received consumers.new.items ≡ map received consumers.old.items) }
    ensures none { OnErr result ((c : Consumer T Global AnyItems) →
        (known_items (slice_index_or consumers.old.items place c) ≡ [])
        × (known_items (slice_index_or consumers.new.items place c) ≡ [])) }
{
    let consumer = &mut consumers[place];
    consumer.pop()
}

// Looks at both ends of an input, which is output `j` of `up`.
pub(crate) fn look_at_input<T, U: Sends<T>>(
    consumers: &mut Vec<Consumer<Flow<T>>>,
    k: usize,
    up: &mut U,
    j: usize,
)
    requires within { k < vec_len consumers.old }
    requires pair { HoldsAt (λ c. IsPairAt (U.outputs up.old) j c) consumers.old.items k }
    ensures up { U.looked up.old up.new }
    ensures consumers { ConsumerLookedAt consumers.old.items k consumers.new.items }
    ensures ring { HoldsAt (λ c. IsRingAt (U.outputs up.new) j c) consumers.new.items k }
{
    let consumer = &mut consumers[k];
    up.look_at(j, consumer);
}
