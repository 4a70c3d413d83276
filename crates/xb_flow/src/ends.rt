// The two ends of a ring.
ghost use Rattle.std.specs.Prelude.{◌≡◌, ◌≤◌, ◌↔◌, [], length, IfOk, IsTrue};
ghost use Rattle.rtrb.specs.Ring.{sent, received, known_free, known_items, producer_capacity, consumer_capacity, IsPair, ProducerLooked, ConsumerLooked};
ghost use Rattle.xb_flow.specs.Rings.{IsRing};
ghost use Rattle.xb_flow.specs.declared.ends.TheConstants.{GREATEST_CAPACITY};

use crate::flow::Flow;
use rtrb::{Consumer, Producer, RingBuffer};
use std::alloc::{AllocError, Global};

/// The greatest capacity of a ring.
pub const GREATEST_CAPACITY: usize = 1_024;

/// The two ends of an empty ring with room for 1 to 1,024 items, an End being one of them; `Err`
/// where memory ran out.
pub fn link<T: Drop>(
    alloc: Global,
    capacity: usize,
) -> Result<(Producer<Flow<T>>, Consumer<Flow<T>>), AllocError>
    requires least { 1 ≤ capacity }
    requires most { capacity ≤ GREATEST_CAPACITY }
    ensures ring { IfOk result (λ ends. IsRing ends.0 ends.1) }
    ensures producer { IfOk result (λ ends. (sent ends.0 ≡ [])
        × (known_free ends.0 ≡ capacity) × (producer_capacity ends.0 ≡ capacity)) }
    ensures consumer { IfOk result (λ ends. (received ends.1 ≡ [])
        × (known_items ends.1 ≡ []) × (consumer_capacity ends.1 ≡ capacity)) }
{
    RingBuffer::new(alloc, capacity)
}

/// Looks at both ends of a ring: the consumer then knows of every item that was sent and not
/// received. It returns how many those are, and changes neither list.
pub fn look_at_both<T>(producer: &mut Producer<T>, consumer: &mut Consumer<T>) -> usize
    requires { IsPair producer.old consumer.old }
    ensures producer { ProducerLooked producer.old producer.new }
    ensures consumer { ConsumerLooked consumer.old consumer.new }
    ensures ring { IsRing producer.new consumer.new }
    ensures value { result ≡ length (known_items consumer.new) }
{
    consumer.slots_beside(producer)
}

/// Whether all that was sent was received, for the two ends of one ring. It changes neither list.
pub fn drained<T>(producer: &mut Producer<Flow<T>>, consumer: &mut Consumer<Flow<T>>) -> bool
    requires { IsPair producer.old consumer.old }
    ensures producer { ProducerLooked producer.old producer.new }
    ensures consumer { ConsumerLooked consumer.old consumer.new }
    ensures value { IsTrue result ↔ (received consumer.new ≡ sent producer.new) }
{
    look_at_both(producer, consumer) == 0
}
