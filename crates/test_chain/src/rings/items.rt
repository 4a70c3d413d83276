// Orders and marks, and what is put into rings and taken out of them.
use rtrb::{Consumer, Producer};
use std::process::Abort;
use xb_model::{Digit, KeyDigits, LineNo, Mark, On, Order, Trunk};
use xb_ring::Flow;

// The line of every order.
const LINE: u16 = 5;

// An item on this line.
pub(crate) fn on<T>(rt: &impl Abort, line: u16, what: T) -> Flow<On<T>> {
    let line = LineNo::new(line).expect(rt, "a line");
    Flow::Item(On { line, what })
}

// The order to key digit 0 on this trunk group.
pub(crate) fn order(rt: &impl Abort, trunk: u16) -> Flow<On<Order>> {
    let trunk = Trunk::new(trunk).expect(rt, "a trunk group");
    let zero = Digit::new(0).expect(rt, "a digit");
    let digits = KeyDigits::of(&[zero]).expect(rt, "one digit");
    on(rt, LINE, Order::Key(trunk, digits))
}

// Whether an item is the order to key digit 0 on this trunk group.
fn is_order(item: &Flow<On<Order>>, trunk: u16) -> bool {
    match item {
        Flow::Item(
            On {
                line,
                what: Order::Key(group, digits),
            },
        ) => {
            line.get() == LINE
                && group.get() == trunk
                && matches!(digits.digits(), [zero] if zero.get() == 0)
        }
        _ => false,
    }
}

// Puts an item or the End into a ring.
pub(crate) fn push<T: Drop>(rt: &impl Abort, ring: &mut Producer<Flow<T>>, item: Flow<T>) {
    assert!(rt; ring.push(item).is_ok(), "room in the ring");
}

// The order to key digit 0 on this trunk group comes out of a ring.
pub(crate) fn pop_order(rt: &impl Abort, ring: &mut Consumer<Flow<On<Order>>>, trunk: u16) {
    match ring.pop() {
        Ok(item) => assert!(rt; is_order(&item, trunk), "the order on {trunk}"),
        Err(_) => panic!(rt; "no order on {trunk}"),
    }
}

// This mark on this line comes out of a ring.
pub(crate) fn pop_mark(
    rt: &impl Abort,
    ring: &mut Consumer<Flow<On<Mark>>>,
    line: u16,
    mark: Mark,
) {
    assert_eq!(rt; ring.pop().ok(), Some(on(rt, line, mark)));
}

// The End comes out of a ring, and nothing after it.
pub(crate) fn pop_end<T: Drop>(rt: &impl Abort, ring: &mut Consumer<Flow<T>>) {
    let last = ring.pop();
    assert!(rt; matches!(last, Ok(Flow::End)), "the End");
    assert!(rt; ring.pop().is_err(), "nothing after the End");
}
