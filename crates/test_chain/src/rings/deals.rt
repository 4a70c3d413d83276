// Turns of a deal on one thread.
ghost use Rattle.std.specs.Prelude.{◌≤◌};
ghost use Rattle.xb_flow.specs.declared.ends.TheConstants.{GREATEST_CAPACITY};

use crate::rings::gates::{assert_passes, passes_of};
use crate::rings::items::{order, pop_end, pop_order, push};
use rtrb::{Consumer, Producer};
use std::alloc::{AllocError, Global};
use std::process::Abort;
use xb_model::{On, Order};
use xb_ring::{Deal, Flow, Post, Turn, link};

// A deal to two outputs, with the ends that feed it and that it sends to.
#[derive(Drop)]
struct Dealing {
    orders: Producer<Flow<On<Order>>>,
    deal: Deal<On<Order>>,
    first: Consumer<Flow<On<Order>>>,
    second: Consumer<Flow<On<Order>>>,
}

// A deal from a ring of four to two of this capacity.
fn link_deal(alloc: Global, ring: usize) -> Result<Dealing, AllocError>
    requires least { 1 ≤ ring }
    requires most { ring ≤ GREATEST_CAPACITY }
{
    let (orders, input) = link(alloc, 4)?;
    let (output_0, first) = link(alloc, ring)?;
    let (output_1, second) = link(alloc, ring)?;
    Ok(Dealing {
        orders,
        deal: Deal::new(input, vec![in alloc; output_0, output_1]?),
        first,
        second,
    })
}

// Puts three orders into a ring, by which trunk groups 1, 2 and 3 are keyed on, and the End.
fn push_three(rt: &impl Abort, orders: &mut Producer<Flow<On<Order>>>) {
    for trunk in 1..=3 {
        push(rt, orders, order(rt, trunk));
    }
    push(rt, orders, Flow::End);
}

// The next turns of a deal.
fn turns(rt: &impl Abort, deal: &mut Deal<On<Order>>, wanted: &[Turn]) {
    for turn in wanted {
        assert_eq!(rt; deal.turn(), *turn);
    }
}

// The third order waits until the first was taken, and goes where that went.
#[test]
fn bank_of_senders_dealt_in_turn(rt: HostRuntime) -> Result<(), AllocError> {
    let mut post = link_deal(rt.alloc(), 1)?;
    push_three(&rt, &mut post.orders);
    turns(&rt, &mut post.deal, &[Turn::Moved; 5]);
    turns(&rt, &mut post.deal, &[Turn::Blocked]);
    pop_order(&rt, &mut post.first, 1);
    turns(
        &rt,
        &mut post.deal,
        &[Turn::Moved, Turn::Moved, Turn::Blocked],
    );
    pop_order(&rt, &mut post.first, 3);
    pop_order(&rt, &mut post.second, 2);
    Ok(())
}

// Three orders and the End come in, three orders and two Ends go out: nine events and the last turn.
#[test]
fn deals_with_a_pass_for_each_turn(rt: HostRuntime) -> Result<(), AllocError> {
    let mut post = link_deal(rt.alloc(), 3)?;
    push_three(&rt, &mut post.orders);
    let gate = passes_of(Post::Deal);
    post.deal.serve(&rt, &gate);
    assert_passes(&rt, &gate, 10, 3);
    turns(&rt, &mut post.deal, &[Turn::Ended]);
    pop_order(&rt, &mut post.first, 1);
    pop_order(&rt, &mut post.first, 3);
    pop_end(&rt, &mut post.first);
    pop_order(&rt, &mut post.second, 2);
    pop_end(&rt, &mut post.second);
    let (mut input, _outputs) = post.deal.into_ends();
    assert!(rt; input.pop().is_err(), "all was received");
    Ok(())
}
