// The posts from orders to tapes.
ghost use Rattle.std.specs.Prelude.{◌≡◌, ◌≤◌, [], IfOk};
ghost use Rattle.rtrb.specs.Ring.{received};
ghost use Rattle.xb_branches.specs.declared.branches.TheConstants.{MOST_BRANCHES};
ghost use Rattle.xb_flow.specs.declared.ends.TheConstants.{GREATEST_CAPACITY};
ghost use Rattle.xb_run.specs.Made.{IsOutgoing};

use crate::branches::link_branches;
use rtrb::Consumer;
use std::alloc::{AllocError, Global};
use xb_branches::{Deal, Gather};
use xb_flow::{Flow, link};
use xb_model::{Mark, On, Order};
use xb_posts::TapeStation;
use xb_sender::Sender;
use xb_station::Station;

// The posts from orders to tapes.
#[derive(Drop)]
pub(crate) struct Outgoing {
    pub(crate) deal: Deal<On<Order>>,
    pub(crate) senders: Vec<Station<Sender>>,
    pub(crate) gather: Gather<On<Mark>>,
    pub(crate) tape: TapeStation,
}

// The posts from orders to tapes, with so many senders, on new rings of this capacity; `Err` where
// memory ran out.
pub(crate) fn link_outgoing(
    alloc: Global,
    orders: Consumer<Flow<On<Order>>>,
    senders: usize,
    ring: usize,
) -> Result<Outgoing, AllocError>
    requires received { received orders ≡ [] }
    requires senders_least { 1 ≤ senders }
    requires senders_most { senders ≤ MOST_BRANCHES }
    requires ring_least { 1 ≤ ring }
    requires ring_most { ring ≤ GREATEST_CAPACITY }
    ensures { IfOk result (λ made. IsOutgoing orders made.deal made.senders.items made.gather made.tape
        senders ring) }
{
    let all = link_branches(alloc, senders, ring)?;
    let (marks, marks_out) = link(alloc, ring)?;
    let tape = TapeStation::new(alloc, marks_out)?;
    let deal = Deal::new(orders, all.outputs);
    let gather = Gather::new(all.inputs, marks);
    Ok(Outgoing {
        deal,
        senders: all.senders,
        gather,
        tape,
    })
}
