// The branches between a deal and a gather.
ghost use Rattle.std.specs.Prelude.{◌≤◌, IfOk};
ghost use Rattle.xb_flow.specs.declared.ends.TheConstants.{GREATEST_CAPACITY};
ghost use Rattle.xb_run.specs.Rings.{AreBranches};

use crate::originating::link_stage;
use rtrb::{Consumer, Producer};
use std::alloc::{AllocError, Global};
use xb_flow::{Flow, link};
use xb_model::{Mark, On, Order};
use xb_sender::Sender;
use xb_station::Station;

// The outputs of a deal, the senders after them, and the inputs of a gather.
#[derive(Drop)]
pub(crate) struct Branches {
    pub(crate) outputs: Vec<Producer<Flow<On<Order>>>>,
    pub(crate) senders: Vec<Station<Sender>>,
    pub(crate) inputs: Vec<Consumer<Flow<On<Mark>>>>,
}

// So many branches, on new rings of this capacity; `Err` where memory ran out.
pub(crate) fn link_branches(
    alloc: Global,
    count: usize,
    ring: usize,
) -> Result<Branches, AllocError>
    requires least { 1 ≤ ring }
    requires most { ring ≤ GREATEST_CAPACITY }
    ensures { IfOk result (λ all. AreBranches count ring all.outputs.items all.senders.items
        all.inputs.items) }
{
    let mut outputs = Vec::with_capacity(alloc, count)?;
    let mut senders = Vec::with_capacity(alloc, count)?;
    let mut inputs = Vec::with_capacity(alloc, count)?;
    for _branch in 0..count {
        let (output, orders) = link(alloc, ring)?;
        let (sender, input) = link_stage(alloc, Sender::new(), orders, ring)?;
        outputs.push_reserved(output);
        senders.push_reserved(sender);
        inputs.push_reserved(input);
    }
    Ok(Branches {
        outputs,
        senders,
        inputs,
    })
}
