// All posts, and the rings between them.
ghost use Rattle.std.specs.Prelude.{◌≤◌, IfOk};
ghost use Rattle.xb_branches.specs.declared.branches.TheConstants.{MOST_BRANCHES};
ghost use Rattle.xb_flow.specs.declared.ends.TheConstants.{GREATEST_CAPACITY};
ghost use Rattle.xb_run.specs.Chains.{posts_of, IsChain};

use crate::originating::{Originating, link_originating};
use crate::outgoing::link_outgoing;
use std::alloc::{AllocError, Global};
use xb_branches::{Deal, Gather};
use xb_model::{Mark, On, Order, RowSource};
use xb_posts::{Feed, TapeStation};
use xb_pulse::Pulse;
use xb_register::Register;
use xb_routes::{RouteTable, Translate};
use xb_sender::Sender;
use xb_station::Station;

/// All posts of the chain, from the rows of a source to the tapes, with rings between them.
#[derive(Drop)]
pub struct Chain<'t, S: RowSource> {
    /// Sends the rows of the source.
    pub feed: Feed<S>,
    /// Makes signals of rows.
    pub pulse: Station<Pulse>,
    /// Makes numbers of signals.
    pub register: Station<Register>,
    /// Makes orders of numbers.
    pub translate: Station<Translate<'t>>,
    /// Deals the orders to the senders in turn.
    pub deal: Deal<On<Order>>,
    /// Make marks of orders, each of those that were dealt to it.
    pub senders: Vec<Station<Sender>>,
    /// Merges the marks of the senders.
    pub gather: Gather<On<Mark>>,
    /// Keeps the marks.
    pub tape: TapeStation,
}

impl<'t, S: RowSource + Drop> Chain<'t, S> {
    /// The chain of a source and a route table, with 1 to 8 senders, on new rings with room for 1 to
    /// 1,024 items each. Nothing was sent or received; `Err` where memory ran out.
    pub fn link(
        alloc: Global,
        source: S,
        table: &'t RouteTable,
        senders: usize,
        ring: usize,
    ) -> Result<Chain<'t, S>, AllocError>
        requires senders_least { 1 ≤ senders }
        requires senders_most { senders ≤ MOST_BRANCHES }
        requires ring_least { 1 ≤ ring }
        requires ring_most { ring ≤ GREATEST_CAPACITY }
        ensures { IfOk result (λ chain. IsChain (posts_of chain) (S.rest source) table.now senders ring) }
    {
        let first = link_originating(alloc, source, table, ring)?;
        let Originating {
            feed,
            pulse,
            register,
            translate,
            orders,
        } = first;
        let rest = link_outgoing(alloc, orders, senders, ring)?;
        Ok(Chain {
            feed,
            pulse,
            register,
            translate,
            deal: rest.deal,
            senders: rest.senders,
            gather: rest.gather,
            tape: rest.tape,
        })
    }
}
