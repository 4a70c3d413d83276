// The posts from rows to orders.
ghost use Rattle.std.specs.Prelude.{◌≡◌, ◌≤◌, [], List, Option, IfOk, true};
ghost use Rattle.rtrb.specs.Ring.{received};
ghost use Rattle.xb_closes.specs.Fed.{fed};
ghost use Rattle.xb_flow.specs.Flows.{flow_of};
ghost use Rattle.xb_flow.specs.declared.ends.TheConstants.{GREATEST_CAPACITY};
ghost use Rattle.xb_model.specs.Rows.{LoopRow};
ghost use Rattle.xb_model.specs.declared.fault.RowFault.{RowFault as Fault};
ghost use Rattle.xb_posts.specs.Feeds.{to_come};
ghost use Rattle.xb_run.specs.Posts.{IsBlankStation};
ghost use Rattle.xb_run.specs.Laws.{KeepsImage};
ghost use Rattle.xb_run.specs.Made.{IsOriginating};
ghost use Rattle.xb_run.specs.Rings.{IsNewRing};

use rtrb::Consumer;
use std::alloc::{AllocError, Global};
use xb_flow::{Flow, link};
use xb_model::{LineStage, On, Order, Row, RowSource};
use xb_posts::Feed;
use xb_pulse::Pulse;
use xb_register::Register;
use xb_routes::{RouteTable, Translate};
use xb_station::Station;

// The posts from rows to orders, and the end by which the orders are received. The chain is linked in two
// halves: one function that owns all posts so far at each of eight early returns takes over two minutes.
#[derive(Drop)]
pub(crate) struct Originating<'t, S: RowSource> {
    pub(crate) feed: Feed<S>,
    pub(crate) pulse: Station<Pulse>,
    pub(crate) register: Station<Register>,
    pub(crate) translate: Station<Translate<'t>>,
    pub(crate) orders: Consumer<Flow<On<Order>>>,
}

// A feed of the source, on a new ring of this capacity, and the other end of that; `Err` where memory
// ran out.
fn link_feed<S: RowSource + Drop>(
    alloc: Global,
    source: S,
    ring: usize,
) -> Result<(Feed<S>, Consumer<Flow<Row>>), AllocError>
    requires least { 1 ≤ ring }
    requires most { ring ≤ GREATEST_CAPACITY }
    ensures rest { IfOk result (λ made. made.0.rest ≡ S.rest source) }
    ensures fresh { IfOk result (λ made. made.0.held ≡ []) }
    ensures to_come { IfOk result (λ made. (rows : List LoopRow) (stop : Option Fault) →
        to_come made.0 rows stop ≡ flow_of (fed rows stop) true) }
    ensures ring { IfOk result (λ made. IsNewRing ring made.0.producer made.1) }
{
    let (output, input) = link(alloc, ring)?;
    let feed = Feed::new(alloc, source, output)?;
    Ok((feed, input))
}

/// A station of the stage, from this end to a new ring of this capacity, and the other end of that;
/// `Err` where memory ran out.
pub(crate) fn link_stage<S: LineStage + Drop>(
    alloc: Global,
    stage: S,
    input: Consumer<Flow<S::In>>,
    ring: usize,
) -> Result<(Station<S>, Consumer<Flow<S::Out>>), AllocError>
    requires received { received input ≡ [] }
    requires least { 1 ≤ ring }
    requires most { ring ≤ GREATEST_CAPACITY }
    ensures stage { IfOk result (λ made. made.0.stage ≡ stage) }
    ensures input { IfOk result (λ made. made.0.consumer ≡ input) }
    ensures blank { IfOk result (λ made. IsBlankStation made.0) }
    ensures lawful { IfOk result (λ made. KeepsImage S.In.line_of (S.machine made.0.stage) made.0) }
    ensures ring { IfOk result (λ made. IsNewRing ring made.0.producer made.1) }
{
    let (output, next) = link(alloc, ring)?;
    let station = Station::new(alloc, stage, input, output)?;
    Ok((station, next))
}

// The posts from rows to orders, on new rings of this capacity; `Err` where memory ran out.
pub(crate) fn link_originating<'t, S: RowSource + Drop>(
    alloc: Global,
    source: S,
    table: &'t RouteTable,
    ring: usize,
) -> Result<Originating<'t, S>, AllocError>
    requires least { 1 ≤ ring }
    requires most { ring ≤ GREATEST_CAPACITY }
    ensures { IfOk result (λ made. IsOriginating made.feed made.pulse made.register made.translate
        made.orders (S.rest source) table.now ring) }
{
    let (feed, rows) = link_feed(alloc, source, ring)?;
    let (pulse, signals) = link_stage(alloc, Pulse::new(table.limits()), rows, ring)?;
    let (register, dialled) = link_stage(alloc, Register::new(table.plan()), signals, ring)?;
    let (translate, orders) = link_stage(alloc, Translate::new(table), dialled, ring)?;
    Ok(Originating {
        feed,
        pulse,
        register,
        translate,
        orders,
    })
}
