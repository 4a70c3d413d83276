// Looks at both ends of a ring: the consumer then knows of what was sent.
ghost use Rattle.std.specs.Prelude.{◌≡◌, [], IfOk};
ghost use Rattle.rtrb.specs.Ring.{received, IsPair};

use crate::rings::items::push;
use crate::rings::numbered::{Numbered, on};
use crate::rings::stages::Pairs;
use rtrb::Consumer;
use std::alloc::{AllocError, Global};
use std::process::Abort;
use xb_ring::{Deal, Flow, Gather, Sends, Station, Turn, link};

// A station that has sent one item, of which the other end of its output does not know.
fn sent_one(
    rt: &impl Abort,
    alloc: Global,
) -> Result<(Station<Pairs>, Consumer<Flow<Numbered>>), AllocError>
    ensures pair { IfOk result (λ ends. IsPair ends.0.producer ends.1) }
    ensures received { IfOk result (λ ends. received ends.1 ≡ []) }
{
    let (mut items, orders) = link(alloc, 1)?;
    let (marks, sent) = link(alloc, 1)?;
    let mut station = Station::new(alloc, Pairs, orders, marks)?;
    push(rt, &mut items, Flow::Item(on(rt, 5, 1)));
    assert_eq!(rt; station.turn(), Turn::Moved);
    assert_eq!(rt; station.turn(), Turn::Moved);
    assert_eq!(rt; sent.cached_slots(), 0);
    Ok((station, sent))
}

// A second station after the first looks at its input.
fn assert_station_looks(
    rt: &impl Abort,
    alloc: Global,
    first: &mut Station<Pairs>,
    of_first: Consumer<Flow<Numbered>>,
) -> Result<(), AllocError>
    requires pair { IsPair first.old.producer of_first }
    requires received { received of_first ≡ [] }
{
    let (marks, _sent) = link(alloc, 1)?;
    let mut second = Station::new(alloc, Pairs, of_first, marks)?;
    second.look(0, first, 0);
    let (input, _marks) = second.into_ends();
    assert_eq!(rt; input.cached_slots(), 1);
    Ok(())
}

#[test]
fn station_looks_at_its_input(rt: HostRuntime) -> Result<(), AllocError> {
    let (mut first, of_first) = sent_one(&rt, rt.alloc())?;
    assert_station_looks(&rt, rt.alloc(), &mut first, of_first)
}

// A deal after a station looks at its input, and then at its output.
fn assert_deal_looks(
    rt: &impl Abort,
    alloc: Global,
    station: &mut Station<Pairs>,
    input: Consumer<Flow<Numbered>>,
) -> Result<(), AllocError>
    requires pair { IsPair station.old.producer input }
    requires received { received input ≡ [] }
{
    let (output, mut sent) = link(alloc, 1)?;
    let mut deal = Deal::new(input, vec![in alloc; output]?);
    deal.look(0, station, 0);
    assert_eq!(rt; deal.turn(), Turn::Moved);
    assert_eq!(rt; deal.turn(), Turn::Moved);
    deal.look_at(0, &mut sent);
    assert_eq!(rt; sent.cached_slots(), 1);
    Ok(())
}

#[test]
fn deal_looks_at_its_rings(rt: HostRuntime) -> Result<(), AllocError> {
    let (mut station, input) = sent_one(&rt, rt.alloc())?;
    assert_deal_looks(&rt, rt.alloc(), &mut station, input)
}

// A gather after a station looks at its input, and then at its output.
fn assert_gather_looks(
    rt: &impl Abort,
    alloc: Global,
    station: &mut Station<Pairs>,
    input: Consumer<Flow<Numbered>>,
) -> Result<(), AllocError>
    requires pair { IsPair station.old.producer input }
    requires received { received input ≡ [] }
{
    let (output, mut sent) = link(alloc, 1)?;
    let mut gather: Gather<Numbered> = Gather::new(vec![in alloc; input]?, output);
    gather.look(0, station, 0);
    assert_eq!(rt; gather.turn(), Turn::Moved);
    assert_eq!(rt; gather.turn(), Turn::Moved);
    gather.look_at(0, &mut sent);
    assert_eq!(rt; sent.cached_slots(), 1);
    Ok(())
}

#[test]
fn gather_looks_at_its_rings(rt: HostRuntime) -> Result<(), AllocError> {
    let (mut station, input) = sent_one(&rt, rt.alloc())?;
    assert_gather_looks(&rt, rt.alloc(), &mut station, input)
}
