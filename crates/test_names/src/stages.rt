// The four stages, and the route table.
use std::alloc::Global;
use xb_model::{Dialled, Digit, Limits, Mark, On, Order, Plan, PrefixDigits, Row, Signal, Trunk};
use xb_pulse::Pulse;
use xb_register::Register;
use xb_ring::LineStage;
use xb_routes::{Route, RouteFault, RouteTable, Translate};
use xb_sender::Sender;

/// Why a route table is refused.
pub const ROUTE_FAULTS: [RouteFault; 12] = [
    RouteFault::NotToml,
    RouteFault::TooMany,
    RouteFault::Shape(0),
    RouteFault::Code(1),
    RouteFault::Trunk(1),
    RouteFault::Delete(1),
    RouteFault::Prefix(1),
    RouteFault::NothingToKey(1),
    RouteFault::Twice(1),
    RouteFault::Plan,
    RouteFault::Limits(0),
    RouteFault::NoMemory,
];

/// Reads a route table.
pub fn read_table(alloc: Global, text: &[u8]) -> Result<RouteTable, RouteFault> {
    RouteTable::read(alloc, text)
}

/// The route of a number.
pub fn look<'a>(table: &'a RouteTable, digits: &[Digit]) -> Option<&'a Route> {
    table.look(digits)
}

/// What a route says.
pub fn read_route(route: &Route) -> (Trunk, u8, &PrefixDigits) {
    (route.trunk, route.deleted, &route.prefixed)
}

/// What a table says of all its numbers.
pub fn read_rules(table: &RouteTable) -> (Plan, Limits) {
    (table.plan(), table.limits())
}

/// The stages.
pub fn stages(
    limits: Limits,
    plan: Plan,
    table: &RouteTable,
) -> (Pulse, Register, Translate<'_>, Sender) {
    (
        Pulse::new(limits),
        Register::new(plan),
        Translate::new(table),
        Sender::new(),
    )
}

// A stage that takes one kind of item and sends another.
fn is_stage<In, Out, S: LineStage<In = In, Out = Out>>(_stage: &S) {}

/// What each of them takes and sends.
pub fn are_stages(pulse: &Pulse, register: &Register, translate: &Translate<'_>, sender: &Sender) {
    is_stage::<Row, On<Signal>, _>(pulse);
    is_stage::<On<Signal>, On<Dialled>, _>(register);
    is_stage::<On<Dialled>, On<Order>, _>(translate);
    is_stage::<On<Order>, On<Mark>, _>(sender);
}
