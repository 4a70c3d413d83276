// Which place of a text its fault is about.
ghost use Rattle.std.specs.Prelude.{◌≡◌, ◌≤◌, ◌<◌, ◌+◌, ◌^◌, OnOk, length};
ghost use Rattle.xb_deck.specs.declared.deck.TheConstants.{MOST_DECK_BYTES};
ghost use Rattle.xb_findings.specs.Sites.{begins_number, begins_text, first_about, first_misfit, is_about, is_about_heading, is_about_key, is_misfit, is_not_toml, is_other_kind, keys_about, limits_about, limits_of_rule, may_begin, route_about, route_here, routes_after, site_of, told_of_fault, told_of_table};
ghost use Rattle.xb_findings.specs.Tallies.{tallied, with_all};
ghost use Rattle.xb_routes.specs.LimitFaults.{limit_fault};

use crate::finding::What;
use crate::near_cuts::push_near_cuts;
use crate::table_places::{finding_at, table_of};
use crate::tally::Tally;
use std::alloc::{AllocError, Global};
use xb_deck::DeckFault;
use xb_keys::{Key, Mark, Section, Spot, key_named, spots_of};
use xb_routes::{LimitFault, RouteFault};

// The limits that a rule of limits is about.
fn limits_about(rule: LimitFault) -> &'static [Key]
    ensures { result.now ≡ limits_about rule }
{
    match rule {
        LimitFault::NotTable => &[Key::Limits],
        LimitFault::PulseMin => &[Key::PulseMin],
        LimitFault::PulseMax => &[Key::PulseMax],
        LimitFault::MakeMin => &[Key::MakeMin],
        LimitFault::Pause => &[Key::Pause],
        LimitFault::Release => &[Key::Release],
        LimitFault::Timeout => &[Key::Timeout],
        LimitFault::PulseMinOverPulseMax => &[Key::PulseMin, Key::PulseMax],
        LimitFault::PulseMaxNotUnderRelease => &[Key::PulseMax, Key::Release],
        LimitFault::MakeMinOverPause => &[Key::MakeMin, Key::Pause],
        LimitFault::PauseNotUnderTimeout => &[Key::Pause, Key::Timeout],
    }
}

// The limits that a fault of limits is about, by the number of the rule.
fn limits_of_number(number: u32) -> &'static [Key]
    ensures { result.now ≡ limits_of_rule (limit_fault number) }
{
    match LimitFault::of_number(number) {
        Some(rule) => limits_about(rule),
        None => &[],
    }
}

// The keys that a fault is about.
fn keys_about(fault: RouteFault) -> &'static [Key]
    ensures { result.now ≡ keys_about fault }
{
    match fault {
        RouteFault::Plan => &[Key::Plan],
        RouteFault::Limits(number) => limits_of_number(number),
        RouteFault::Code(_) | RouteFault::Twice(_) => &[Key::Code],
        RouteFault::Trunk(_) => &[Key::Trunk],
        RouteFault::Delete(_) | RouteFault::NothingToKey(_) => &[Key::Delete],
        RouteFault::Prefix(_) => &[Key::Prefix],
        RouteFault::Shape(0) => &[Key::Route],
        RouteFault::NotToml | RouteFault::TooMany | RouteFault::Shape(_) | RouteFault::NoMemory =>
            &[],
    }
}

// The route that a fault is about, the first being 1; 0 where it is about none.
fn route_about(fault: RouteFault) -> usize
    ensures { result ≡ route_about fault }
{
    match fault {
        RouteFault::Shape(route)
        | RouteFault::Code(route)
        | RouteFault::Trunk(route)
        | RouteFault::Delete(route)
        | RouteFault::Prefix(route)
        | RouteFault::NothingToKey(route)
        | RouteFault::Twice(route) => route as usize,
        RouteFault::TooMany => 1001,
        RouteFault::NotToml | RouteFault::Plan | RouteFault::Limits(_) | RouteFault::NoMemory => 0,
    }
}

// The route that a text line of a section stands in, after this many headings of routes; 0 in another section.
fn route_here(section: Section, routes: usize) -> usize
    ensures { result ≡ route_here section routes }
{
    match section {
        Section::Route => routes,
        Section::Top | Section::Limits | Section::Other => 0,
    }
}

// Whether a fault is about the heading of a route.
fn is_about_heading(fault: RouteFault, route: usize) -> bool
    ensures { result ≡ is_about_heading fault route }
{
    keys_about(fault).is_empty() && 0 < route && route == route_about(fault)
}

// Whether it is about a key.
fn is_about_key(fault: RouteFault, key: Key, route: usize) -> bool
    ensures { result ≡ is_about_key fault key route }
{
    key_named(key.text().as_bytes(), keys_about(fault)).is_some() && route == route_about(fault)
}

// Whether it is that the table is not TOML.
fn is_not_toml(fault: RouteFault) -> bool
    ensures { result ≡ is_not_toml fault }
{
    matches!(fault, RouteFault::NotToml)
}

// Whether it is about what stands at a spot of a route.
fn is_about(fault: RouteFault, route: usize, mark: Mark) -> bool
    ensures { result ≡ is_about fault route mark }
{
    match mark {
        Mark::Heading => is_about_heading(fault, route),
        Mark::Named(key) => is_about_key(fault, key, route),
        Mark::Unnamed(_) => false,
        Mark::Broken => is_not_toml(fault),
    }
}

// How many routes there are after a spot, which stands in a section.
fn routes_after(section: Section, routes: usize, mark: Mark) -> usize
    requires { routes + 1 < 2 ^ 64 }
    ensures count { result ≡ routes_after section routes mark }
    ensures most { result ≤ routes + 1 }
{
    match mark {
        Mark::Heading => routes + route_here(section, 1),
        Mark::Named(_) | Mark::Unnamed(_) | Mark::Broken => routes,
    }
}

// The first of these spots that a fault is about.
fn first_about(fault: RouteFault, spots: &[Spot]) -> Option<Spot>
    ensures { result ≡ first_about fault 0 spots.now }
{
    let mut routes = 0;
    for spot in spots {
        routes = routes_after(spot.section, routes, spot.mark);
        if is_about(fault, route_here(spot.section, routes), spot.mark) {
            return Some(*spot);
        }
    }
    None
}

// Whether a text begins with a byte.
fn begins_text(byte: u8) -> bool
    ensures { result ≡ begins_text byte }
{
    byte == b'"' || byte == b'\''
}

// Whether a number does.
fn begins_number(byte: u8) -> bool
    ensures { result ≡ begins_number byte }
{
    byte.is_ascii_digit() || byte == b'+' || byte == b'-'
}

// Whether a value that begins with a byte may be of the kind that a key of a route wants.
fn may_begin(key: Key, byte: u8) -> bool
    ensures { result ≡ may_begin key byte }
{
    match key {
        Key::Code | Key::Prefix => begins_text(byte),
        Key::Trunk | Key::Delete => begins_number(byte),
        Key::Plan
        | Key::Limits
        | Key::Route
        | Key::PulseMin
        | Key::PulseMax
        | Key::MakeMin
        | Key::Pause
        | Key::Release
        | Key::Timeout => true,
    }
}

// Whether a fault is that a key of a route has a value of another kind.
fn is_other_kind(fault: RouteFault, route: usize, key: Key, byte: u8) -> bool
    ensures { result ≡ is_other_kind fault route key byte }
{
    match fault {
        RouteFault::Shape(n) => route == n as usize && !may_begin(key, byte),
        _ => false,
    }
}

// Whether it is that of what stands at a spot of a route, whose value begins with a byte.
fn is_misfit(fault: RouteFault, route: usize, mark: Mark, byte: u8) -> bool
    ensures { result ≡ is_misfit fault route mark byte }
{
    match mark {
        Mark::Named(key) => is_other_kind(fault, route, key, byte),
        Mark::Heading | Mark::Unnamed(_) | Mark::Broken => false,
    }
}

// The first of these spots of which it is that.
fn first_misfit(fault: RouteFault, spots: &[Spot]) -> Option<Spot>
    ensures { result ≡ first_misfit fault 0 spots.now }
{
    let mut routes = 0;
    for spot in spots {
        routes = routes_after(spot.section, routes, spot.mark);
        let route = route_here(spot.section, routes);
        if is_misfit(fault, route, spot.mark, spot.value) {
            return Some(*spot);
        }
    }
    None
}

// The spot that a fault is told at.
fn site_of(fault: RouteFault, spots: &[Spot]) -> Option<Spot>
    ensures { result ≡ site_of fault spots.now }
{
    match first_misfit(fault, spots) {
        Some(spot) => Some(spot),
        None => first_about(fault, spots),
    }
}

// Puts the spot of a deck that a fault of its route table is told at after what was found.
fn push_told_of_table<'a>(
    alloc: Global,
    tally: &mut Tally<'a>,
    fault: RouteFault,
    deck: &'a [u8],
) -> Result<(), AllocError>
    requires { length deck.now ≤ MOST_DECK_BYTES }
    ensures { OnOk result (tallied tally.new
        ≡ with_all (tallied tally.old) (told_of_table fault deck.now)) }
{
    let spots = spots_of(alloc, table_of(deck))?;
    if let Some(spot) = site_of(fault, &spots) {
        tally.push(finding_at(deck, spot.at, What::Routes(fault)))?;
    }
    Ok(())
}

/// Puts what is told of the fault by which a text is refused after what was found.
pub fn push_fault<'a>(
    alloc: Global,
    tally: &mut Tally<'a>,
    fault: DeckFault,
    deck: &'a [u8],
) -> Result<(), AllocError>
    requires { length deck.now ≤ MOST_DECK_BYTES }
    ensures { OnOk result (tallied tally.new
        ≡ with_all (tallied tally.old) (told_of_fault fault deck.now)) }
{
    match fault {
        DeckFault::NoCut => push_near_cuts(tally, deck),
        DeckFault::Routes(fault) => push_told_of_table(alloc, tally, fault, deck),
        DeckFault::Read | DeckFault::TooLong | DeckFault::Rows(_) | DeckFault::NoMemory => Ok(()),
    }
}
