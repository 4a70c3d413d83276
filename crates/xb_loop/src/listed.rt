// The wires of a recording, a line each.
ghost use Rattle.std.specs.Prelude.{◌≡◌, ◌++◌, IfOk, OnOk, map, option_map, string_bytes};
ghost use Rattle.xb_command.specs.FaultTexts.{one_line};
ghost use Rattle.xb_loop.specs.WireLines.{edges_text, lines_from, listing_text, wire_line};

use crate::Listing;
use crate::listing::lent;
use crate::wires::edges_at;
use std::alloc::{AllocError, Global};
use xb_command::InOneLine;

// Adds a name in one line.
fn push_name(text: &mut String, name: &str) -> Result<(), AllocError>
    ensures { OnOk result (string_bytes text.new ≡ string_bytes text.old ++ one_line name.now) }
{
    write!(text, "{}", InOneLine(name))
}

// Adds how many edges a wire has, after a tab, where they were counted.
fn push_edges(text: &mut String, edges: Option<u64>) -> Result<(), AllocError>
    ensures { OnOk result (string_bytes text.new ≡ string_bytes text.old ++ edges_text edges) }
{
    match edges {
        Some(count) => write!(text, "\t{count}"),
        None => Ok(()),
    }
}

// Adds the line of a wire.
fn push_wire(text: &mut String, name: &str, edges: Option<u64>) -> Result<(), AllocError>
    ensures { OnOk result (string_bytes text.new ≡ string_bytes text.old ++ wire_line name.now edges) }
{
    push_name(text, name)?;
    push_edges(text, edges)?;
    text.push_str("\n")
}

// Adds the lines of wires, each with its edges, where these were counted.
fn push_wires(text: &mut String, names: &[&str], edges: &Option<Vec<u64>>) -> Result<(), AllocError>
    ensures { OnOk result (string_bytes text.new ≡ string_bytes text.old
        ++ lines_from (option_map (λ all. all.items) edges.now) 0 (map (λ name. name.now) names.now)) }
{
    for (wire, name) in names.iter().enumerate() {
        push_wire(text, name, edges_at(edges, wire))?;
    }
    Ok(())
}

/// The wires of a recording, a line each: the name in one line, and after a tab how many edges it has, where these were
/// counted.
pub(crate) fn listing_text(alloc: Global, listing: &Listing) -> Result<String, AllocError>
    ensures { IfOk result (λ text. string_bytes text ≡ listing_text listing.now) }
{
    let names = lent(alloc, &listing.wires.names)?;
    let mut text = String::new(alloc);
    push_wires(&mut text, &names, &listing.edges)?;
    Ok(text)
}
