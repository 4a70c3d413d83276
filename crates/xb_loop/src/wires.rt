// The wires of a recording, as they are told.
ghost use Rattle.std.specs.Prelude.{◌≡◌, option_map};
ghost use Rattle.xb_loop.specs.WireLines.{edges_at};

use crate::Listing;
use std::fmt;
use xb_command::InOneLine;

/// The names of wires in one line, each with its edges, where these were counted.
#[derive(Clone, Copy)]
pub(crate) struct AllWires<'b>(pub(crate) &'b Listing);

/// The edges of the wire of this number, if they were counted.
pub(crate) fn edges_at(edges: &Option<Vec<u64>>, wire: usize) -> Option<u64>
    ensures { result ≡ edges_at (option_map (λ all. all.items) edges.now) wire }
{
    match edges {
        Some(edges) => edges.get(wire).copied(),
        None => None,
    }
}

// How many edges a wire has.
fn tell_edges<W: fmt::Write>(edges: u64, f: &mut fmt::Formatter<W>) -> fmt::Result {
    f.write_str(" (")?;
    fmt::Display::fmt(&edges, f)?;
    f.write_str(if edges == 1 { " edge)" } else { " edges)" })
}

impl<'b> fmt::Display for AllWires<'b> {
    fn fmt<W: fmt::Write>(&self, f: &mut fmt::Formatter<W>) -> fmt::Result {
        let Listing { wires, edges } = self.0;
        if wires.names.is_empty() {
            return f.write_str("no wire that its beginning names");
        }
        for (i, name) in wires.names.iter().enumerate() {
            if i > 0 {
                f.write_str(", ")?;
            }
            fmt::Display::fmt(&InOneLine(name.as_str()), f)?;
            if let Some(edges) = edges_at(edges, i) {
                tell_edges(edges, f)?;
            }
        }
        f.write_str(if wires.are_more { ", and more" } else { "" })
    }
}
