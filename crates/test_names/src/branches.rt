// Dealing to several rings, and gathering from them.
ghost use Rattle.std.specs.Prelude.{◌≡◌, ◌≤◌, ◌<◌, [], length, vec_len};
ghost use Rattle.std.specs.List.{All, HoldsAt};
ghost use Rattle.rtrb.specs.Ring.{received, sent};
ghost use Rattle.xb_flow.specs.Rings.{IsPairAt};

use rtrb::{Consumer, Producer};
use std::sync::Wait;
use std::time::Clock;
use xb_model::{Mark, On};
use xb_ring::{Deal, Ending, Flow, Gate, Gather, Sends, Turn};

/// Whether an item ends a piece.
pub fn ends<T: Ending>(item: &T) -> bool {
    item.ends()
}

/// Whether a mark does.
pub fn mark_ends(mark: &On<Mark>) -> bool {
    ends(mark)
}

/// A deal to 1 to 8 outputs.
pub fn make_deal<T: Drop>(input: Consumer<Flow<T>>, outputs: Vec<Producer<Flow<T>>>) -> Deal<T>
    requires least { 1 ≤ vec_len outputs }
    requires most { vec_len outputs ≤ 8 }
    requires received { received input ≡ [] }
    requires sent { All (λ p. sent p ≡ []) outputs.items }
{
    Deal::new(input, outputs)
}

/// A gather from 1 to 8 inputs.
pub fn make_gather<T: Ending + Drop>(
    inputs: Vec<Consumer<Flow<T>>>,
    output: Producer<Flow<T>>,
) -> Gather<T>
    requires least { 1 ≤ vec_len inputs }
    requires most { vec_len inputs ≤ 8 }
    requires received { All (λ c. received c ≡ []) inputs.items }
    requires sent { sent output ≡ [] }
{
    Gather::new(inputs, output)
}

/// A turn of each.
pub fn turns<T: Ending + Drop>(deal: &mut Deal<T>, gather: &mut Gather<T>) -> [Turn; 2] {
    [deal.turn(), gather.turn()]
}

/// The turns of a deal to the End.
pub fn serve_deal<T: Drop, R: Wait + Clock, G: Gate>(deal: &mut Deal<T>, rt: &R, gate: &G) {
    deal.serve(rt, gate)
}

/// The turns of a gather to the End.
pub fn serve_gather<T: Ending + Drop, R: Wait + Clock, G: Gate>(
    gather: &mut Gather<T>,
    rt: &R,
    gate: &G,
) {
    gather.serve(rt, gate)
}

/// A look at the input of a deal.
pub fn look_of_deal<T: Drop, U: Sends<T>>(deal: &mut Deal<T>, k: usize, up: &mut U, j: usize)
    requires { IsPairAt (U.outputs up.old) j deal.old.consumer }
{
    deal.look(k, up, j)
}

/// A look at an input of a gather.
pub fn look_of_gather<T: Ending + Drop, U: Sends<T>>(
    gather: &mut Gather<T>,
    k: usize,
    up: &mut U,
    j: usize,
)
    requires within { k < length gather.old.consumers }
    requires pair { HoldsAt (λ c. IsPairAt (U.outputs up.old) j c) gather.old.consumers k }
{
    gather.look(k, up, j)
}

/// The ends of a deal.
pub fn ends_of_deal<T: Drop>(deal: Deal<T>) -> (Consumer<Flow<T>>, Vec<Producer<Flow<T>>>) {
    deal.into_ends()
}

/// The ends of a gather.
pub fn ends_of_gather<T: Ending + Drop>(
    gather: Gather<T>,
) -> (Vec<Consumer<Flow<T>>>, Producer<Flow<T>>) {
    gather.into_ends()
}
