// Rings, stages, and a station between two rings.
ghost use Rattle.std.specs.Prelude.{◌≡◌, ◌≤◌, [], vec_capacity};
ghost use Rattle.rtrb.specs.Ring.{IsPair, received, sent};
ghost use Rattle.xb_flow.specs.Rings.{IsPairAt};
ghost use Rattle.xb_model.specs.declared.stage.TheConstants.{OUTPUT_ROOM};

use rtrb::{Consumer, Producer};
use std::alloc::{AllocError, Global};
use std::sync::Wait;
use std::time::Clock;
use xb_ring::{Flow, Gate, LineStage, NoGate, Post, Sends, Station, Turn, drained, link};

/// What a turn did.
pub const TURNS: [Turn; 4] = [Turn::Idle, Turn::Blocked, Turn::Moved, Turn::Ended];

/// The posts.
pub const POSTS: [Post; 8] = [
    Post::Feed,
    Post::Pulse,
    Post::Register,
    Post::Translate,
    Post::Deal,
    Post::Send(7),
    Post::Gather,
    Post::Tape,
];

/// The gate that holds and refuses nothing.
pub const OPEN: NoGate = NoGate;

/// A gate of the caller's, which holds and refuses nothing.
#[derive(Clone, Copy, Drop)]
pub struct Own;

impl Gate for Own {
    fn pass(&self, _post: Post, _n: u64) {}

    fn admit(&self, _post: Post) -> bool {
        true
    }
}

/// What goes through a ring, an item twice, since it may be copied where what it holds may.
pub fn flows<T: Copy>(item: T) -> [Flow<T>; 3] {
    let flow = Flow::Item(item);
    [flow, flow, Flow::End]
}

/// A ring.
pub fn ring<T: Drop>(
    alloc: Global,
    room: usize,
) -> Result<(Producer<Flow<T>>, Consumer<Flow<T>>), AllocError>
    requires least { 1 ≤ room }
    requires most { room ≤ 1024 }
{
    link(alloc, room)
}

/// Whether all that was sent was received.
pub fn is_drained<T>(output: &mut Producer<Flow<T>>, input: &mut Consumer<Flow<T>>) -> bool
    requires { IsPair output.old input.old }
{
    drained(output, input)
}

/// The state of a line before its first item.
pub fn fresh_state<S: LineStage>(stage: &S) -> S::State {
    stage.fresh()
}

/// Takes an item of a line.
pub fn take_item<S: LineStage>(stage: &S, state: &mut S::State, item: S::In, out: &mut Vec<S::Out>)
    requires empty { out.old.items ≡ [] }
    requires room { OUTPUT_ROOM ≤ vec_capacity out.old }
{
    stage.step(state, item, out)
}

/// A station between two rings.
pub fn make_station<S: LineStage + Drop>(
    alloc: Global,
    stage: S,
    input: Consumer<Flow<S::In>>,
    output: Producer<Flow<S::Out>>,
) -> Result<Station<S>, AllocError>
    requires received { received input ≡ [] }
    requires sent { sent output ≡ [] }
{
    Station::new(alloc, stage, input, output)
}

/// A turn of it.
pub fn turn_station<S: LineStage>(station: &mut Station<S>) -> Turn {
    station.turn()
}

/// Its turns to the End.
pub fn serve_station<S: LineStage, R: Wait + Clock, G: Gate>(
    station: &mut Station<S>,
    rt: &R,
    post: Post,
    gate: &G,
) {
    station.serve(rt, post, gate)
}

/// A look at its input.
pub fn look_of_station<S: LineStage, U: Sends<S::In>>(
    station: &mut Station<S>,
    k: usize,
    up: &mut U,
    j: usize,
)
    requires { IsPairAt (U.outputs up.old) j station.old.consumer }
{
    station.look(k, up, j)
}

/// A look at an output of a post.
pub fn look_at_output<T, U: Sends<T>>(up: &mut U, j: usize, end: &mut Consumer<Flow<T>>)
    requires { IsPairAt (U.outputs up.old) j end.old }
{
    up.look_at(j, end)
}

/// The ends of a station.
pub fn ends_of_station<S: LineStage + Drop>(
    station: Station<S>,
) -> (Consumer<Flow<S::In>>, Producer<Flow<S::Out>>) {
    station.into_ends()
}
