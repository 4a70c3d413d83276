// Turns of a gather on one thread.
use crate::rings::gates::{assert_passes, passes_of};
use crate::rings::items::{on, pop_end, pop_mark, push};
use rtrb::{Consumer, Producer};
use std::alloc::{AllocError, Global};
use std::process::Abort;
use xb_model::{Key, Mark, On, Reason, Tone, Trunk};
use xb_ring::{Flow, Gather, Post, Turn, link};

// A gather of two inputs, with the ends that feed it and that it sends to.
#[derive(Drop)]
struct Gathering {
    first: Producer<Flow<On<Mark>>>,
    second: Producer<Flow<On<Mark>>>,
    gather: Gather<On<Mark>>,
    sent: Consumer<Flow<On<Mark>>>,
}

// A gather on rings of four.
fn link_gather(alloc: Global) -> Result<Gathering, AllocError> {
    let (first, input_0) = link(alloc, 4)?;
    let (second, input_1) = link(alloc, 4)?;
    let (output, sent) = link(alloc, 4)?;
    Ok(Gathering {
        first,
        second,
        gather: Gather::new(vec![in alloc; input_0, input_1]?, output),
        sent,
    })
}

// A whole entry of a tape.
const REFUSED: Mark = Mark::Refused(Reason::Unknown, 7);

// The last mark of a keying.
const START: Mark = Mark::Tone(
    Key::St,
    Tone {
        low: 1500,
        high: 1700,
    },
);

// The first mark of a keying.
fn trunk_mark(rt: &impl Abort) -> Mark {
    Mark::Trunk(Trunk::new(1).expect(rt, "a trunk group"))
}

// The keying of input 0 has not ended: nothing of input 1 is taken, though it has a whole entry.
#[test]
fn bank_of_senders_gathered_in_turn(rt: HostRuntime) -> Result<(), AllocError> {
    let mut post = link_gather(rt.alloc())?;
    push(&rt, &mut post.first, on(&rt, 5, trunk_mark(&rt)));
    push(&rt, &mut post.second, on(&rt, 6, REFUSED));
    for turn in [Turn::Moved, Turn::Moved, Turn::Idle] {
        assert_eq!(rt; post.gather.turn(), turn);
    }
    pop_mark(&rt, &mut post.sent, 5, trunk_mark(&rt));
    assert!(rt; post.sent.pop().is_err(), "the keying has not ended");
    Ok(())
}

// Input 0 has ended after its entry, and the entry of input 1 is sent before that is seen. Five marks
// and Ends come in, three marks and one End go out: nine events and the last turn.
#[test]
fn gathers_with_a_pass_for_each_turn(rt: HostRuntime) -> Result<(), AllocError> {
    let mut post = link_gather(rt.alloc())?;
    push(&rt, &mut post.first, on(&rt, 5, REFUSED));
    push(&rt, &mut post.first, Flow::End);
    push(&rt, &mut post.second, on(&rt, 6, trunk_mark(&rt)));
    push(&rt, &mut post.second, on(&rt, 6, START));
    push(&rt, &mut post.second, Flow::End);
    let gate = passes_of(Post::Gather);
    post.gather.serve(&rt, &gate);
    assert_passes(&rt, &gate, 10, 3);
    pop_mark(&rt, &mut post.sent, 5, REFUSED);
    pop_mark(&rt, &mut post.sent, 6, trunk_mark(&rt));
    pop_mark(&rt, &mut post.sent, 6, START);
    pop_end(&rt, &mut post.sent);
    let (inputs, _output) = post.gather.into_ends();
    assert_eq!(rt; inputs.len(), 2);
    Ok(())
}
