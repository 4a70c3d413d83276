// How often each post passes the gate.
use crate::bank::calls::{calls_of, check_tapes, run_on};
use crate::bank::passes::Passes;
use std::test::Fail;
use test_kit::attempts::OPERATOR_CALL;
use xb_model::Listed;
use xb_ring::Post;

// The events of each post in an operator call, and the turn that ended.
const PASSES: [(Post, u64); 9] = [
    (Post::Feed, 5),
    (Post::Pulse, 28),
    (Post::Register, 7),
    (Post::Translate, 5),
    (Post::Deal, 6),
    (Post::Send(0), 8),
    (Post::Send(1), 3),
    (Post::Gather, 12),
    (Post::Tape, 6),
];

#[test]
fn each_post_passes_before_each_event(rt: HostRuntime) -> Result<(), Fail> {
    let calls = calls_of(rt.alloc(), &OPERATOR_CALL)?;
    let passes = Passes::new(rt.alloc(), &PASSES.map(|(post, _)| post))?;
    let source = Listed::new(&calls.rows);
    let tapes = run_on(&rt, rt.alloc(), source, &calls.table, 2, 64, &passes);
    match tapes {
        Ok(tapes) => check_tapes(rt.alloc(), &tapes, &OPERATOR_CALL)?,
        Err(_) => return Err(Fail::from("no tapes")),
    }
    for (post, least) in PASSES {
        assert!(rt; passes.count(post) >= least, "{post}");
    }
    Ok(())
}
