// Rings, and the words of posts.
use std::alloc::AllocError;
use std::test::Fail;
use test_kit::check_texts;
use xb_ring::{Flow, Post, drained, link};

#[test]
fn drained_once_all_was_received(rt: HostRuntime) -> Result<(), AllocError> {
    let (mut producer, mut consumer) = link(rt.alloc(), 2)?;
    assert!(rt; drained(&mut producer, &mut consumer), "nothing was sent");
    producer.push_reserved(Flow::Item(7u8));
    assert!(rt;
        !drained(&mut producer, &mut consumer),
        "one item was not received"
    );
    assert_eq!(rt; consumer.pop().ok(), Some(Flow::Item(7)));
    assert!(rt; drained(&mut producer, &mut consumer), "all was received");
    Ok(())
}

// The word of each post.
const WORDS: &[(Post, &str)] = &[
    (Post::Feed, "feed"),
    (Post::Pulse, "pulse"),
    (Post::Register, "register"),
    (Post::Translate, "translate"),
    (Post::Deal, "deal"),
    (Post::Send(7), "send 7"),
    (Post::Gather, "gather"),
    (Post::Tape, "tape"),
];

#[test]
fn words_of_posts(rt: HostRuntime) -> Result<(), Fail> {
    check_texts(rt.alloc(), WORDS)
}
