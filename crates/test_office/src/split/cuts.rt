// A text that is cut at a byte.
use std::test::Fail;
use xb_text::{cut_at, first_piece};

#[test]
fn texts_are_cut(rt: HostRuntime) -> Result<(), Fail> {
    assert_eq!(rt;
        cut_at(b' ', b"7 234 5"),
        Some((b"7".as_slice(), b"234 5".as_slice()))
    );
    assert_eq!(rt; cut_at(b' ', b"7"), None);
    assert_eq!(rt;
        first_piece(b'\n', b"7\n\n"),
        (b"7".as_slice(), Some(b"\n".as_slice()))
    );
    assert_eq!(rt; first_piece(b'\n', b""), (b"".as_slice(), None));
    Ok(())
}
