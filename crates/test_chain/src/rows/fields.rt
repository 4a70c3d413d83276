// Fields that write numbers and lines.
use xb_model::{field_number, line_of};

#[test]
fn reads_numbers_and_lines(rt: HostRuntime) {
    assert_eq!(rt; field_number(4, b"0042"), Some(42));
    assert_eq!(rt; field_number(3, b"0042"), None);
    assert_eq!(rt; field_number(4, b""), None);
    assert_eq!(rt; line_of(b"9999").map(|line| line.get()), Some(9999));
    for field in [b"".as_slice(), b"10000", b"+5", b" 5", b"5 "] {
        assert!(rt; line_of(field).is_none());
    }
}
