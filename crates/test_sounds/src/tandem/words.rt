// The words of each fault that is not among the statuses, as the table of faults has them.
use std::io::{self, ErrorKind};
use std::test::Fail;
use test_kit::check_texts;
use xb_command::OpenFault;
use xb_tandem::{LineFault, TandemFault};

#[test]
fn words_of_faults(rt: HostRuntime) -> Result<(), Fail> {
    let faults = &[
        (
            TandemFault::TooMany,
            "more than 9223372036854775808 text lines",
        ),
        (TandemFault::NoMemory, "out of memory"),
        (
            TandemFault::TextLine(2, LineFault::NoMemory),
            "text line 2 out of memory",
        ),
    ];
    check_texts(rt.alloc(), faults)?;
    let error = io::Error::from(ErrorKind::NotFound);
    let file = TandemFault::File(OpenFault::System("b.toml", error));
    let written = format!(in rt.alloc(); "{file}")?;
    assert!(rt; written.starts_with("the route table could not be read: b.toml: "));
    Ok(())
}
