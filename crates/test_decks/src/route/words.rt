// The words of each fault that is not among the statuses, as the table of faults has them.
use std::io::{self, ErrorKind};
use std::test::Fail;
use test_kit::check_texts;
use xb_command::OpenFault;
use xb_outgoing::OutgoingFault;
use xb_route::{NumberFault, RoutingFault};
use xb_routes::RouteFault;

#[test]
fn words_of_faults(rt: HostRuntime) -> Result<(), Fail> {
    let faults = &[
        (
            RoutingFault::Table(OutgoingFault::Routes(RouteFault::Twice(2))),
            "route table: route 2 repeats a code",
        ),
        (
            RoutingFault::Word(3, NumberFault::NoDigits),
            "number 3 has no digits",
        ),
        (
            RoutingFault::TooLong,
            "the numbers are longer than 16777216 bytes",
        ),
        (RoutingFault::NoMemory, "out of memory"),
    ];
    check_texts(rt.alloc(), faults)?;
    let error = io::Error::from(ErrorKind::NotFound);
    let file = RoutingFault::File(OpenFault::System("own.routes", error));
    let written = format!(in rt.alloc(); "{file}")?;
    assert!(rt; written.starts_with("the route table could not be read: own.routes: "));
    Ok(())
}
