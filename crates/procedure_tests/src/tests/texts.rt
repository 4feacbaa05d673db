//! The texts of why an input was not handled to its end.
use bssmap_messages::BssmapFault;
use exchange::{Bad, Fault, Link};
use rr_messages::RrFault;
use rsl_messages::RslFault;
use std::process::Abort;
use std::test::Fail;

/// A fault has this text.
fn has_text(rt: &(impl AllocGlobal + Abort), fault: &Fault, wanted: &str) -> Result<(), Fail> {
    let text = format!(in rt.alloc(); "{fault}")?;
    assert_eq!(rt; text.as_str(), wanted);
    Ok(())
}

/// Octets that can't be read, by link and reason, and the text of the fault.
const UNREADABLE: &[(Link, Bad, &str)] = &[
    (
        Link::Abis,
        Bad::Rsl(RslFault::Torn(2)),
        "the message on Abis can't be read: torn at offset 2",
    ),
    (
        Link::A,
        Bad::Bssmap(BssmapFault::Length),
        "the message on A can't be read: wrong length octet",
    ),
    (
        Link::Rr,
        Bad::Rr(RrFault::Short),
        "the radio resource message can't be read: the message is cut",
    ),
];

fn unreadable_have_texts(rt: &(impl AllocGlobal + Abort)) -> Result<(), Fail> {
    for (link, bad, wanted) in UNREADABLE {
        has_text(rt, &Fault::Undecoded(*link, *bad), wanted)?;
    }
    Ok(())
}

#[test]
fn faults_have_texts(rt: HostRuntime) -> Result<(), Fail> {
    unreadable_have_texts(&rt)?;
    has_text(
        &rt,
        &Fault::NoMemory(Vec::new(rt.alloc())),
        "memory was refused",
    )?;
    has_text(
        &rt,
        &Fault::Desk(7, Vec::new(rt.alloc())),
        "the receipt of place 7 is of another desk",
    )
}
