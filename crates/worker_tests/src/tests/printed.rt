//! The faults of an office, and of receipts, in words.
use call_worker::{CloseFault, GiveFault, StartFault};
use radio_book::event::{Event, Reply};
use radio_desk::seat::Receipt;
use rsl_messages::RslFault;
use std::fmt::{Debug, Display};
use std::process::Abort;
use std::test::Fail;

/// A fault is printed so.
fn is_printed<T: Copy + Debug + Display>(
    rt: &(impl AllocGlobal + Abort),
    fault: T,
    wanted: &str,
) -> Result<(), Fail> {
    let text = format!(in rt.alloc(); "{fault}")?;
    assert_eq!(rt; text.as_str(), wanted, "{fault:?}");
    Ok(())
}

#[test]
fn faults_of_an_office_are_printed(rt: HostRuntime) -> Result<(), Fail> {
    is_printed(&rt, StartFault::Thread, "no thread can be started")?;
    is_printed(&rt, StartFault::NoMemory, "memory was refused")?;
    let undecoded = GiveFault::Undecoded(RslFault::Missing(1));
    is_printed(
        &rt,
        undecoded,
        "the message on Abis can't be read: element 0x01 is missing",
    )?;
    is_printed(&rt, GiveFault::NoMemory, "memory was refused")?;
    is_printed(&rt, GiveFault::Ended(3), "worker 3 has ended")
}

/// A receipt of the first place but six.
const SEVENTH: Receipt = Receipt {
    place: 6,
    event: Event::Look(1),
    reply: Reply::Done,
};

#[test]
fn faults_of_receipts_are_printed(rt: HostRuntime) -> Result<(), Fail> {
    let missing = CloseFault::Missing(SEVENTH);
    is_printed(
        &rt,
        missing,
        "the receipt of place 6 isn't of the desk's history",
    )?;
    is_printed(&rt, CloseFault::Twice(6), "two receipts are of place 6")?;
    let count = "the desk's history has entries of which there is no receipt";
    is_printed(&rt, CloseFault::Count, count)?;
    is_printed(&rt, CloseFault::Opening, "the desk opens with another book")?;
    is_printed(&rt, CloseFault::NoMemory, "memory was refused")
}
