//! How the faults of the codecs are printed.
use super::equals;
use bssmap_messages::BssmapFault;
use rr_elements::ElementFault;
use rr_messages::RrFault;
use rsl_messages::RslFault;
use std::fmt::Display;
use std::process::Abort;
use std::test::Fail;

const OF_ELEMENTS: &[(ElementFault, &str)] = &[
    (ElementFault::Length, "the element has another length"),
    (
        ElementFault::BadType,
        "the channel is no traffic channel of one timeslot",
    ),
    (ElementFault::Hopping, "the channel hops"),
    (ElementFault::BadRange, "a field does not fit its bits"),
];

const OF_RR: &[(RrFault, &str)] = &[
    (RrFault::NotRr, "not a radio resource message"),
    (RrFault::UnknownType(41), "unknown message type 0x29"),
    (RrFault::Short, "the message is cut"),
    (RrFault::Element(ElementFault::Hopping), "the channel hops"),
    (RrFault::NoMemory, "memory was refused"),
];

const OF_A: &[(BssmapFault, &str)] = &[
    (BssmapFault::NotBssmap, "not a BSSMAP message"),
    (BssmapFault::Length, "wrong length octet"),
    (BssmapFault::UnknownType(15), "unknown message type 0x0f"),
    (BssmapFault::Missing(5), "element 0x05 is missing"),
    (BssmapFault::BadElement(26), "element 0x1a is bad"),
    (BssmapFault::Torn(12), "torn at offset 12"),
    (BssmapFault::NoMemory, "memory was refused"),
];

const OF_ABIS: &[(RslFault, &str)] = &[
    (
        RslFault::NotRsl,
        "not a message of radio link layer or dedicated channel management",
    ),
    (RslFault::UnknownType(15), "unknown message type 0x0f"),
    (RslFault::Missing(1), "element 0x01 is missing"),
    (RslFault::BadElement(26), "element 0x1a is bad"),
    (RslFault::Torn(12), "torn at offset 12"),
    (RslFault::TooLong, "longer than 1,024 octets"),
    (RslFault::NoMemory, "memory was refused"),
];

/// Faults are printed so.
fn are_printed<T: Copy + Display>(
    rt: &(impl AllocGlobal + Abort),
    rows: &[(T, &str)],
) -> Result<(), Fail> {
    for (fault, text) in rows {
        equals(rt, format!(in rt.alloc(); "{fault}")?.as_str(), *text);
    }
    Ok(())
}

#[test]
fn faults_are_printed(rt: HostRuntime) -> Result<(), Fail> {
    are_printed(&rt, OF_ELEMENTS)?;
    are_printed(&rt, OF_RR)?;
    are_printed(&rt, OF_A)?;
    are_printed(&rt, OF_ABIS)
}
