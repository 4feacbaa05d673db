//! Why octets are no message, as it is printed.
use bssmap_messages::BssmapFault;
use exchange::Bad;
use explanations::LinkName;
use rr_elements::ElementFault;
use rr_messages::RrFault;
use rsl_messages::RslFault;
use std::fmt;

/// Why octets are no message, as the link that they came from, the number of the fault and the fault's argument, where it
/// has one: `abis 5 2` for an element that is cut at offset 2. The links are `rr` (the radio path, TS 44.018), `a` (TS
/// 48.008) and `abis` (TS 48.058).
#[derive(Clone, Copy)]
pub struct BadText(pub Bad);

/// A fault by its number.
#[derive(Clone, Copy, Debug, PartialEq, Eq)]
pub struct NumberedFault {
    /// Where the octets come from.
    pub link: LinkName,
    /// The number, from 1 on.
    pub number: u8,
    /// What the fault is of, where it is of something.
    pub argument: Option<usize>,
}

/// The number of a fault, and its argument.
pub fn numbered(bad: Bad) -> NumberedFault {
    let (link, (number, argument)) = match bad {
        Bad::Rr(fault) => (LinkName::Rr, rr_fault(fault)),
        Bad::Bssmap(fault) => (LinkName::A, bssmap_fault(fault)),
        Bad::Rsl(fault) => (LinkName::Abis, rsl_fault(fault)),
    };
    NumberedFault {
        link,
        number,
        argument,
    }
}

impl fmt::Display for BadText {
    fn fmt<W: fmt::Write>(&self, f: &mut fmt::Formatter<W>) -> fmt::Result {
        let NumberedFault {
            link,
            number,
            argument,
        } = numbered(self.0);
        write!(f, "{link} {number}")?;
        match argument {
            Some(argument) => write!(f, " {argument}"),
            None => Ok(()),
        }
    }
}

/// The number of a fault of an element.
fn element_fault(fault: ElementFault) -> usize {
    match fault {
        ElementFault::Length => 1,
        ElementFault::BadType => 2,
        ElementFault::Hopping => 3,
        ElementFault::BadRange => 4,
    }
}

/// A fault of a radio resource message: its number, and its argument.
fn rr_fault(fault: RrFault) -> (u8, Option<usize>) {
    match fault {
        RrFault::NotRr => (1, None),
        RrFault::UnknownType(kind) => (2, Some(usize::from(kind))),
        RrFault::Short => (3, None),
        RrFault::Element(fault) => (4, Some(element_fault(fault))),
        RrFault::NoMemory => (5, None),
    }
}

/// A fault of a message on A: its number, and its argument.
fn bssmap_fault(fault: BssmapFault) -> (u8, Option<usize>) {
    match fault {
        BssmapFault::NotBssmap => (1, None),
        BssmapFault::Length => (2, None),
        BssmapFault::UnknownType(kind) => (3, Some(usize::from(kind))),
        BssmapFault::Missing(identifier) => (4, Some(usize::from(identifier))),
        BssmapFault::BadElement(identifier) => (5, Some(usize::from(identifier))),
        BssmapFault::Torn(offset) => (6, Some(offset)),
        BssmapFault::NoMemory => (7, None),
    }
}

/// A fault of a message on Abis: its number, and its argument.
fn rsl_fault(fault: RslFault) -> (u8, Option<usize>) {
    match fault {
        RslFault::NotRsl => (1, None),
        RslFault::UnknownType(kind) => (2, Some(usize::from(kind))),
        RslFault::Missing(identifier) => (3, Some(usize::from(identifier))),
        RslFault::BadElement(identifier) => (4, Some(usize::from(identifier))),
        RslFault::Torn(offset) => (5, Some(offset)),
        RslFault::TooLong => (6, None),
        RslFault::NoMemory => (7, None),
    }
}
