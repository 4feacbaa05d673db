//! Why octets are no message, in words.
ghost use Rattle.std.specs.Prelude.{◌≡◌, ◌↔◌, length, IsTrue, IsSome, option_map};
ghost use Rattle.explanations.specs.Arguments.{range_of, is_within};
ghost use Rattle.explanations.specs.Kinds.{argument_of_kind};
ghost use Rattle.explanations.specs.Faults.{faults_on, argument_at, is_fault};

use crate::link::LinkName;
use std::fmt;

/// What the argument of a fault is.
#[derive(Clone, Copy, Debug, PartialEq, Eq)]
pub enum Argument {
    /// The fault has none.
    Absent,
    /// The type of a message: 0 to 255.
    MessageType,
    /// The identifier of an element: 0 to 255.
    Identifier,
    /// Where in a message on A an element begins, by the octets before it: 3 to 254.
    OffsetOnA,
    /// Where in a message on Abis an element begins, or in one on A whose type is missing: 1 to 1023.
    OffsetOnAbis,
    /// What is wrong with an element of the radio path, by its number: 1 to 4.
    ElementFault,
}

impl Argument {
    /// The least and the greatest number that the argument may be; `None` if there is none.
    pub fn range(self) -> Option<(usize, usize)>
        ensures range { result ≡ range_of self }
    {
        match self {
            Argument::Absent => None,
            Argument::MessageType | Argument::Identifier => Some((0, 255)),
            Argument::OffsetOnA => Some((3, 254)),
            Argument::OffsetOnAbis => Some((1, 1023)),
            Argument::ElementFault => Some((1, 4)),
        }
    }

    /// Whether the argument may be this number.
    fn allows(self, number: usize) -> bool
        ensures { result ≡ is_within (range_of self) number }
    {
        match self.range() {
            Some((low, high)) => low <= number && number <= high,
            None => false,
        }
    }
}

/// What the argument is, in words.
impl fmt::Display for Argument {
    fn fmt<W: fmt::Write>(&self, f: &mut fmt::Formatter<W>) -> fmt::Result {
        f.write_str(match self {
            Argument::Absent => "nothing",
            Argument::MessageType => "a message type",
            Argument::Identifier => "an element identifier",
            Argument::OffsetOnA | Argument::OffsetOnAbis => "an offset",
            Argument::ElementFault => "the number of the element's fault",
        })
    }
}

/// What is wrong with octets.
#[derive(Clone, Copy, Debug, PartialEq, Eq)]
enum Kind {
    OtherLink,
    UnknownType,
    BadLength,
    Short,
    Missing,
    Bad,
    BadOnRadioPath,
    CutOnA,
    CutOnAbis,
    TooLong,
}

impl Kind {
    /// What the fault's argument is.
    fn argument(self) -> Argument
        ensures { result ≡ argument_of_kind self }
    {
        match self {
            Kind::OtherLink | Kind::BadLength | Kind::Short | Kind::TooLong => Argument::Absent,
            Kind::UnknownType => Argument::MessageType,
            Kind::Missing | Kind::Bad => Argument::Identifier,
            Kind::BadOnRadioPath => Argument::ElementFault,
            Kind::CutOnA => Argument::OffsetOnA,
            Kind::CutOnAbis => Argument::OffsetOnAbis,
        }
    }
}

/// Why octets are no message, with the fault's argument where it is known.
#[derive(Clone, Copy, Debug)]
pub struct Fault {
    kind: Kind,
    argument: Option<usize>,
}

/// A fault on the radio path.
fn rr_kind(number: u8) -> Option<Kind>
    ensures { option_map argument_of_kind result ≡ argument_at (faults_on LinkName.Rr) number }
{
    match number {
        1 => Some(Kind::OtherLink),
        2 => Some(Kind::UnknownType),
        3 => Some(Kind::Short),
        4 => Some(Kind::BadOnRadioPath),
        _ => None,
    }
}

/// A fault on A.
fn a_kind(number: u8) -> Option<Kind>
    ensures { option_map argument_of_kind result ≡ argument_at (faults_on LinkName.A) number }
{
    match number {
        1 => Some(Kind::OtherLink),
        2 => Some(Kind::BadLength),
        3 => Some(Kind::UnknownType),
        4 => Some(Kind::Missing),
        5 => Some(Kind::Bad),
        6 => Some(Kind::CutOnA),
        _ => None,
    }
}

/// A fault on Abis.
fn abis_kind(number: u8) -> Option<Kind>
    ensures { option_map argument_of_kind result ≡ argument_at (faults_on LinkName.Abis) number }
{
    match number {
        1 => Some(Kind::OtherLink),
        2 => Some(Kind::UnknownType),
        3 => Some(Kind::Missing),
        4 => Some(Kind::Bad),
        5 => Some(Kind::CutOnAbis),
        6 => Some(Kind::TooLong),
        _ => None,
    }
}

/// What is wrong, by the number of a fault of a link.
fn kind_of(link: LinkName, number: u8) -> Option<Kind>
    ensures { option_map argument_of_kind result ≡ argument_at (faults_on link) number }
{
    match link {
        LinkName::Rr => rr_kind(number),
        LinkName::A => a_kind(number),
        LinkName::Abis => abis_kind(number),
    }
}

/// So many faults a link has: they are numbered from 1 to this.
pub fn last_fault(link: LinkName) -> u8
    ensures last { result ≡ length (faults_on link) }
{
    match link {
        LinkName::Rr => 4,
        LinkName::A | LinkName::Abis => 6,
    }
}

/// What the argument of the fault of this number on a link is; `None` if there is no such fault.
pub fn argument_of(link: LinkName, number: u8) -> Option<Argument>
    ensures argument { result ≡ argument_at (faults_on link) number }
{
    match kind_of(link, number) {
        Some(kind) => Some(kind.argument()),
        None => None,
    }
}

/// The fault of this number on a link, with its argument where that is known; the numbers are those from 1 to
/// [`last_fault`]. `None` if there is no such fault, or if it can't have this argument ([`argument_of`]).
pub fn fault_of(link: LinkName, number: u8, argument: Option<usize>) -> Option<Fault>
    ensures some { IsSome result ↔ IsTrue (is_fault link number argument) }
{
    let kind = kind_of(link, number)?;
    match argument {
        Some(value) if !kind.argument().allows(value) => None,
        Some(_) | None => Some(Fault { kind, argument }),
    }
}

/// The words of a fault, without its argument.
fn words(kind: Kind) -> &'static str {
    match kind {
        Kind::OtherLink => "no message of this link",
        Kind::UnknownType => "unknown type",
        Kind::BadLength => "bad length octet",
        Kind::Short => "the message is cut",
        Kind::Missing => "an element is missing",
        Kind::Bad | Kind::BadOnRadioPath => "an element is bad",
        Kind::CutOnA | Kind::CutOnAbis => "an element is cut",
        Kind::TooLong => "too long",
    }
}

/// Why an element of the radio path is bad.
fn element_words(number: usize) -> &'static str {
    match number {
        1 => "its length",
        2 => "no traffic channel",
        3 => "the channel hops",
        4 => "out of range",
        _ => "unknown",
    }
}

/// The words, and behind them the argument: a type or an identifier in hexadecimal, an offset in decimal.
impl fmt::Display for Fault {
    fn fmt<W: fmt::Write>(&self, f: &mut fmt::Formatter<W>) -> fmt::Result {
        f.write_str(words(self.kind))?;
        let Some(argument) = self.argument else {
            return Ok(());
        };
        match self.kind {
            Kind::UnknownType => write!(f, ": {argument:02X}"),
            Kind::Missing | Kind::Bad => write!(f, ": identifier {argument:02X}"),
            Kind::BadOnRadioPath => write!(f, ": {}", element_words(argument)),
            Kind::CutOnA | Kind::CutOnAbis => write!(f, " at offset {argument}"),
            Kind::OtherLink | Kind::BadLength | Kind::Short | Kind::TooLong => Ok(()),
        }
    }
}
