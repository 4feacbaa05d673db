//! Where a number comes from.
use std::fmt;

/// The name of the link that a message, a cause or a fault is of.
#[derive(Clone, Copy, Debug, PartialEq, Eq)]
pub enum LinkName {
    /// The radio path (TS 44.018).
    Rr,
    /// A, to the switching centre (TS 48.008).
    A,
    /// Abis, to the base station (TS 48.058).
    Abis,
}

impl LinkName {
    /// The link of a name, as a trace writes it: `rr`, `a` or `abis`.
    pub fn named(name: &str) -> Option<LinkName> {
        match name {
            "rr" => Some(LinkName::Rr),
            "a" => Some(LinkName::A),
            "abis" => Some(LinkName::Abis),
            _ => None,
        }
    }
}

impl fmt::Display for LinkName {
    fn fmt<W: fmt::Write>(&self, f: &mut fmt::Formatter<W>) -> fmt::Result {
        f.write_str(match self {
            LinkName::Rr => "rr",
            LinkName::A => "a",
            LinkName::Abis => "abis",
        })
    }
}
