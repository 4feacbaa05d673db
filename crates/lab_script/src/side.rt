//! Which controller a line is for.
ghost use Rattle.std.specs.Prelude.{◌≡◌};
ghost use Rattle.lab_script.specs.Sides as said;

/// A controller.
#[derive(Clone, Copy, Debug, PartialEq, Eq)]
pub enum Side {
    /// The one that is there in any case.
    First,
    /// The other, if there are two.
    Peer,
}

impl Side {
    /// Its place among the sites that simulated stations and a simulated switching centre are made of.
    pub fn number(self) -> usize
        ensures number { result ≡ said.number_of self }
    {
        match self {
            Side::First => 0,
            Side::Peer => 1,
        }
    }
}

/// Whether a line is for the peer.
pub fn is_for_peer(line: &str) -> bool
    ensures peer { result ≡ said.is_for_peer line.now }
{
    line.starts_with("2: ")
}

/// The controller that a line is for, and what the line says to it.
pub fn cut_side(line: &str) -> (Side, &str)
    ensures side { result.0 ≡ said.side_of line.now }
    ensures text { result.1.now ≡ said.text_of line.now }
{
    match line.strip_prefix("2: ") {
        Some(text) => (Side::Peer, text),
        None => (Side::First, line),
    }
}
