//! Values that are printed alike in the trace and in messages.
use rsl_messages::Sub;
use std::fmt;

/// Octets, each as two small hexadecimal digits.
#[derive(Clone, Copy)]
pub(crate) struct HexText<'a>(pub(crate) &'a [u8]);

impl fmt::Display for HexText<'_> {
    fn fmt<W: fmt::Write>(&self, f: &mut fmt::Formatter<W>) -> fmt::Result {
        for octet in self.0 {
            write!(f, "{octet:02x}")?;
        }
        Ok(())
    }
}

/// A value, or `-` if there is none.
#[derive(Drop)]
pub(crate) struct OrDash<T>(pub(crate) Option<T>);

impl<T: fmt::Display> fmt::Display for OrDash<T> {
    fn fmt<W: fmt::Write>(&self, f: &mut fmt::Formatter<W>) -> fmt::Result {
        match &self.0 {
            Some(value) => write!(f, "{value}"),
            None => write!(f, "-"),
        }
    }
}

/// A traffic channel of a TRX: its timeslot, and behind that `/0` or `/1` where it is a half-rate channel.
#[derive(Clone, Copy)]
pub(crate) struct SlotText(pub(crate) u8, pub(crate) Sub);

impl fmt::Display for SlotText {
    fn fmt<W: fmt::Write>(&self, f: &mut fmt::Formatter<W>) -> fmt::Result {
        let tn = self.0;
        match self.1 {
            Sub::Full => write!(f, "{tn}"),
            Sub::Half0 => write!(f, "{tn}/0"),
            Sub::Half1 => write!(f, "{tn}/1"),
        }
    }
}
