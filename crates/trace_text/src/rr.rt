//! Radio resource messages in words (TS 44.018 sections 9.1 and 10.5.2).
use crate::fields::Printed;
use encoded_messages::{rr_name, visit_rr};
use rr_messages::Rr;
use std::fmt;

/// A message: its name and its fields.
#[derive(Clone, Copy)]
pub struct RrText(pub Rr);

impl fmt::Display for RrText {
    fn fmt<W: fmt::Write>(&self, f: &mut fmt::Formatter<W>) -> fmt::Result {
        f.write_str(rr_name(&self.0))?;
        visit_rr(&self.0, &mut Printed { f })
    }
}
