//! The rows of the procedure: what is asked and sent for each input.
pub(crate) mod calls;
pub(crate) mod centre;
pub(crate) mod handovers;
pub(crate) mod mobiles;
mod parts;
pub(crate) mod stations;
