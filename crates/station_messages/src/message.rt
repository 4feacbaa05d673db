//! The messages.
use rsl_messages::ChanBits;

/// A message about a channel that isn't in `rsl_messages`.
#[derive(Clone, Copy, Debug, PartialEq, Eq)]
pub enum StationMessage {
    /// RELEASE INDICATION, TS 48.058 clause 8.3.9: the mobile has ended a link.
    ReleaseIndication {
        channel: ChanBits,
        /// The link identifier, any octet (clause 9.3.2); 0 is the main signalling channel with SAPI 0.
        link: u8,
    },
    /// DEACTIVATE SACCH, TS 48.058 clause 8.4.5.
    DeactivateSacch {
        channel: ChanBits,
    },
}
