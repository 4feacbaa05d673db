//! What a script says of a channel.
ghost use Rattle.std.specs.Prelude.{◌≡◌};

use crate::place::Place;
use channel_fsm::ChanId;
use rsl_messages::Sub;

/// What a mobile does with a HANDOVER COMMAND (TS 44.018 clause 3.4.4).
#[derive(Clone, Copy, Debug, PartialEq, Eq)]
pub enum Habit {
    /// It goes to the channel that the command names, where that waits for it, and returns else.
    Arrive,
    /// It stays on its channel: HANDOVER FAILURE.
    Return,
    /// It is heard of no more.
    Vanish,
}

/// What a station keeps back of a channel.
#[derive(Clone, Copy, Debug, PartialEq, Eq)]
pub enum Held {
    /// An acknowledgement of an activation or a release.
    Acknowledgement,
    /// That it detected a mobile there.
    Detection,
    /// That the mobile says that it came.
    Complete,
}

/// What a script asks of a channel.
#[derive(Clone, Copy, Debug, PartialEq, Eq)]
pub enum Act {
    /// The station refuses the next activation of the channel while that is inactive and none that it conflicts with is
    /// active. Said twice it counts once.
    Refuse,
    /// The station keeps the next answer of this kind about the channel; said again, one more.
    Hold(Held),
    /// The station sends what it has kept of the channel, in order, and keeps nothing more.
    Release,
    /// The habit of mobiles on the channel.
    Mobile(Habit),
    /// The next answer that leaves the station about the channel comes twice. Said twice it counts once.
    Double,
    /// The next answer that leaves the station about the channel is cut to its first octets, so many of them; one that has
    /// no more is left whole. The last one said counts.
    Cut(u8),
}

/// What a script asks, and of which channel. A channel that the world lacks is passed over.
#[derive(Clone, Copy, Debug, PartialEq, Eq)]
pub struct Setting {
    /// The place of the controller's site in the list that the world was made of.
    pub controller: usize,
    pub cell: u8,
    pub trx: u8,
    /// The timeslot, 0 to 7.
    pub tn: u8,
    /// Which of the timeslot's channels.
    pub sub: Sub,
    pub act: Act,
}

impl Setting {
    ghost use Rattle.bts_model.specs.Settings.{place_of, setting_of};

    /// What is asked of a channel of a controller.
    pub fn of(controller: usize, channel: ChanId, act: Act) -> Setting
        ensures setting { result ≡ setting_of controller channel act }
        ensures channel { place_of result ≡ record { controller = controller; channel = channel } }
    {
        Setting {
            controller,
            cell: channel.cell,
            trx: channel.trx,
            tn: channel.tn,
            sub: channel.sub,
            act,
        }
    }

    /// The channel that it names.
    pub(crate) fn place(self) -> Place
        ensures { result ≡ place_of self }
    {
        Place {
            controller: self.controller,
            channel: ChanId {
                cell: self.cell,
                trx: self.trx,
                tn: self.tn,
                sub: self.sub,
            },
        }
    }
}
