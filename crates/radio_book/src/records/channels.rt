//! Channels go from state to state by the steps of a channel alone.
ghost use Rattle.std.specs.Prelude.{◌≡◌, true, None, OnOk, OnErr, IsSome};
ghost use Rattle.std.specs.FinMap as map;
ghost use Rattle.cell_table.specs.Site.{is_traffic};
ghost use Rattle.channel_fsm.specs.Table.{next_state};
ghost use Rattle.channel_fsm.specs.declared.ChanState.TheVariants as chan;
ghost use Rattle.radio_book.specs.State.{apply, state_of};
ghost use Rattle.radio_book.specs.Table.{no_change, with_entry};
ghost use Rattle.radio_book.specs.Channels.{state_after, channel_step};

use crate::records::Records;
use channel_fsm::{ChanEvent, ChanId, ChanState, next};
use radio_tables::tables::Tables;
use std::alloc::AllocError;

impl<T: Tables> Records<T> {
    /// A free traffic channel comes into use by a step of a free channel.
    pub(super) fn occupy(&mut self, x: ChanId, event: ChanEvent) -> Result<(), AllocError>
        requires traffic { is_traffic self.old.site x ≡ true }
        requires free { map.get self.old.channels x ≡ None }
        requires step { IsSome (next_state chan.Free event) }
        ensures ok { OnOk result (self.new ≡ apply (record no_change
            { channel = with_entry x (state_after chan.Free event) }) self.old) }
        ensures err { OnErr result (self.new ≡ self.old) }
        ensures in_place { OnErr result (T.may_refuse_in_place ≡ true) }
    {
        self.use_channel(x, state_after(ChanState::Free, event))
    }

    /// Moves a channel by an event that is no step of a free channel (neither `Take` nor `Begin`). Where it is no step
    /// of the channel's state either, the channel stays.
    pub(super) fn step_channel(&mut self, x: ChanId, event: ChanEvent)
        requires { next_state chan.Free event ≡ None }
        ensures { self.new ≡ apply (record no_change
            { channel = channel_step x event (state_of self.old x) }) self.old }
    {
        let before = self.state_of(x);
        self.step_from(x, before, event);
    }

    /// A channel that is known to be in this state takes the step of an event.
    pub(super) fn step_from(&mut self, x: ChanId, before: ChanState, event: ChanEvent)
        requires state { state_of self.old x ≡ before }
        requires event { next_state chan.Free event ≡ None }
        ensures { self.new ≡ apply (record no_change { channel = channel_step x event before }) self.old }
    {
        let Some(after) = next(before, event) else {
            return;
        };
        match after {
            ChanState::Free => self.vacate_channel(x),
            ChanState::Held(_) | ChanState::Pending(_) | ChanState::On(_) | ChanState::Off => {
                self.move_channel(x, after)
            }
        }
    }
}

/// The state after an event; a state that has no such step stays.
fn state_after(state: ChanState, event: ChanEvent) -> ChanState
    ensures { result ≡ state_after state event }
{
    next(state, event).unwrap_or(state)
}
