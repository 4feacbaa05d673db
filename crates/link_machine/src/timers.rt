//! The timers of calls: T3103, T7 and T8 run exactly if a book has them armed.
ghost use Rattle.std.specs.Prelude.{◌≡◌};
ghost use Rattle.radio_book.specs.Table.{is_armed};
ghost use Rattle.link_machine.specs.Timers.{not_armed, with_timer, is_change, if_change};

use crate::calls::CallFacts;
use radio_book::event::{CallRecord, Timer};

/// Timers of a call that stop and start, in this order.
#[derive(Clone, Copy, Debug, PartialEq, Eq)]
pub struct TimerChange {
    pub call: u16,
    pub stops: Option<Timer>,
    pub starts: Option<Timer>,
}

/// Whether this timer is the one that is armed.
pub fn is_armed(timer: Timer, armed: Option<Timer>) -> bool
    ensures { result ≡ is_armed timer armed }
{
    match armed {
        Some(armed) => timer == armed,
        None => false,
    }
}

/// A timer that runs, where the other one is armed, and isn't the same.
fn not_armed(running: Option<Timer>, armed: Option<Timer>) -> Option<Timer>
    ensures { result ≡ not_armed running armed }
{
    match running {
        Some(timer) => {
            if is_armed(timer, armed) {
                None
            } else {
                Some(timer)
            }
        }
        None => None,
    }
}

/// What stops and what starts so that the running timer of a call is the armed one; `None` if nothing does.
pub fn change_of(call: u16, running: Option<Timer>, armed: Option<Timer>) -> Option<TimerChange>
    ensures change { result ≡ if_change (record {
      call = call;
      stops = not_armed running armed;
      starts = not_armed armed running;
    }) }
{
    let change = TimerChange {
        call,
        stops: not_armed(running, armed),
        starts: not_armed(armed, running),
    };
    if change.stops.is_some() || change.starts.is_some() {
        Some(change)
    } else {
        None
    }
}

/// What is known of a call whose timer is this one from now on. If a book doesn't have the call, nothing else is known of
/// it.
pub fn with_timer(facts: CallFacts, found: Option<CallRecord>, timer: Option<Timer>) -> CallFacts
    ensures facts { result ≡ with_timer facts found timer }
{
    match found {
        Some(_) => CallFacts { timer, ..facts },
        None => CallFacts {
            timer,
            ..CallFacts::PLAIN
        },
    }
}
