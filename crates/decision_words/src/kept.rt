//! The last reports of each call, kept a second time beside the controller.
ghost use Rattle.std.specs.Prelude.{◌≡◌, ◌≤◌, IfSome};
ghost use Rattle.ho_procedure.specs.Plan.{call_dropped};

use crate::last::Last;
use measurements::Window;
use radio_book::event::Event;
use radio_book::facts::facts_of;
use rr_elements::MeasResults;
use std::alloc::{AllocError, Allocator, Global};
use trace_text::trace::Step;

/// The last valid reports of a call.
#[derive(Drop)]
struct Entry<A: Allocator> {
    call: u16,
    last: Last<A>,
}

/// The last valid reports of each call that reported.
#[derive(Drop)]
pub(crate) struct Kept<A: Allocator = Global> {
    entries: Vec<Entry<A>, A>,
}

/// The call whose reports a controller drops once this event is accepted.
fn call_dropped(event: Event) -> Option<u16>
    ensures { result ≡ call_dropped event }
{
    facts_of(event).drops
}

/// The call whose reports a controller drops at this step.
fn dropped_at(step: Step) -> Option<u16> {
    match step {
        Step::Asked(event, reply) if reply.is_accepted() => call_dropped(event),
        Step::Asked(..) | Step::NoneFree(..) => None,
    }
}

impl<A: Allocator + Copy> Kept<A> {
    /// No call has reported.
    pub(crate) fn new(alloc: A) -> Kept<A> {
        Kept {
            entries: Vec::new(alloc),
        }
    }

    /// The reports are dropped that a controller drops at these steps.
    pub(crate) fn follow(&mut self, steps: &[Step]) {
        for step in steps {
            if let Some(call) = dropped_at(*step) {
                self.entries.retain(|entry| entry.call != call);
            }
        }
    }

    /// Adds a report of a call, of which the last `width` valid reports count, 1 to 32, where it is the first.
    pub(crate) fn note(
        &mut self,
        alloc: A,
        width: usize,
        call: u16,
        report: &MeasResults,
    ) -> Result<(), AllocError>
        requires some { 1 ≤ width }
        requires most { width ≤ 32 }
    {
        for entry in &mut self.entries {
            if entry.call == call {
                entry.last.add(report);
                return Ok(());
            }
        }
        let mut last = Last::new(alloc, width)?;
        last.add(report);
        self.entries.push(Entry { call, last })?;
        Ok(())
    }

    /// The last reports of a call that has reported, where so many count.
    pub(crate) fn window(&self, width: usize, call: u16) -> Option<&Window<A>>
        ensures width { IfSome result (λ window. window.now.width ≡ width) }
    {
        let entry = self.entries.iter().find(|entry| entry.call == call)?;
        entry.last.of_width(width)
    }
}
