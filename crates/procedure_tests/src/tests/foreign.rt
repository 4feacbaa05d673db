//! A view whose desk doesn't know the view's last receipt.
ghost use Rattle.std.specs.Prelude.{[]};

use super::controllers::{are_handled, empty_desk, input_of, sent_lines, shared_site};
use crate::leaving::Leaving;
use exchange::Fault;
use ho_procedure::controller::Controller;
use ho_procedure::view::DeskView;
use radio_book::ask::Ask;
use radio_desk::desk::DeskFault;
use radio_desk::seat::Receipt;
use sample_sites::THREE_CHANNELS;
use std::alloc::Global;
use std::process::Abort;
use std::test::Fail;

/// Each event is answered so, for the receipt of place 7.
#[derive(Drop)]
struct Elsewhere;

impl DeskView for Elsewhere {
    ghost log = { λ _. [] };

    ghost says = { λ _ _ _. Unit };

    ghost judged = { λ _ _ _. Unit };

    fn ask(&mut self, _ask: Ask) -> Result<Option<Receipt>, DeskFault> {
        Err(DeskFault::Foreign(7))
    }
}

/// The input gets as far as these messages.
fn owes<D: DeskView + Drop>(
    rt: &impl Abort,
    alloc: Global,
    controller: &mut Controller<D, Global>,
    input: &str,
    wanted: &str,
) -> Result<(), Fail> {
    match controller.handle(input_of(rt, alloc, input)) {
        Err(Fault::Desk(place, out)) => {
            let sent = sent_lines(alloc, &out)?;
            assert!(rt; place == 7 && sent.as_str() == wanted, "{input}: {sent}");
        }
        Ok(_out) => assert!(rt; false),
        Err(Fault::NoMemory(_out)) => assert!(rt; false),
        Err(Fault::Undecoded(_link, _bad)) => assert!(rt; false),
    }
    Ok(())
}

/// None of these inputs gets further than its first event.
fn are_foreign(
    rt: &impl Abort,
    alloc: Global,
    controller: &mut Controller<Elsewhere, Global>,
) -> Result<(), Fail> {
    owes(rt, alloc, controller, "open 1 0 0 3", "")?;
    owes(rt, alloc, controller, "seize 1 0 full", "")?;
    owes(rt, alloc, controller, "handover 1 1", "")
}

#[test]
fn a_foreign_seat_is_told(rt: HostRuntime) -> Result<(), Fail> {
    let site = shared_site(rt.alloc(), rt.alloc(), THREE_CHANNELS)?;
    let mut controller = Controller::new(rt.alloc(), Elsewhere, site);
    are_foreign(&rt, rt.alloc(), &mut controller)
}

/// A call whose mobile is sent to its target: ten events.
const BEFORE: &str = "open 1 0 0 3
abis 0 0 0822010b081234
handover 1 1
abis 1 1 0822010b080000";

/// A controller whose desk doesn't know its seat any more once it has judged twelve events.
fn leaving(alloc: Global) -> Result<Controller<Leaving, Global>, Fail> {
    let site = shared_site(alloc, alloc, THREE_CHANNELS)?;
    let desk = empty_desk(alloc, &site)?;
    Ok(Controller::new(alloc, Leaving::new(desk, 12), site))
}

/// The call is looked at, its attempt taken back, and its target released; it isn't ended any more.
fn is_owed(
    rt: &impl Abort,
    alloc: Global,
    controller: &mut Controller<Leaving, Global>,
) -> Result<(), Fail> {
    are_handled(rt, alloc, controller, BEFORE);
    owes(rt, alloc, controller, "clear 1", "out abis 1 1 082e010b\n")
}

#[test]
fn what_is_owed_is_told_where_a_seat_becomes_foreign(rt: HostRuntime) -> Result<(), Fail> {
    is_owed(&rt, rt.alloc(), &mut leaving(rt.alloc())?)
}
