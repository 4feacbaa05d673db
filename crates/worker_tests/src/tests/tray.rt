//! The tray of a storm: what a worker sends lies there once, in its order.
use call_worker::Links;
use exchange::Outbound;
use octet_elements::Octets;
use std::alloc::Global;
use std::process::Abort;
use std::sync::{Arc, Wait};
use std::test::Fail;
use storms::links::TrayLinks;
use storms::tray::Tray;

/// A message about a call.
fn message(rt: &impl Abort, alloc: Global, call: u16) -> Outbound<Global> {
    Outbound::A {
        call,
        bytes: Octets::new(alloc, &[0x00, 0x01, 0x21]).expect(rt, "octets"),
    }
}

/// The call that the next message on the tray is about. So many inputs were given.
fn next_call<R: Wait>(rt: &R, tray: &Tray<Global>, given: u64) -> Option<u16> {
    match tray.take_up(rt, given) {
        Some(Outbound::A { call, .. }) => Some(call),
        Some(Outbound::Abis { .. }) | None => None,
    }
}

/// What a worker sends for an input, and that it is done with it.
fn works<R: Wait + Abort + Drop>(rt: &R, alloc: Global, links: &mut TrayLinks<R, Global>) {
    let is_sent = links.send(message(rt, alloc, 1)).is_ok();
    assert!(rt; is_sent);
    let is_sent = links.send(message(rt, alloc, 2)).is_ok();
    assert!(rt; is_sent);
    links.done();
}

#[test]
fn what_is_sent_lies_on_the_tray_once(rt: HostRuntime) -> Result<(), Fail> {
    let tray = Arc::new(rt.alloc(), Tray::new(rt.alloc()))?;
    let mut links = TrayLinks::new(rt.clone()?, rt.alloc(), Arc::try_clone(&tray)?);
    works(&rt, rt.alloc(), &mut links);
    let calls = [
        next_call(&rt, &tray, 1),
        next_call(&rt, &tray, 1),
        next_call(&rt, &tray, 1),
    ];
    assert!(&rt; calls == [Some(1), Some(2), None]);
    Ok(())
}
