//! The events of which an opening is made, of books that events lead to.
ghost use Rattle.std.specs.Prelude.{◌<◌, ◌≤◌};

use cell_table::Site;
use channel_fsm::{ChanId, Sub};
use opening_events::events_to;
use radio_book::book::Book;
use radio_book::event::{Event, Kind, Timer, Why};
use std::alloc::Global;
use std::process::Abort;
use std::sync::Arc;
use std::test::Fail;

/// Two cells. In each, timeslot 3 carries one channel at full rate, or two at half rate.
const SITE: &str = "[handover]
window = 2
margin = 3
minimum = 10
[[cell]]
lac = 23
ci = 100
bcch = 60
ncc = 1
bcc = 1
power = 5
ba = [871]
trx = [{ arfcn = 60, tch = [2, 3], half = [3] }]
[[cell]]
lac = 23
ci = 101
bcch = 871
ncc = 2
bcc = 5
power = 5
ba = [60]
trx = [{ arfcn = 871, tch = [3], half = [3] }]
";

/// Numbers that follow one from the other, each as if by chance.
#[derive(Clone, Copy)]
struct Dice {
    last: u64,
}

impl Dice {
    /// The next, below a limit.
    fn roll(&mut self, limit: u64) -> u8
        requires least { 0 < limit }
        requires most { limit ≤ 256 }
    {
        self.last = self
            .last
            .wrapping_mul(6_364_136_223_846_793_005)
            .wrapping_add(1_442_695_040_888_963_407);
        (self.last / 4_294_967_296 % limit) as u8
    }
}

fn part(number: u8) -> Sub {
    match number {
        0 => Sub::Half0,
        1 => Sub::Half1,
        _ => Sub::Full,
    }
}

/// A channel of either cell; half of these are there.
fn any_channel(dice: &mut Dice) -> ChanId {
    ChanId {
        cell: dice.roll(2),
        trx: 0,
        tn: dice.roll(2).wrapping_add(2),
        sub: part(dice.roll(4)),
    }
}

/// Any event of one of three calls, or on any channel.
fn any_event(dice: &mut Dice) -> Event {
    let call = u16::from(dice.roll(3));
    let chan = any_channel(dice);
    match dice.roll(20) {
        0 | 1 => Event::Open(call, chan),
        2 => Event::Take(call, Kind::Incoming, chan),
        3 | 4 => Event::Take(call, Kind::Internal, chan),
        5 => Event::Reserve(call, dice.roll(2)),
        6 => Event::Activate(call),
        7 | 8 => Event::Confirm(chan),
        9 => Event::Refuse(chan),
        10 => Event::Command(call),
        11 => Event::Detect(chan),
        12 => Event::Complete(call),
        13 => Event::Undo(call, Why::Asked),
        14 => Event::Undo(call, Why::Expired(Timer::T3103)),
        15 => Event::Require(call),
        16 => Event::Order(call),
        17 => Event::Left(call),
        18 => Event::Clear(call),
        _ => Event::Released(chan),
    }
}

fn fresh_book(alloc: Global) -> Result<Book<Global>, Fail> {
    let site = Site::read(alloc, alloc, SITE)?;
    Ok(Book::new(alloc, Arc::new(alloc, site)?)?)
}

/// How far openings came: the longest list, and whether a mobile was detected and an order given in one.
#[derive(Clone, Copy)]
struct Seen {
    longest: usize,
    detected: bool,
    ordered: bool,
    refused: bool,
}

fn see(seen: &mut Seen, events: &[Event]) {
    seen.longest = seen.longest.max(events.len());
    for event in events {
        match event {
            Event::Detect(_) => seen.detected = true,
            Event::Order(_) => seen.ordered = true,
            Event::Refuse(_) => seen.refused = true,
            _ => {}
        }
    }
}

const SERVING: ChanId = ChanId {
    cell: 0,
    trx: 0,
    tn: 2,
    sub: Sub::Full,
};

const TARGET: ChanId = ChanId {
    cell: 1,
    trx: 0,
    tn: 3,
    sub: Sub::Full,
};

const COMES_TO: ChanId = ChanId {
    cell: 1,
    trx: 0,
    tn: 3,
    sub: Sub::Half0,
};

const HELD: ChanId = ChanId {
    cell: 0,
    trx: 0,
    tn: 3,
    sub: Sub::Half1,
};

/// A call goes through all stages of a handover within the controller, and is taken back; one comes from another controller
/// and is refused its channel, one is refused the channel on which it begins; the first is ordered to leave.
const COURSE: [Event; 18] = [
    Event::Open(0, SERVING),
    Event::Confirm(SERVING),
    Event::Take(0, Kind::Internal, TARGET),
    Event::Reserve(0, 1),
    Event::Activate(0),
    Event::Confirm(TARGET),
    Event::Command(0),
    Event::Detect(TARGET),
    Event::Undo(0, Why::Asked),
    Event::Released(TARGET),
    Event::Take(7, Kind::Incoming, COMES_TO),
    Event::Reserve(7, 0),
    Event::Activate(7),
    Event::Refuse(COMES_TO),
    Event::Open(2, HELD),
    Event::Refuse(HELD),
    Event::Require(0),
    Event::Order(0),
];

fn has_one(
    rt: &impl Abort,
    alloc: Global,
    book: &Book<Global>,
    seen: &mut Seen,
) -> Result<(), Fail> {
    match events_to(alloc, book) {
        Ok(events) => see(seen, &events),
        Err(fault) => panic!(rt; "{fault}"),
    }
    Ok(())
}

fn follow(
    rt: &impl Abort,
    alloc: Global,
    book: &mut Book<Global>,
    seen: &mut Seen,
) -> Result<(), Fail> {
    for event in &COURSE {
        let reply = book.step(*event)?;
        assert!(rt; reply.is_accepted(), "{event:?}: {reply:?}");
        has_one(rt, alloc, book, seen)?;
    }
    Ok(())
}

fn go_on_by_chance(
    rt: &impl Abort,
    alloc: Global,
    book: &mut Book<Global>,
    seen: &mut Seen,
) -> Result<(), Fail> {
    let mut dice = Dice { last: 2026 };
    for _ in 0..300u16 {
        if book.step(any_event(&mut dice))?.is_accepted() {
            has_one(rt, alloc, book, seen)?;
        }
    }
    Ok(())
}

#[test]
fn books_that_events_lead_to_have_openings(rt: HostRuntime) -> Result<(), Fail> {
    let alloc = rt.alloc();
    let mut book = fresh_book(alloc)?;
    let mut seen = Seen {
        longest: 0,
        detected: false,
        ordered: false,
        refused: false,
    };
    follow(&rt, alloc, &mut book, &mut seen)?;
    assert!(rt; seen.detected && seen.ordered && seen.refused);
    assert_eq!(rt; seen.longest, 10);
    go_on_by_chance(&rt, alloc, &mut book, &mut seen)
}
