//! What goes into a controller with the links of its stations, and what comes out of it: what came on a link, timers, operators'
//! lines; what leaves, what is passed on, timers that start and stop. It needs no book: the lines of the program `bsc` stand on it
//! alone.
#![tactic(auto)]

use attempt_journal::Timer;
use channel_fsm::ChanId;
use exchange::Line;
use link_tables::Timer as ChannelTimer;
use octet_elements::Octets;
use std::alloc::{Allocator, Global};

/// A timer, and whose it is.
#[derive(Clone, Copy, Debug, PartialEq, Eq)]
pub enum TimerKey {
    /// T3103, T7 or T8 of a call.
    Call { call: u16, timer: Timer },
    /// A timer of a traffic channel.
    Channel { chan: ChanId, timer: ChannelTimer },
}

/// What a controller with its links is given. A call is named by its number, 0 to 65535.
#[derive(Drop)]
pub enum LinkInput<A: Allocator = Global> {
    /// A bridge begins: no link is there.
    Begin,
    /// The link of a TRX of a cell comes, or is lost.
    Link { cell: u8, trx: u8, is_up: bool },
    /// The link to the switching centre comes, or is lost.
    Centre { is_up: bool },
    /// A message on Abis came from a TRX of a cell.
    Abis { cell: u8, trx: u8, bytes: Octets<A> },
    /// A message on A came about a call.
    A { call: u16, bytes: Octets<A> },
    /// The controller is given a message on Abis in a station's place.
    ForAbis { cell: u8, trx: u8, bytes: Octets<A> },
    /// The controller is given a message on A in the switching centre's place.
    ForA { call: u16, bytes: Octets<A> },
    /// A message on Abis is sent to a TRX of a cell, as it is.
    SendAbis { cell: u8, trx: u8, bytes: Octets<A> },
    /// A message on A is sent about a call, as it is.
    SendA { call: u16, bytes: Octets<A> },
    /// A timer ran out.
    Expired(TimerKey),
    /// What an operator asks the controller for.
    Operator(Line),
    /// An operator bars a channel.
    Bar(ChanId),
    /// An operator ends the bar of a channel.
    Unbar(ChanId),
    /// The mobile of a call was told to leave the channel that it is served on; or it was heard again.
    Away { call: u16, is_away: bool },
    /// Whether the measurement reports of a call are heeded.
    Reports { call: u16, are_heeded: bool },
    /// The timing advance with which the next channel of a call is activated.
    Advance { call: u16, advance: u8 },
    /// From here on HANDOVER COMMAND is said, and the bridge sends it.
    BridgeCommands,
}

/// Why nothing is done about what came.
#[derive(Clone, Copy, Debug, PartialEq, Eq)]
pub enum Why {
    /// No row of the channel expects it in its state.
    Unexpected,
    /// The octets are no message of a station about a traffic channel.
    NoMessage,
    /// The site has no such channel.
    NoChannel,
    /// The site has no such TRX.
    NoStation,
    /// The link of the TRX isn't there.
    NoLink,
    /// The timer doesn't run.
    NoTimer,
    /// The book has no such call.
    NoCall,
    /// The call can't begin a handover now: its mobile is on its way, or its end was asked for.
    NotNow,
}

/// What a controller with its links does, one thing at a time.
#[derive(Drop)]
pub enum LinkOutput<A: Allocator = Global> {
    /// A message on Abis is sent to a TRX of a cell.
    OutAbis { cell: u8, trx: u8, bytes: Octets<A> },
    /// A message on A is sent about a call.
    OutA { call: u16, bytes: Octets<A> },
    /// A message on Abis that came from a TRX of a cell goes on to the bridge.
    PassAbis { cell: u8, trx: u8, bytes: Octets<A> },
    /// The controller said a message on Abis to a TRX of a cell, and it isn't sent so.
    SaidAbis { cell: u8, trx: u8, bytes: Octets<A> },
    /// The controller said a message on A about a call, and it isn't sent so.
    SaidA { call: u16, bytes: Octets<A> },
    /// A timer starts, anew if it runs.
    Start(TimerKey),
    /// A timer stops, if it runs.
    Stop(TimerKey),
    /// Nothing is done about what came.
    Count(Why),
}
