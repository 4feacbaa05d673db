//! Lines, written.
ghost use Rattle.std.specs.Prelude.{Some};
ghost use Rattle.link_lines.specs.Text.{hex_octet, hex_text, channel_text, call_timer, channel_timer, key_text, rate_word, operators_text, switch_word, up_word, input_text};

use attempt_journal::Timer;
use channel_fsm::{ChanId, Rate, Sub};
use exchange::Line;
use link_exchange::{LinkInput, LinkOutput, TimerKey, Why};
use link_tables::Timer as ChannelTimer;
use std::alloc::Allocator;
use std::fmt;

/// An octet as two small hexadecimal digits.
#[derive(Clone, Copy)]
struct HexOctet(u8);

impl fmt::Display for HexOctet {
    ghost output = { λ text. Some (hex_octet text.0) };

    fn fmt<W: fmt::Write>(&self, f: &mut fmt::Formatter<W>) -> fmt::Result {
        write!(f, "{:02x}", self.0)
    }
}

/// Octets, each as two small hexadecimal digits.
#[derive(Clone, Copy)]
struct HexText<'a>(&'a [u8]);

impl fmt::Display for HexText<'_> {
    ghost output = { λ text. Some (hex_text text.0.now) };

    fn fmt<W: fmt::Write>(&self, f: &mut fmt::Formatter<W>) -> fmt::Result {
        let octets = self.0;
        for octet in octets {
            write!(f, "{}", HexOctet(*octet))?;
        }
        Ok(())
    }
}

/// A channel in a line: its cell, its TRX and its timeslot, and behind that `/0` or `/1` for a half.
#[derive(Clone, Copy)]
struct ChannelText(ChanId);

impl fmt::Display for ChannelText {
    ghost output = { λ text. Some (channel_text text.0) };

    fn fmt<W: fmt::Write>(&self, f: &mut fmt::Formatter<W>) -> fmt::Result {
        let ChanId { cell, trx, tn, sub } = self.0;
        match sub {
            Sub::Full => write!(f, "{cell} {trx} {tn}"),
            Sub::Half0 => write!(f, "{cell} {trx} {tn}/0"),
            Sub::Half1 => write!(f, "{cell} {trx} {tn}/1"),
        }
    }
}

/// The name of a timer of a call.
#[derive(Clone, Copy)]
struct CallTimer(Timer);

impl fmt::Display for CallTimer {
    ghost output = { λ text. Some (call_timer text.0) };

    fn fmt<W: fmt::Write>(&self, f: &mut fmt::Formatter<W>) -> fmt::Result {
        f.write_str(match self.0 {
            Timer::T3103 => "T3103",
            Timer::T7 => "T7",
            Timer::T8 => "T8",
        })
    }
}

/// The name of a timer of a channel.
#[derive(Clone, Copy)]
struct ChannelTimerText(ChannelTimer);

impl fmt::Display for ChannelTimerText {
    ghost output = { λ text. Some (channel_timer text.0) };

    fn fmt<W: fmt::Write>(&self, f: &mut fmt::Formatter<W>) -> fmt::Result {
        f.write_str(match self.0 {
            ChannelTimer::Activation => "activation",
            ChannelTimer::T3109 => "T3109",
            ChannelTimer::T3111 => "T3111",
            ChannelTimer::Release => "release",
            ChannelTimer::Bar => "bar",
        })
    }
}

/// A timer, and whose it is.
#[derive(Clone, Copy)]
struct KeyText(TimerKey);

impl fmt::Display for KeyText {
    ghost output = { λ text. Some (key_text text.0) };

    fn fmt<W: fmt::Write>(&self, f: &mut fmt::Formatter<W>) -> fmt::Result {
        match self.0 {
            TimerKey::Call { call, timer } => write!(f, "{} {call}", CallTimer(timer)),
            TimerKey::Channel { chan, timer } => {
                write!(f, "{} {}", ChannelTimerText(timer), ChannelText(chan))
            }
        }
    }
}

/// The name of a rate.
#[derive(Clone, Copy)]
struct RateText(Rate);

impl fmt::Display for RateText {
    ghost output = { λ text. Some (rate_word text.0) };

    fn fmt<W: fmt::Write>(&self, f: &mut fmt::Formatter<W>) -> fmt::Result {
        f.write_str(match self.0 {
            Rate::Full => "full",
            Rate::Half => "half",
        })
    }
}

/// What an operator asks for.
#[derive(Clone, Copy)]
struct OperatorsText(Line);

impl fmt::Display for OperatorsText {
    ghost output = { λ text. Some (operators_text text.0) };

    fn fmt<W: fmt::Write>(&self, f: &mut fmt::Formatter<W>) -> fmt::Result {
        match self.0 {
            Line::Open { call, chan } => write!(f, "open {call} {}", ChannelText(chan)),
            Line::Seize { call, cell, rate } => write!(f, "seize {call} {cell} {}", RateText(rate)),
            Line::Handover { call, cell } => write!(f, "handover {call} {cell}"),
            Line::Undo { call } => write!(f, "undo {call}"),
            Line::Clear { call } => write!(f, "clear {call}"),
        }
    }
}

/// `on` or `off`.
#[derive(Clone, Copy)]
struct SwitchText(bool);

impl fmt::Display for SwitchText {
    ghost output = { λ text. Some (switch_word text.0) };

    fn fmt<W: fmt::Write>(&self, f: &mut fmt::Formatter<W>) -> fmt::Result {
        f.write_str(if self.0 { "on" } else { "off" })
    }
}

/// What comes or goes.
#[derive(Clone, Copy)]
struct UpText(bool);

impl fmt::Display for UpText {
    ghost output = { λ text. Some (up_word text.0) };

    fn fmt<W: fmt::Write>(&self, f: &mut fmt::Formatter<W>) -> fmt::Result {
        f.write_str(if self.0 { "up" } else { "down" })
    }
}

/// The line that gives an input.
#[derive(Drop)]
pub struct LinkInputText<'a, A: Allocator>(pub &'a LinkInput<A>);

impl<A: Allocator> fmt::Display for LinkInputText<'_, A> {
    ghost output = { λ text. Some (input_text text.0.now) };

    fn fmt<W: fmt::Write>(&self, f: &mut fmt::Formatter<W>) -> fmt::Result {
        match self.0 {
            LinkInput::Begin => write!(f, "begin"),
            LinkInput::Link { cell, trx, is_up } => write!(f, "{} {cell} {trx}", UpText(*is_up)),
            LinkInput::Centre { is_up } => write!(f, "{} centre", UpText(*is_up)),
            LinkInput::Abis { cell, trx, bytes } => {
                write!(f, "abis {cell} {trx} {}", HexText(bytes.as_slice()))
            }
            LinkInput::A { call, bytes } => write!(f, "a {call} {}", HexText(bytes.as_slice())),
            LinkInput::ForAbis { cell, trx, bytes } => {
                write!(f, "for abis {cell} {trx} {}", HexText(bytes.as_slice()))
            }
            LinkInput::ForA { call, bytes } => {
                write!(f, "for a {call} {}", HexText(bytes.as_slice()))
            }
            LinkInput::SendAbis { cell, trx, bytes } => {
                write!(f, "send abis {cell} {trx} {}", HexText(bytes.as_slice()))
            }
            LinkInput::SendA { call, bytes } => {
                write!(f, "send a {call} {}", HexText(bytes.as_slice()))
            }
            LinkInput::Expired(key) => write!(f, "expired {}", KeyText(*key)),
            LinkInput::Operator(line) => write!(f, "{}", OperatorsText(*line)),
            LinkInput::Bar(chan) => write!(f, "bar {}", ChannelText(*chan)),
            LinkInput::Unbar(chan) => write!(f, "unbar {}", ChannelText(*chan)),
            LinkInput::Away { call, is_away } => write!(f, "away {call} {}", SwitchText(*is_away)),
            LinkInput::Reports { call, are_heeded } => {
                write!(f, "reports {call} {}", SwitchText(*are_heeded))
            }
            LinkInput::Advance { call, advance } => write!(f, "advance {call} {advance}"),
            LinkInput::BridgeCommands => write!(f, "set commands bridge"),
        }
    }
}

/// Why nothing is done, behind `count`.
#[derive(Clone, Copy)]
struct WhyText(Why);

impl fmt::Display for WhyText {
    fn fmt<W: fmt::Write>(&self, f: &mut fmt::Formatter<W>) -> fmt::Result {
        f.write_str(match self.0 {
            Why::Unexpected => "unexpected",
            Why::NoMessage => "no message",
            Why::NoChannel => "no channel",
            Why::NoStation => "no station",
            Why::NoLink => "no link",
            Why::NoTimer => "no timer",
            Why::NoCall => "no call",
            Why::NotNow => "not now",
        })
    }
}

/// The line that says what is done.
#[derive(Drop)]
pub struct LinkOutputText<'a, A: Allocator>(pub &'a LinkOutput<A>);

impl<A: Allocator> fmt::Display for LinkOutputText<'_, A> {
    fn fmt<W: fmt::Write>(&self, f: &mut fmt::Formatter<W>) -> fmt::Result {
        match self.0 {
            LinkOutput::OutAbis { cell, trx, bytes } => {
                write!(f, "out abis {cell} {trx} {}", HexText(bytes.as_slice()))
            }
            LinkOutput::OutA { call, bytes } => {
                write!(f, "out a {call} {}", HexText(bytes.as_slice()))
            }
            LinkOutput::PassAbis { cell, trx, bytes } => {
                write!(f, "pass abis {cell} {trx} {}", HexText(bytes.as_slice()))
            }
            LinkOutput::SaidAbis { cell, trx, bytes } => {
                write!(f, "said abis {cell} {trx} {}", HexText(bytes.as_slice()))
            }
            LinkOutput::SaidA { call, bytes } => {
                write!(f, "said a {call} {}", HexText(bytes.as_slice()))
            }
            LinkOutput::Start(key) => write!(f, "start {}", KeyText(*key)),
            LinkOutput::Stop(key) => write!(f, "stop {}", KeyText(*key)),
            LinkOutput::Count(why) => write!(f, "count {}", WhyText(*why)),
        }
    }
}
