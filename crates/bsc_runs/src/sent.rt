//! What a controller sent, as far as its links need it.
ghost use Rattle.std.specs.Prelude.{◌≡◌, ◌/◌, ◌%◌};
ghost use Rattle.bsc_runs.specs.Sent.{is_at, is_channel_release, chan_named, sent_away_by, sent_away_in, sent_away};

use channel_fsm::ChanId;
use exchange::Outbound;
use octet_elements::sub_of_type;
use run_listeners::Answer;
use std::alloc::Allocator;

/// Whether this octet stands at a place.
fn is_at(octets: &[u8], place: usize, octet: u8) -> bool
    ensures { result ≡ is_at octets.now place octet }
{
    match octets.get(place) {
        Some(found) => *found == octet,
        None => false,
    }
}

/// Whether it is the canonical text of a DATA REQUEST (TS 48.058 clause 8.3.1) with CHANNEL RELEASE (TS 44.018 clause 9.1.7).
fn is_channel_release(octets: &[u8]) -> bool
    ensures { result ≡ is_channel_release octets.now }
{
    // head, channel number, link identifier, L3 information
    is_at(octets, 0, 0x03)
        && is_at(octets, 1, 0x01)
        && is_at(octets, 2, 0x01)
        && is_at(octets, 4, 0x02)
        && is_at(octets, 6, 0x0B)
        && is_at(octets, 9, 0x06)
        && is_at(octets, 10, 0x0D)
}

/// The channel of a TRX that a channel number names (TS 48.058 clause 9.3.1).
fn chan_named(cell: u8, trx: u8, number: u8) -> Option<ChanId>
    ensures { result ≡ chan_named cell trx number }
{
    match sub_of_type(number / 8) {
        Some(sub) => Some(ChanId {
            cell,
            trx,
            tn: number % 8,
            sub,
        }),
        None => None,
    }
}

/// The channel on which a message to a TRX sends the mobile away.
fn sent_away_by(cell: u8, trx: u8, octets: &[u8]) -> Option<ChanId>
    ensures { result ≡ sent_away_by cell trx octets.now }
{
    if !is_channel_release(octets) {
        return None;
    }
    match octets.get(3) {
        Some(number) => chan_named(cell, trx, *number),
        None => None,
    }
}

/// The channel on which messages send the mobile away: that of the first that does.
fn sent_away_in<A: Allocator>(messages: &[Outbound<A>]) -> Option<ChanId>
    ensures { result ≡ sent_away_in messages.now }
{
    match messages {
        [] => None,
        [Outbound::A { .. }, rest @ ..] => sent_away_in(rest),
        [Outbound::Abis { cell, trx, bytes }, rest @ ..] => {
            match sent_away_by(*cell, *trx, bytes.as_slice()) {
                Some(chan) => Some(chan),
                None => sent_away_in(rest),
            }
        }
    }
}

/// The channel on which a controller sent CHANNEL RELEASE.
pub fn sent_away<A: Allocator>(answer: &Answer<A>) -> Option<ChanId>
    ensures { result ≡ sent_away answer.now }
{
    match answer {
        Answer::Sent(messages) => sent_away_in(messages.as_slice()),
        Answer::Undecoded(_) => None,
    }
}
