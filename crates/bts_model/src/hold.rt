//! Answers that stations keep back.
ghost use Rattle.std.specs.Prelude.{◌≡◌, ◌<◌, length, filter, not, IfOk, IfSome, OnErr, ◌≢◌, []};
ghost use Rattle.bts_model.specs.Keys.{is_same_place};
ghost use Rattle.std.specs.List.{position};
ghost use Rattle.bts_model.specs.Holds.{kind_of, is_kind, awaits, hold_of, kept_by, kept_of};
ghost use Rattle.bts_model.specs.Departures.{keeping, kept_in};
ghost use Rattle.bts_model.specs.Restarts.{restarts, unheld};

use crate::answer::Answer;
use crate::place::{Place, is_same_place};
use crate::restart::Restart;
use crate::setting::Held;
use std::alloc::{AllocError, Allocator};

/// A hold of a channel: it keeps one answer of its kind, once there is one.
#[derive(Clone, Copy)]
pub struct Hold {
    pub place: Place,
    pub held: Held,
    pub kept: Option<Answer>,
}

/// Which holds may keep the answer.
fn kind_of(answer: Answer) -> Option<Held>
    ensures { result ≡ kind_of answer }
{
    match answer {
        Answer::ActivationAck | Answer::ReleaseAck => Some(Held::Acknowledgement),
        Answer::Detection => Some(Held::Detection),
        Answer::Complete => Some(Held::Complete),
        Answer::ActivationNack | Answer::Failure => None,
    }
}

/// Whether two kinds are the same.
fn is_kind(held: Held, other: Held) -> bool
    ensures { result ≡ is_kind held other }
{
    match (held, other) {
        (Held::Acknowledgement, Held::Acknowledgement)
        | (Held::Detection, Held::Detection)
        | (Held::Complete, Held::Complete) => true,
        (Held::Acknowledgement, Held::Detection | Held::Complete)
        | (Held::Detection, Held::Acknowledgement | Held::Complete)
        | (Held::Complete, Held::Acknowledgement | Held::Detection) => false,
    }
}

/// The hold is one of the channel for this kind that has kept nothing yet.
fn awaits(place: Place, held: Held, hold: &Hold) -> bool
    ensures { result ≡ awaits place held hold.now }
{
    is_same_place(place, hold.place) && is_kind(hold.held, held) && hold.kept.is_none()
}

fn first_awaiting(holds: &[Hold], place: Place, held: Held) -> Option<usize>
    ensures place { result ≡ position (awaits place held) holds.now }
    ensures within { IfSome result (λ n. n < length holds.now) }
{
    holds.iter().position(|hold| awaits(place, held, hold))
}

/// Where the hold stands that keeps this answer about a channel.
pub fn hold_of(holds: &[Hold], place: Place, answer: Answer) -> Option<usize>
    ensures place { result ≡ hold_of holds.now place answer }
    ensures within { IfSome result (λ n. n < length holds.now) }
{
    match kind_of(answer) {
        Some(held) => first_awaiting(holds, place, held),
        None => None,
    }
}

/// What the holds of a channel have kept, in order.
pub fn all_kept<A: Allocator + Copy>(
    alloc: A,
    holds: &[Hold],
    place: Place,
) -> Result<Vec<Answer, A>, AllocError>
    ensures kept { IfOk result (λ kept. kept.items ≡ kept_of place holds.now) }
    ensures memory { OnErr result (kept_of place holds.now ≢ []) }
{
    let mut kept = Vec::new(alloc);
    for hold in holds {
        if let Some(answer) = kept_by(place, hold) {
            kept.push(answer)?;
        }
    }
    Ok(kept)
}

/// What a hold has kept, where it is one of the channel.
fn kept_by(place: Place, hold: &Hold) -> Option<Answer>
    ensures { result ≡ kept_by place hold.now }
{
    if is_same_place(place, hold.place) {
        hold.kept
    } else {
        None
    }
}

/// Ends the holds of a channel.
pub fn end_holds<A: Allocator>(holds: &mut Vec<Hold, A>, place: Place)
    ensures { holds.new.items ≡ filter (λ hold. not (is_same_place place hold.place)) holds.old.items }
{
    holds.retain(|hold| !is_same_place(place, hold.place));
}

/// Ends the holds of the channels of a station that restarts.
pub fn end_restarted<A: Allocator>(holds: &mut Vec<Hold, A>, restart: Restart)
    ensures { holds.new.items ≡ unheld restart holds.old.items }
{
    holds.retain(|hold| !has_hold(restart, hold));
}

/// Whether a hold is one of a channel of a station that restarts.
fn has_hold(restart: Restart, hold: &Hold) -> bool
    ensures { result ≡ restarts restart hold.now.place.controller hold.now.place.channel.cell
        hold.now.place.channel.trx }
{
    let Place {
        controller,
        channel,
    } = hold.place;
    restart.has(controller, channel.cell, channel.trx)
}

/// A hold, by its place among all, keeps an answer.
pub fn keep<A: Allocator>(holds: &mut Vec<Hold, A>, hold: usize, answer: Answer)
    requires { hold < length holds.old.items }
    ensures kept { holds.new.items ≡ keeping holds.old.items hold answer }
    ensures length { length holds.new.items ≡ length holds.old.items }
{
    holds[hold].kept = Some(answer);
}

/// Keeps an answer, where there is such a hold.
pub fn keep_in<A: Allocator>(holds: &mut Vec<Hold, A>, hold: Option<usize>, answer: Answer)
    requires { IfSome hold (λ n. n < length holds.old.items) }
    ensures kept { holds.new.items ≡ kept_in holds.old.items hold answer }
    ensures length { length holds.new.items ≡ length holds.old.items }
{
    if let Some(hold) = hold {
        keep(holds, hold, answer);
    }
}
