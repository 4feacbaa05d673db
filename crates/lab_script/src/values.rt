//! What the words of a line say, slot by slot.
ghost use Rattle.std.specs.Prelude.{◌≡◌, None, option_map};
ghost use Rattle.lab_script.specs.Values as said;

use crate::asked::Whom;
use crate::forms::Slot;
use crate::words::{
    answer, call_number, count, cut_word, habit, held, octet, rate, timer, timeslot, whom,
};
use attempt_journal::Timer;
use bts_model::{Answer, Habit, Held};
use channel_fsm::{ChanId, Rate, Sub};

/// What the words of a line say, but for what takes its rest.
#[derive(Clone, Copy)]
pub(crate) struct Values {
    pub(crate) call: Option<u16>,
    pub(crate) cell: Option<u8>,
    pub(crate) trx: Option<u8>,
    pub(crate) timeslot: Option<(u8, Sub)>,
    pub(crate) timer: Option<Timer>,
    pub(crate) rate: Option<Rate>,
    pub(crate) habit: Option<Habit>,
    pub(crate) count: Option<u8>,
    pub(crate) whom: Option<Whom>,
    pub(crate) held: Option<Held>,
    pub(crate) answer: Option<Answer>,
}

impl Values {
    /// Those of no words.
    fn none() -> Values
        ensures { result ≡ said.none }
    {
        Values {
            call: None,
            cell: None,
            trx: None,
            timeslot: None,
            timer: None,
            rate: None,
            habit: None,
            count: None,
            whom: None,
            held: None,
            answer: None,
        }
    }

    /// These values, and what a word says in this slot; nothing if it doesn't fit there. What takes the rest of a line is
    /// kept elsewhere.
    fn put(self, slot: Slot, word: &str) -> Option<Values>
        ensures { result ≡ said.put slot word.now self }
    {
        match slot {
            Slot::Call => Some(Values {
                call: Some(call_number(word)?),
                ..self
            }),
            Slot::Cell => Some(Values {
                cell: Some(octet(word)?),
                ..self
            }),
            Slot::Trx => Some(Values {
                trx: Some(octet(word)?),
                ..self
            }),
            Slot::Timeslot => Some(Values {
                timeslot: Some(timeslot(word)?),
                ..self
            }),
            Slot::OnAbis | Slot::OnA | Slot::Fields => Some(self),
            Slot::Timer => Some(Values {
                timer: Some(timer(word)?),
                ..self
            }),
            Slot::Rate => Some(Values {
                rate: Some(rate(word)?),
                ..self
            }),
            Slot::Habit => Some(Values {
                habit: Some(habit(word)?),
                ..self
            }),
            Slot::Count => Some(Values {
                count: Some(count(word)?),
                ..self
            }),
            Slot::Whom => Some(Values {
                whom: Some(whom(word)?),
                ..self
            }),
            Slot::Held => Some(Values {
                held: Some(held(word)?),
                ..self
            }),
            Slot::Answer => Some(Values {
                answer: Some(answer(word)?),
                ..self
            }),
        }
    }

    /// The channel that a cell, a TRX and a timeslot name.
    pub(crate) fn channel(self) -> Option<ChanId>
        ensures { result ≡ said.channel_in self }
    {
        let (tn, sub) = self.timeslot?;
        Some(ChanId {
            cell: self.cell?,
            trx: self.trx?,
            tn,
            sub,
        })
    }
}

/// What the words that are left of a line say, and what the last of them took with the rest of the line; nothing if a word
/// doesn't fit its slot, is missing, or stands behind the last.
fn filled<'a>(
    slots: &[Slot],
    rest: Option<&'a str>,
    values: Values,
    kept: &'a str,
) -> Option<(Values, &'a str)>
    ensures { option_map (λ r. (r.0, r.1.now)) result ≡ said.filled slots.now
        (option_map (λ text. text.now) rest.entry) values kept.now }
{
    let Some(text) = rest else {
        return none_left(slots, values, kept);
    };
    let [slot, slots @ ..] = slots else {
        return None;
    };
    if slot.takes_rest() {
        return none_left(slots, values, text);
    }
    let (word, rest) = cut_word(text);
    match values.put(*slot, word) {
        Some(values) => filled(slots, rest, values, kept),
        None => None,
    }
}

/// The values where no words are left: those that there are, if no slot is left either.
fn none_left<'a>(slots: &[Slot], values: Values, kept: &'a str) -> Option<(Values, &'a str)>
    ensures { option_map (λ r. (r.0, r.1.now)) result ≡ said.filled slots.now None values kept.now }
{
    match slots {
        [] => Some((values, kept)),
        [_, ..] => None,
    }
}

/// What the words of a line behind its first say by these slots, and what the last of them took with the rest of the line.
pub(crate) fn values_of<'a>(slots: &[Slot], rest: Option<&'a str>) -> Option<(Values, &'a str)>
    ensures { option_map (λ r. (r.0, r.1.now)) result ≡ said.values_of slots.now
        (option_map (λ text. text.now) rest.entry) }
{
    filled(slots, rest, Values::none(), "")
}
