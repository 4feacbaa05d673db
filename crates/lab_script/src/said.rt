//! What a line says, by its form and its words.
ghost use Rattle.std.specs.Prelude.{◌≡◌, is_some, option_map};
ghost use Rattle.lab_script.specs.Said as said;

use crate::asked::Asked;
use crate::forms::{Form, form_of};
use crate::report::report_of;
use crate::side::{Side, cut_side};
use crate::values::{Values, values_of};
use crate::words::{cut_word, is_on_a, is_on_abis};
use attempt_journal::Timer;
use bts_model::{Act, Habit, Held, Restart, Setting};
use exchange::Line;

/// What a line says, without its message.
#[derive(Clone, Copy)]
pub(crate) enum Said {
    /// An operator asks for this.
    Operator(Line),
    /// A timer of a call ran out.
    Expiry { call: u16, timer: Timer },
    /// A message comes from a TRX of a cell.
    Abis { cell: u8, trx: u8 },
    /// A message comes about a call.
    A { call: u16 },
    /// Something is asked of a simulated station or of a mobile.
    Set(Setting),
    /// The simulated switching centre hangs up a call.
    HangUp(u16),
    /// Something is asked of the controller's book.
    Ask(Asked),
    /// The habit of the mobile of a call.
    MobileOf { call: u16, habit: Habit },
    /// A simulated station restarts.
    Restart(Restart),
}

/// An act at the channel of a line.
fn set(side: Side, values: Values, act: Act) -> Option<Said>
    ensures { result ≡ said.set side values act }
{
    Some(Said::Set(Setting::of(side.number(), values.channel()?, act)))
}

/// What a line of this form says to a controller by its words, and by what the last of them took with the rest of the line.
fn said_of(side: Side, form: Form, values: Values, kept: &str) -> Option<Said>
    ensures { result ≡ said.said_of side form values kept.now }
{
    match form {
        Form::Open => Some(Said::Operator(Line::Open {
            call: values.call?,
            chan: values.channel()?,
        })),
        Form::Seize => Some(Said::Operator(Line::Seize {
            call: values.call?,
            cell: values.cell?,
            rate: values.rate?,
        })),
        Form::Handover => Some(Said::Operator(Line::Handover {
            call: values.call?,
            cell: values.cell?,
        })),
        Form::Undo => Some(Said::Operator(Line::Undo { call: values.call? })),
        Form::Clear => Some(Said::Operator(Line::Clear { call: values.call? })),
        Form::Expire => Some(Said::Expiry {
            call: values.call?,
            timer: values.timer?,
        }),
        Form::Abis => Some(Said::Abis {
            cell: values.cell?,
            trx: values.trx?,
        }),
        Form::A => Some(Said::A { call: values.call? }),
        // it is for both controllers: `is_sim`
        Form::Sim => None,
        Form::Refuse => set(side, values, Act::Refuse),
        Form::Hold => set(side, values, Act::Hold(Held::Acknowledgement)),
        Form::HoldAnswer => set(side, values, Act::Hold(values.held?)),
        Form::Let => set(side, values, Act::Release),
        Form::Mobile => set(side, values, Act::Mobile(values.habit?)),
        Form::Double => set(side, values, Act::Double),
        Form::Cut => set(side, values, Act::Cut(values.count?)),
        Form::HangUp => Some(Said::HangUp(values.call?)),
        Form::Report => Some(Said::Ask(Asked::Report {
            whom: values.whom?,
            report: report_of(kept)?,
        })),
        Form::Answer => Some(Said::Ask(Asked::Answer {
            call: values.call?,
            answer: values.answer?,
        })),
        Form::MobileOf => Some(Said::MobileOf {
            call: values.call?,
            habit: values.habit?,
        }),
        Form::Restart => Some(Said::Restart(Restart {
            controller: side.number(),
            cell: values.cell?,
            trx: None,
        })),
        Form::RestartTrx => Some(Said::Restart(Restart {
            controller: side.number(),
            cell: values.cell?,
            trx: Some(values.trx?),
        })),
    }
}

/// What a text of this form says to a controller by the words behind its first, and its message, as it stands there.
fn said_by<'a>(side: Side, form: Form, rest: Option<&'a str>) -> Option<(Said, &'a str)>
    ensures { option_map (λ r. (r.0, r.1.now)) result ≡ said.said_by side
        (option_map (λ text. text.now) rest.entry) form }
{
    let (values, kept) = values_of(form.slots(), rest)?;
    Some((said_of(side, form, values, kept)?, kept))
}

/// What a line says, and its message, as it stands there; nothing if it is no line.
pub(crate) fn line_said(line: &str) -> Option<(Said, &str)>
    ensures { option_map (λ r. (r.0, r.1.now)) result ≡ said.line_said line.now }
{
    let (side, text) = cut_side(line);
    let (word, rest) = cut_word(text);
    said_by(side, form_of(word, rest)?, rest)
}

impl Said {
    /// Whether it asks something of the simulators.
    pub(crate) fn needs_sim(self) -> bool
        ensures { result ≡ said.needs_sim self }
    {
        match self {
            Said::Set(_) | Said::HangUp(_) | Said::MobileOf { .. } | Said::Restart(_) => true,
            Said::Operator(_)
            | Said::Expiry { .. }
            | Said::Abis { .. }
            | Said::A { .. }
            | Said::Ask(_) => false,
        }
    }

    /// Whether it can be given with this message.
    pub(crate) fn is_given(self, message: &str) -> bool
        ensures { result ≡ is_some (said.given {A = Unit} message.now self) }
    {
        match self {
            Said::Abis { .. } => is_on_abis(message),
            Said::A { .. } => is_on_a(message),
            Said::Operator(_) => true,
            Said::Expiry { .. } => true,
            Said::Set(_) => true,
            Said::HangUp(_) => true,
            Said::Ask(_) => true,
            Said::MobileOf { .. } => true,
            Said::Restart(_) => true,
        }
    }
}
