//! The forms of lines: what the first word of a line is, and those behind it.
ghost use Rattle.std.specs.Prelude.{◌≡◌, Some, option_map};
ghost use Rattle.lab_script.specs.Forms as said;

use crate::report::report_of;
pub use crate::words::cut_word;
use crate::words::{
    answer, call_number, count, habit, has_fourth, has_second, held, is_of_call, is_on_a,
    is_on_abis, octet, rate, timer, timeslot, whom,
};
use std::fmt;

/// What a word of a line is.
#[derive(Clone, Copy, Debug, PartialEq, Eq)]
pub enum Slot {
    /// The number of a call, 0 to 65535.
    Call,
    /// The number of a cell, 0 to 255.
    Cell,
    /// The number of a TRX, 0 to 255.
    Trx,
    /// The number of a timeslot, 0 to 7, and `/0` or `/1` behind it for a half.
    Timeslot,
    /// A message on Abis: its octets in hexadecimal, or in words. It takes the rest of the line.
    OnAbis,
    /// A message on A, as well.
    OnA,
    /// The name of a timer.
    Timer,
    /// The name of a rate.
    Rate,
    /// What mobiles on a channel do.
    Habit,
    /// A number of octets, 1 to 255.
    Count,
    /// The number of a call, or `all`.
    Whom,
    /// What a station keeps back of a mobile that arrives.
    Held,
    /// What a station says of a channel.
    Answer,
    /// What is reported. It takes the rest of the line.
    Fields,
}

impl Slot {
    /// What the word is called.
    pub fn name(self) -> &'static str {
        match self {
            Slot::Call => "CALL",
            Slot::Cell => "CELL",
            Slot::Trx => "TRX",
            Slot::Timeslot => "TN",
            Slot::OnAbis | Slot::OnA => "HEX",
            Slot::Timer => "TIMER",
            Slot::Rate => "RATE",
            Slot::Habit => "HABIT",
            Slot::Count => "N",
            Slot::Whom => "CALL",
            Slot::Held | Slot::Answer => "ANSWER",
            Slot::Fields => "FIELD",
        }
    }

    /// Whether it takes the rest of the line.
    pub fn takes_rest(self) -> bool
        ensures rest { result ≡ said.takes_rest self }
    {
        match self {
            Slot::OnAbis | Slot::OnA | Slot::Fields => true,
            Slot::Call
            | Slot::Cell
            | Slot::Trx
            | Slot::Timeslot
            | Slot::Timer
            | Slot::Rate
            | Slot::Habit
            | Slot::Count
            | Slot::Whom
            | Slot::Held
            | Slot::Answer => false,
        }
    }

    /// Whether a word, or the rest of a line, may stand in this slot.
    pub fn fits(self, word: &str) -> bool
        ensures fits { result ≡ said.fits self word.now }
    {
        match self {
            Slot::Call => call_number(word).is_some(),
            Slot::Cell => octet(word).is_some(),
            Slot::Trx => octet(word).is_some(),
            Slot::Timeslot => timeslot(word).is_some(),
            Slot::OnAbis => is_on_abis(word),
            Slot::OnA => is_on_a(word),
            Slot::Timer => timer(word).is_some(),
            Slot::Rate => rate(word).is_some(),
            Slot::Habit => habit(word).is_some(),
            Slot::Count => count(word).is_some(),
            Slot::Whom => whom(word).is_some(),
            Slot::Held => held(word).is_some(),
            Slot::Answer => answer(word).is_some(),
            Slot::Fields => report_of(word).is_some(),
        }
    }
}

/// The form of a line, by its first word.
#[derive(Clone, Copy, Debug, PartialEq, Eq)]
pub enum Form {
    Open,
    Seize,
    Handover,
    Undo,
    Clear,
    Expire,
    Abis,
    A,
    Sim,
    Refuse,
    Hold,
    Let,
    Mobile,
    Double,
    Cut,
    /// `restart` with a cell.
    Restart,
    HangUp,
    /// `report`: what mobiles report of the channels that they are on.
    Report,
    /// `answer`: what a station says of the channel of a call.
    Answer,
    /// `hold` with the answer that is kept back.
    HoldAnswer,
    /// `mobile` with a call.
    MobileOf,
    /// `restart` with a TRX.
    RestartTrx,
}

/// The forms of lines that an operator or a timer gives, and of messages.
pub const INPUTS: &[Form] = &[
    Form::Open,
    Form::Seize,
    Form::Handover,
    Form::Undo,
    Form::Clear,
    Form::Expire,
    Form::Abis,
    Form::A,
    Form::Report,
    Form::Answer,
];

/// The forms of lines that ask something of what is simulated.
pub const SETTINGS: &[Form] = &[
    Form::Refuse,
    Form::Hold,
    Form::Let,
    Form::Mobile,
    Form::Double,
    Form::Cut,
    Form::Restart,
    Form::HangUp,
];

/// The one of some forms that has this keyword.
fn form_among(forms: &[Form], keyword: &str) -> Option<Form>
    ensures { result ≡ said.form_among forms.now keyword.now }
{
    forms.iter().find(|form| keyword == form.keyword()).copied()
}

/// The form of a line for what is simulated.
fn simulated_form(keyword: &str) -> Option<Form>
    ensures { result ≡ said.form_among said.simulated_forms keyword.now }
{
    if keyword == Form::Sim.keyword() {
        Some(Form::Sim)
    } else {
        form_among(SETTINGS, keyword)
    }
}

/// The form of the lines that begin with this word; of two the first.
#[tactic(auto, unfolding(crate::specs::Forms::form_named))]
pub fn form_named(keyword: &str) -> Option<Form>
    ensures form { result ≡ said.form_named keyword.now }
{
    match form_among(INPUTS, keyword) {
        Some(form) => Some(form),
        None => simulated_form(keyword),
    }
}

/// The form of the lines that begin with this word, and go on so.
pub fn form_of(keyword: &str, rest: Option<&str>) -> Option<Form>
    ensures form { result ≡ said.form_of keyword.now (option_map (λ text. text.now) rest.entry) }
{
    Some(form_named(keyword)?.going_on(rest))
}

impl Form {
    /// The form of a line that goes on so, of two that begin with one word.
    fn going_on(self, rest: Option<&str>) -> Form
        ensures { result ≡ said.going_on (option_map (λ text. text.now) rest.entry) self }
    {
        match self {
            Form::Hold if has_fourth(rest) => Form::HoldAnswer,
            Form::Mobile if is_of_call(rest) => Form::MobileOf,
            Form::Restart if has_second(rest) => Form::RestartTrx,
            form => form,
        }
    }

    /// The first word, by which the form is found again, or the other that begins with it.
    #[tactic(auto, unfolding(crate::specs::Forms::form_named))]
    pub fn keyword(self) -> &'static str
        ensures keyword { result.now ≡ said.keyword self }
        ensures found { said.form_named (said.keyword self) ≡ Some (said.first_with self) }
    {
        match self {
            Form::Open => "open",
            Form::Seize => "seize",
            Form::Handover => "handover",
            Form::Undo => "undo",
            Form::Clear => "clear",
            Form::Expire => "expire",
            Form::Abis => "abis",
            Form::A => "a",
            Form::Sim => "sim",
            Form::Refuse => "refuse",
            Form::Hold | Form::HoldAnswer => "hold",
            Form::Let => "let",
            Form::Mobile | Form::MobileOf => "mobile",
            Form::Double => "double",
            Form::Cut => "cut",
            Form::Restart | Form::RestartTrx => "restart",
            Form::HangUp => "hangup",
            Form::Report => "report",
            Form::Answer => "answer",
        }
    }

    /// What the words behind the first are.
    pub fn slots(self) -> &'static [Slot]
        ensures slots { result.now ≡ said.slots_of self }
    {
        match self {
            Form::Open => &[Slot::Call, Slot::Cell, Slot::Trx, Slot::Timeslot],
            Form::Seize => &[Slot::Call, Slot::Cell, Slot::Rate],
            Form::Handover => &[Slot::Call, Slot::Cell],
            Form::Undo | Form::Clear | Form::HangUp => &[Slot::Call],
            Form::Expire => &[Slot::Call, Slot::Timer],
            Form::Abis => &[Slot::Cell, Slot::Trx, Slot::OnAbis],
            Form::A => &[Slot::Call, Slot::OnA],
            Form::Sim => &[],
            Form::Refuse | Form::Hold | Form::Let | Form::Double => {
                &[Slot::Cell, Slot::Trx, Slot::Timeslot]
            }
            Form::Mobile => &[Slot::Cell, Slot::Trx, Slot::Timeslot, Slot::Habit],
            Form::Cut => &[Slot::Cell, Slot::Trx, Slot::Timeslot, Slot::Count],
            Form::Report => &[Slot::Whom, Slot::Fields],
            Form::Answer => &[Slot::Call, Slot::Answer],
            Form::HoldAnswer => &[Slot::Cell, Slot::Trx, Slot::Timeslot, Slot::Held],
            Form::MobileOf => &[Slot::Call, Slot::Habit],
            Form::Restart => &[Slot::Cell],
            Form::RestartTrx => &[Slot::Cell, Slot::Trx],
        }
    }

    /// Whether a line of this form asks something of what is simulated, which has to be there then.
    pub fn needs_sim(self) -> bool
        ensures sim { result ≡ said.needs_sim self }
    {
        match self {
            Form::Refuse
            | Form::Hold
            | Form::Let
            | Form::Mobile
            | Form::Double
            | Form::Cut
            | Form::Restart
            | Form::HangUp
            | Form::HoldAnswer
            | Form::MobileOf
            | Form::RestartTrx => true,
            Form::Open
            | Form::Seize
            | Form::Handover
            | Form::Undo
            | Form::Clear
            | Form::Expire
            | Form::Abis
            | Form::A
            | Form::Sim
            | Form::Report
            | Form::Answer => false,
        }
    }
}

/// Its first word, and what stands behind that, as in `undo CALL`.
impl fmt::Display for Form {
    fn fmt<W: fmt::Write>(&self, f: &mut fmt::Formatter<W>) -> fmt::Result {
        f.write_str(self.keyword())?;
        for slot in self.slots() {
            write!(f, " {}", slot.name())?;
        }
        Ok(())
    }
}
