//! Why a line can't be read.
ghost use Rattle.std.specs.Prelude.{◌≡◌, [], None, bytes_eq, option_map};
ghost use Rattle.std.specs.List.{list_any};
ghost use Rattle.std.specs.Str.Lines.{strip_carriage_return};
ghost use Rattle.script_reasons.specs.Reasons as said;

use encoded_messages::{A_FORMS, ABIS_FORMS, MessageForm, name_and_fields};
use lab_script::forms::{Form, Slot, cut_word, form_of as form_by};
use lab_script::report::{FieldsFault, fields_fault};
use lab_script::script::{cut_side, is_blank, is_comment, is_for_peer, is_octets, without_return};

/// What is wrong.
#[derive(Clone, Copy, Debug, PartialEq, Eq)]
pub enum Fault {
    /// The line begins with a byte order mark.
    ByteOrderMark,
    /// The line is for the second controller, but there is none.
    NoPeer,
    /// No line begins with this word. There is a second controller.
    Keyword,
    /// No line begins with this word. There is no second controller.
    LoneKeyword,
    /// No line of the second controller has this word after `2: `.
    PeerKeyword,
    /// The line attaches the simulators of both controllers, but begins with `2: `.
    PeerSim,
    /// The word isn't allowed in its place.
    Word(Slot),
    /// The line ends before this word of its form.
    Missing(Slot, Form),
    /// The word follows the last word of its line's form.
    Behind(Form),
    /// The word isn't a field of a report, has a wrong value, or is given twice.
    Field,
    /// The level of the serving cell is missing in a report.
    NoLevel,
    /// The neighbours are missing in a report.
    NoNeighbours,
    /// The text has the name of a message on Abis, but its fields are wrong.
    OnAbis,
    /// The text has the name of a message on A, but its fields are wrong.
    OnA,
    /// The line itself is right, but needs simulators, and no line before it attaches them.
    NoSim(Form),
}

/// Why a line can't be read.
#[derive(Clone, Copy, Debug, PartialEq, Eq)]
pub struct Reason<'a> {
    pub fault: Fault,
    /// The first wrong word, as it is in the line. If it is in the place of a message and begins with a capital letter, it
    /// is all words up to the first field. It is empty between two blanks, at a blank at the beginning or the end of the
    /// line, and if no word is wrong.
    pub found: &'a str,
}

/// A reason with no word that is wrong.
fn without_word<'a>(fault: Fault) -> Reason<'a>
    ensures fault { result.fault ≡ fault }
    ensures found { result.found.now ≡ [] }
{
    Reason { fault, found: "" }
}

/// What is missing of a line that has no further words.
fn missing<'a>(form: Form, slots: &[Slot]) -> Option<Reason<'a>>
    ensures { option_map (λ reason. (reason.fault, reason.found.now)) result ≡
        said.first_wrong form slots.now None }
{
    match slots {
        [slot, ..] => Some(without_word(Fault::Missing(*slot, form))),
        [] => None,
    }
}

/// Whether a name is that of one of some messages.
fn is_named(forms: &[MessageForm<'static>], name: &str) -> bool
    ensures { result ≡ list_any (λ form. bytes_eq form.name.now name.now) forms.now }
{
    forms.iter().any(|form| form.name == name)
}

/// Whether a text begins with the name of a message on Abis.
fn has_abis_name(text: &str) -> bool
    ensures { result ≡ said.has_abis_name text.now }
{
    let (name, _) = name_and_fields(text);
    is_named(ABIS_FORMS, name)
}

/// Whether a text begins with the name of a message on A.
fn has_a_name(text: &str) -> bool
    ensures { result ≡ said.has_a_name text.now }
{
    let (name, _) = name_and_fields(text);
    is_named(A_FORMS, name)
}

/// Whether a text begins with a capital letter.
fn is_capitalized(text: &str) -> bool
    ensures { result ≡ said.is_capitalized text.now }
{
    match text.as_bytes() {
        [first, ..] => first.is_ascii_uppercase(),
        [] => false,
    }
}

/// What stands where a message should: the name, all of it, where it begins as one does; else the first word.
fn shown_of(text: &str) -> &str
    ensures { result.now ≡ said.shown_of text.now }
{
    let (name, _) = name_and_fields(text);
    if is_capitalized(name) {
        return name;
    }
    let (word, _) = cut_word(text);
    word
}

/// What is wrong with a text that is no message of a slot: with its words, where it has the name of one; else with the name
/// that it has, or its first word; or with what stands behind octets.
fn message_reason(form: Form, slot: Slot, text: &str, words: Option<Fault>) -> Reason<'_>
    ensures { (result.fault, result.found.now) ≡ said.message_reason form slot text.now words }
{
    if let Some(fault) = words {
        return Reason { fault, found: text };
    }
    let (first, rest) = cut_word(text);
    match rest {
        Some(rest) if is_octets(first) => {
            let (found, _) = cut_word(rest);
            let fault = Fault::Behind(form);
            Reason { fault, found }
        }
        Some(_) | None => {
            let fault = Fault::Word(slot);
            let found = shown_of(text);
            Reason { fault, found }
        }
    }
}

/// This fault, where something is so.
fn fault_if(is_so: bool, fault: Fault) -> Option<Fault>
    ensures { result ≡ said.fault_if is_so fault }
{
    if is_so { Some(fault) } else { None }
}

/// What is wrong with the fields of a report.
fn fields_reason(text: &str) -> Reason<'_>
    ensures { (result.fault, result.found.now) ≡ said.fields_reason text.now }
{
    match fields_fault(text) {
        Some(FieldsFault::Word(found)) => Reason {
            fault: Fault::Field,
            found,
        },
        Some(FieldsFault::NoLevel) => without_word(Fault::NoLevel),
        Some(FieldsFault::NoNeighbours) | None => without_word(Fault::NoNeighbours),
    }
}

/// What is wrong with the rest of a line, which stands in this slot; nothing if it may.
fn rest_reason(form: Form, slot: Slot, text: &str) -> Option<Reason<'_>>
    ensures { option_map (λ reason. (reason.fault, reason.found.now)) result ≡
        said.rest_reason form slot text.now }
{
    if slot.fits(text) {
        return None;
    }
    match slot {
        Slot::OnAbis => {
            let words = fault_if(has_abis_name(text), Fault::OnAbis);
            Some(message_reason(form, slot, text, words))
        }
        Slot::OnA => {
            let words = fault_if(has_a_name(text), Fault::OnA);
            Some(message_reason(form, slot, text, words))
        }
        Slot::Fields => Some(fields_reason(text)),
        Slot::Call
        | Slot::Cell
        | Slot::Trx
        | Slot::Timeslot
        | Slot::Timer
        | Slot::Rate
        | Slot::Habit
        | Slot::Count
        | Slot::Whom
        | Slot::Held
        | Slot::Answer => Some(message_reason(form, slot, text, None)),
    }
}

/// The first word that doesn't fill its slot, of those that are left of a line, or what is missing.
fn first_wrong<'a>(form: Form, slots: &[Slot], rest: Option<&'a str>) -> Option<Reason<'a>>
    ensures { option_map (λ reason. (reason.fault, reason.found.now)) result ≡
        said.first_wrong form slots.now (option_map (λ text. text.now) rest.entry) }
{
    let Some(text) = rest else {
        return missing(form, slots);
    };
    let (found, rest) = cut_word(text);
    let [slot, slots @ ..] = slots else {
        let fault = Fault::Behind(form);
        return Some(Reason { fault, found });
    };
    if slot.takes_rest() {
        return rest_reason(form, *slot, text);
    }
    if slot.fits(found) {
        first_wrong(form, slots, rest)
    } else {
        let fault = Fault::Word(*slot);
        Some(Reason { fault, found })
    }
}

/// Whether a line of this form attaches what is simulated.
fn is_sim(form: Form) -> bool
    ensures { result ≡ said.is_sim form }
{
    form == Form::Sim
}

/// What is wrong with the words behind the first of a line of this form.
#[tactic(auto, unfolding(crate::specs::Reasons::form_reason))]
fn form_reason<'a>(is_peer: bool, form: Form, rest: Option<&'a str>) -> Option<Reason<'a>>
    ensures { option_map (λ reason. (reason.fault, reason.found.now)) result ≡
        said.form_reason is_peer (option_map (λ text. text.now) rest.entry) form }
{
    if is_peer && is_sim(form) {
        Some(without_word(Fault::PeerSim))
    } else {
        first_wrong(form, form.slots(), rest)
    }
}

/// What is wrong with a first word that no line has.
fn keyword_fault(has_peer: bool, is_peer: bool) -> Fault
    ensures { result ≡ said.keyword_fault has_peer is_peer }
{
    match (is_peer, has_peer) {
        (true, _) => Fault::PeerKeyword,
        (false, true) => Fault::Keyword,
        (false, false) => Fault::LoneKeyword,
    }
}

/// What is wrong with what a line says to its controller.
fn text_reason(has_peer: bool, is_peer: bool, text: &str) -> Option<Reason<'_>>
    ensures { option_map (λ reason. (reason.fault, reason.found.now)) result ≡
        said.text_reason has_peer is_peer text.now }
{
    let (found, rest) = cut_word(text);
    match form_by(found, rest) {
        Some(form) => form_reason(is_peer, form, rest),
        None => {
            let fault = keyword_fault(has_peer, is_peer);
            Some(Reason { fault, found })
        }
    }
}

/// Whether a line is passed over.
fn is_passed(line: &str) -> bool
    ensures { result ≡ said.is_passed line.now }
{
    is_comment(line) || is_blank(line)
}

/// Whether a byte order mark stands before a line.
fn is_marked(line: &str) -> bool
    ensures { result ≡ said.is_marked line.now }
{
    line.starts_with("\u{feff}")
}

/// Why a line that isn't passed over can't be read.
#[tactic(auto, unfolding(crate::specs::Reasons::side_reason))]
fn side_reason(line: &str, has_peer: bool) -> Option<Reason<'_>>
    ensures { option_map (λ reason. (reason.fault, reason.found.now)) result ≡
        said.side_reason has_peer line.now }
{
    let is_peer = is_for_peer(line);
    let (_, text) = cut_side(line);
    if is_peer && !has_peer {
        Some(without_word(Fault::NoPeer))
    } else {
        text_reason(has_peer, is_peer, text)
    }
}

/// Why a line of a script can't be read after a line `sim`; `None` if it can. The line is given without a carriage return at
/// its end. `has_peer` says whether there is a second controller.
#[tactic(auto, unfolding(crate::specs::Reasons::line_reason))]
pub fn line_reason(line: &str, has_peer: bool) -> Option<Reason<'_>>
    ensures reason { option_map (λ reason. (reason.fault, reason.found.now)) result ≡
        said.line_reason has_peer line.now }
{
    if is_passed(line) {
        return None;
    }
    if is_marked(line) {
        return Some(without_word(Fault::ByteOrderMark));
    }
    side_reason(line, has_peer)
}

/// The form of a line.
fn form_of(line: &str) -> Option<Form>
    ensures { result ≡ said.form_of line.now }
{
    let (_, text) = cut_side(line);
    let (word, rest) = cut_word(text);
    form_by(word, rest)
}

/// What is wrong with a line of this form where nothing is simulated yet.
fn sim_fault(form: Form) -> Option<Fault>
    ensures { result ≡ said.sim_fault form }
{
    if form.needs_sim() {
        Some(Fault::NoSim(form))
    } else {
        None
    }
}

/// Why a line that can be read behind a line `sim` can't be read without.
#[tactic(auto, unfolding(crate::specs::Reasons::sim_reason))]
fn sim_reason<'a>(line: &str) -> Option<Reason<'a>>
    ensures { option_map (λ reason. (reason.fault, reason.found.now)) result ≡
        said.sim_reason line.now }
{
    let Some(form) = form_of(line) else {
        return None;
    };
    match sim_fault(form) {
        Some(fault) => Some(without_word(fault)),
        None => None,
    }
}

/// What stands in a text between the line feeds around this place, counted from 0.
fn part_at(script: &str, place: usize) -> Option<&str>
    ensures { option_map (λ part. part.now) result ≡ said.part_at script.now place }
{
    script.split('\n').nth(place)
}

/// The line of this number, counted from 1, without the carriage return that may end it.
fn line_at(script: &str, number: usize) -> Option<&str>
    ensures { option_map (λ line. line.now) result ≡ said.line_at number script.now }
{
    if number == 0 {
        return None;
    }
    match part_at(script, number - 1) {
        Some(part) => Some(without_return(part)),
        None => None,
    }
}

/// Why a line can't be read where no line before it is `sim`.
#[tactic(auto, unfolding(crate::specs::Reasons::first_reason))]
fn first_reason(line: &str, has_peer: bool) -> Option<Reason<'_>>
    ensures { option_map (λ reason. (reason.fault, reason.found.now)) result ≡
        said.first_reason has_peer line.now }
{
    match line_reason(line, has_peer) {
        Some(reason) => Some(reason),
        None => sim_reason(line),
    }
}

/// Why the line with this number, counted from 1, can't be read without a line `sim` before it. `None` if it can, or if
/// there is no such line. `has_peer` says whether there is a second controller.
#[tactic(auto, unfolding(crate::specs::Reasons::script_reason))]
pub fn script_reason(script: &str, number: usize, has_peer: bool) -> Option<Reason<'_>>
    ensures reason { option_map (λ reason. (reason.fault, reason.found.now)) result ≡
        said.script_reason has_peer number script.now }
{
    match line_at(script, number) {
        Some(line) => first_reason(line, has_peer),
        None => None,
    }
}
