//! Messages in words that no line of a trace can have.
use crate::never::Never;
use crate::never_values::value_fault;
use encoded_messages::{
    A_FORMS, ABIS_FORMS, Allowed, FieldFault, FieldForm, MessageFault, MessageForm, RR_FORMS,
    name_and_fields, value,
};
use exchange::Inbound;
use expectations::begins_words;
use explanations::{LinkName, cause_name};
use line_words::{Content, content_of};
use octet_elements::Octets;
use std::alloc::{AllocError, Allocator};
use trace_text::trace::TraceLine;

/// What is wrong with a word that is to be a field of a message of this form.
fn word_fault<'a>(form: MessageForm<'static>, word: &'a str) -> Option<Never<'a>> {
    if let Some((key, value)) = word.split_once('=')
        && let Some(field) = form.fields.iter().find(|field| field.0 == key)
    {
        return value_fault(*field, value);
    }
    Some(Never::Message(MessageFault::Field(FieldFault::Unknown(word))))
}

/// The field of a message of this form that a text has twice, though it stands in a message once.
fn twice_in(form: MessageForm<'static>, fields: &str) -> Option<FieldFault<'static>> {
    for field in form.fields {
        if field.1 != Allowed::Neighbour
            && let Err(FieldFault::Twice(key)) = value(fields, field.0)
        {
            return Some(FieldFault::Twice(key));
        }
    }
    None
}

/// The field in a place of a message of this form. Behind the last there are further neighbours of a report.
fn field_at(form: MessageForm<'static>, place: usize) -> Option<FieldForm<'static>> {
    match (form.fields.get(place), form.fields.last()) {
        (Some(field), _) => Some(*field),
        (None, Some(last)) if last.1 == Allowed::Neighbour => Some(*last),
        (None, _) => None,
    }
}

/// Whether a word is this field. The last of a text may be none yet.
fn begins_field(word: &str, field: FieldForm<'static>, is_last: bool) -> bool {
    match word.split_once('=') {
        Some((key, value)) => key == field.0 && value_fault(field, value).is_none(),
        None => is_last && word.is_empty(),
    }
}

/// Whether the fields of a message of this form, as it is printed, can begin with a text.
fn begin_fields(form: MessageForm<'static>, fields: &str) -> bool {
    let last = fields.split(' ').count().saturating_sub(1);
    fields.split(' ').enumerate().all(|(place, word)| field_at(form, place).is_some_and(
        |field| begins_field(word, field, place == last),
    ))
}

/// Whether a message of this form, as it is printed, can begin with a text that ends a word.
fn can_begin(form: MessageForm<'static>, part: &str) -> bool {
    match part.strip_prefix(form.name) {
        Some(rest) => rest
            .strip_prefix(" ")
            .is_some_and(|fields| begin_fields(form, fields)),
        None => begins_words(form.name, part),
    }
}

/// The form of this name.
fn form_named(forms: &[MessageForm<'static>], name: &str) -> Option<MessageForm<'static>> {
    forms.iter().find(|form| form.name == name).copied()
}

/// What is wrong with the fields of a message of this form.
fn fields_fault<'a>(form: MessageForm<'static>, fields: &'a str) -> Option<Never<'a>> {
    if fields.is_empty() {
        return None;
    }
    match fields.split(' ').find_map(|word| word_fault(form, word)) {
        Some(fault) => Some(fault),
        None => twice_in(form, fields).map(|fault| Never::Message(MessageFault::Field(fault))),
    }
}

/// What is wrong with a part in words that is to be one of these messages.
fn part_fault<'a>(
    forms: &[MessageForm<'static>],
    part: &'a str,
    may_be_cut: bool,
) -> Option<Never<'a>> {
    let (name, fields) = name_and_fields(part);
    match form_named(forms, name) {
        Some(form) if may_be_cut && begin_fields(form, fields) => None,
        Some(form) => fields_fault(form, fields),
        None if may_be_cut && forms.iter().any(|form| can_begin(*form, part)) => None,
        None if name.is_empty() => Some(Never::Message(MessageFault::Name(part))),
        None => Some(Never::Message(MessageFault::Name(name))),
    }
}

/// Whether a part is one of these names; or begins it, where it may be cut.
fn is_named(part: &str, name: &str, may_be_cut: bool) -> bool {
    part == name || (may_be_cut && begins_words(name, part))
}

/// The discriminators of the messages on Abis (TS 48.058 clause 9.1).
const DISCRIMINATORS: [u8; 4] = [0x02, 0x08, 0x0C, 0x10];

/// Whether a part is the name of a message on Abis that controllers don't read, of these two octets.
fn is_rowless<A: Allocator + Copy>(
    alloc: A,
    part: &str,
    octets: [u8; 2],
    may_be_cut: bool,
) -> Result<bool, AllocError> {
    let input = Inbound::Abis {
        cell: 0,
        trx: 0,
        bytes: Octets::new(alloc, &octets)?,
    };
    match content_of(alloc, &TraceLine::Input(&input))? {
        Content::Rowless(_, name) => Ok(is_named(part, name, may_be_cut)),
        Content::Abis(..) | Content::A(..) | Content::Nothing => Ok(false),
    }
}

/// Whether a part is a name of a message without a row with this discriminator, of any type.
fn is_any_rowless<A: Allocator + Copy>(
    alloc: A,
    part: &str,
    discriminator: u8,
    may_be_cut: bool,
) -> Result<bool, AllocError> {
    for message_type in 0..=u8::MAX {
        if is_rowless(alloc, part, [discriminator, message_type], may_be_cut)? {
            return Ok(true);
        }
    }
    Ok(false)
}

/// Whether a part is the name of a message on Abis that controllers don't read.
fn are_rowless<A: Allocator + Copy>(
    alloc: A,
    part: &str,
    may_be_cut: bool,
) -> Result<bool, AllocError> {
    for discriminator in DISCRIMINATORS {
        if is_any_rowless(alloc, part, discriminator, may_be_cut)? {
            return Ok(true);
        }
    }
    Ok(false)
}

/// What is said of a message on Abis that controllers don't read.
const NO_ROW: &str = "ignored: no row";

/// Whether a part is the name of a cause.
fn is_cause(part: &str, may_be_cut: bool) -> bool {
    (0..=u8::MAX).any(|cause| {
        is_named(part, cause_name(LinkName::Abis, cause), may_be_cut)
            || is_named(part, cause_name(LinkName::A, cause), may_be_cut)
            || is_named(part, cause_name(LinkName::Rr, cause), may_be_cut)
    })
}

/// Whether a message of this form has the field with this key.
fn has_field(form: MessageForm<'static>, key: &str) -> bool {
    form.fields.iter().any(|field| field.0 == key)
}

/// Whether a message of this form may have another inside.
fn has_inside(form: MessageForm<'static>) -> bool {
    has_field(form, "layer3")
}

/// Whether a message of this form, or the one inside, may have a cause.
fn has_cause(form: MessageForm<'static>) -> bool {
    has_field(form, "cause") || has_field(form, "rr") || has_inside(form)
}

/// The messages of a link.
fn forms_of(link: LinkName) -> &'static [MessageForm<'static>] {
    match link {
        LinkName::Abis => ABIS_FORMS,
        LinkName::A => A_FORMS,
        LinkName::Rr => RR_FORMS,
    }
}

/// Which way a message goes.
#[derive(Clone, Copy, Debug, PartialEq, Eq)]
enum Way {
    /// A controller is sent it.
    In,
    /// A controller sends it.
    Out,
}

/// The messages that controllers send on Abis (TS 48.058 clauses 8.3 and 8.4).
const SENT_ON_ABIS: &[&str] = &["CHANNEL ACTIVATION", "DATA REQUEST", "RF CHANNEL RELEASE"];

/// The messages that controllers send on A (TS 48.008 clause 3.2.1).
const SENT_ON_A: &[&str] = &[
    "CLEAR COMPLETE",
    "CLEAR REQUEST",
    "HANDOVER COMPLETE",
    "HANDOVER DETECT",
    "HANDOVER FAILURE",
    "HANDOVER PERFORMED",
    "HANDOVER REQUEST ACKNOWLEDGE",
    "HANDOVER REQUIRED",
];

/// Whether a part is, or begins, where it may be cut, the message of this name of a link.
fn is_message(link: LinkName, name: &str, part: &str, may_be_cut: bool) -> bool {
    let (found, _) = name_and_fields(part);
    found == name
        || (may_be_cut
            && form_named(forms_of(link), name).is_some_and(|form| can_begin(form, part)))
}

/// Whether controllers send a message on a link of which a part may be. To mobiles they send what the switching centre gives them,
/// too, which may be any.
fn is_sent(link: LinkName, part: &str, may_be_cut: bool) -> bool {
    let names = match link {
        LinkName::Abis => SENT_ON_ABIS,
        LinkName::A => SENT_ON_A,
        LinkName::Rr => return true,
    };
    names
        .iter()
        .any(|sent| is_message(link, *sent, part, may_be_cut))
}

/// What is wrong with words that stand behind those of a message of this form: they are the name of a cause, or a message inside.
fn behind_form<'a>(
    form: MessageForm<'static>,
    words: &'a str,
    may_be_cut: bool,
) -> Option<Never<'a>> {
    let is_cause = is_cause(words, may_be_cut);
    if is_cause && has_cause(form) {
        return None;
    }
    match part_fault(RR_FORMS, words, may_be_cut) {
        None if !has_inside(form) => Some(Never::Behind),
        Some(_) if is_cause => Some(Never::Behind),
        fault => fault,
    }
}

/// The fault behind a message on Abis that controllers don't read, where there is no form.
fn behind_fault<'a>(
    way: Way,
    form: Option<MessageForm<'static>>,
    words: &'a str,
    may_be_cut: bool,
) -> Option<Never<'a>> {
    match form {
        None if is_named(words, NO_ROW, may_be_cut) => None,
        None => Some(Never::Behind),
        Some(_) if way == Way::In && words.starts_with("ignored: ") => Some(Never::Ignored),
        Some(form) => behind_form(form, words, may_be_cut),
    }
}

/// What is wrong with a part behind the first: a blank stands before the message inside, or what is said.
fn inner_fault<'a>(
    way: Way,
    form: Option<MessageForm<'static>>,
    part: &'a str,
    may_be_cut: bool,
) -> Option<Never<'a>> {
    match part.strip_prefix(" ") {
        Some(words) => behind_fault(way, form, words, may_be_cut),
        None if may_be_cut && part.is_empty() => None,
        None if part.is_empty() => Some(Never::Nothing),
        None => Some(Never::Glued),
    }
}

/// What is wrong with a part, whose name may be that of a message on Abis that controllers don't read: that has no fields here.
fn named_fault<'a, A: Allocator + Copy>(
    alloc: A,
    link: LinkName,
    part: &'a str,
    fault: Never<'a>,
) -> Result<Never<'a>, AllocError> {
    let (name, fields) = name_and_fields(part);
    if link == LinkName::Abis && !fields.is_empty() && are_rowless(alloc, name, false)? {
        return Ok(Never::Message(MessageFault::Field(FieldFault::Unknown(fields))));
    }
    Ok(fault)
}

/// What is wrong with the first part, which may be cut where nothing stands behind it.
fn outer_fault<'a, A: Allocator + Copy>(
    alloc: A,
    way: Way,
    link: LinkName,
    part: &'a str,
    may_be_cut: bool,
) -> Result<Option<Never<'a>>, AllocError> {
    let fault = part_fault(forms_of(link), part, may_be_cut);
    let is_rowless = link == LinkName::Abis
        && fault.is_some()
        && are_rowless(alloc, part, may_be_cut)?;
    match fault {
        Some(fault) if !is_rowless => Ok(Some(named_fault(alloc, link, part, fault)?)),
        Some(_) | None if way == Way::Out && !is_sent(link, part, may_be_cut) => {
            Ok(Some(Never::Unsent(name_and_fields(part).0)))
        }
        Some(_) | None => Ok(None),
    }
}

/// Whether a message of this form has all its fields: then a line can go on with the next part.
fn is_whole(form: Option<MessageForm<'static>>, fields: &str) -> bool {
    match form {
        Some(form) if fields.is_empty() => form.fields.is_empty(),
        Some(form) => form.fields.len() <= fields.split(' ').count(),
        None => true,
    }
}

/// What is wrong with the parts behind the first, which is this one.
fn inners_fault<'a>(
    way: Way,
    link: LinkName,
    first: &str,
    parts: &'a str,
    may_be_cut: bool,
) -> Option<Never<'a>> {
    let (name, fields) = name_and_fields(first);
    let form = form_named(forms_of(link), name);
    let may_be_cut = may_be_cut && is_whole(form, fields);
    let last = parts.split(';').count().saturating_sub(1);
    for (place, part) in parts.split(';').enumerate() {
        if let Some(fault) = inner_fault(way, form, part, may_be_cut && place == last) {
            return Some(fault);
        }
    }
    None
}

/// What is wrong with a message of a link in words, of which a line has some or with which it begins.
fn words_fault<'a, A: Allocator + Copy>(
    alloc: A,
    way: Way,
    link: LinkName,
    words: &'a str,
    may_be_cut: bool,
) -> Result<Option<Never<'a>>, AllocError> {
    let Some((first, others)) = words.split_once(';') else {
        return outer_fault(alloc, way, link, words, may_be_cut);
    };
    match outer_fault(alloc, way, link, first, false)? {
        None => Ok(inners_fault(way, link, first, others, may_be_cut)),
        fault => Ok(fault),
    }
}

/// The link of a line that comes or is sent, and what stands behind its place.
fn message_in(line: &str) -> Option<(LinkName, &str)> {
    let (_, rest) = line.split_once(' ')?;
    let (link, rest) = rest.split_once(' ')?;
    let (_, rest) = rest.split_once(' ')?;
    match link {
        "abis" => {
            let (_, rest) = rest.split_once(' ')?;
            Some((LinkName::Abis, rest))
        }
        "a" => Some((LinkName::A, rest)),
        _ => None,
    }
}

/// Which way the message of a line goes; nothing if it is none.
fn way_of(line: &str) -> Option<Way> {
    match line.split_once(' ')? {
        ("in", _) => Some(Way::In),
        ("out", _) => Some(Way::Out),
        _ => None,
    }
}

/// Whether a text has hexadecimal digits alone, as a trace has them.
fn is_hex(text: &str) -> bool {
    text.bytes().all(|byte| byte.is_ascii_digit() || (b'a' <= byte && byte <= b'f'))
}

/// Whether a text has hexadecimal digits alone, in either case.
fn is_any_hex(text: &str) -> bool {
    text.bytes().all(|byte| byte.is_ascii_hexdigit())
}

/// Whether a text without a mark is a message whose octets stand in it, or the first of them.
pub(crate) fn is_in_octets(text: &str) -> bool {
    match message_in(text) {
        Some((_, octets)) => !octets.is_empty() && is_hex(octets),
        None => false,
    }
}

/// Why no line of a link can have what stands behind its place, which isn't octets as a trace has them.
fn why_not_said<'a, A: Allocator + Copy>(
    alloc: A,
    way: Way,
    link: LinkName,
    words: &'a str,
    may_be_cut: bool,
) -> Result<Option<Never<'a>>, AllocError> {
    match words_fault(alloc, way, link, words, may_be_cut)? {
        Some(_) if is_any_hex(words) => Ok(Some(Never::Capitals)),
        fault => Ok(fault),
    }
}

/// Why no line can have the message of this one, which begins as one of a trace does, without its mark; nothing if none
/// stands there yet, or such a message can come. Where it may be cut it ends behind a word, or between octets.
pub(crate) fn why_no_message<'a, A: Allocator + Copy>(
    alloc: A,
    line: &'a str,
    may_be_cut: bool,
) -> Result<Option<Never<'a>>, AllocError> {
    let Some(way) = way_of(line) else {
        return Ok(None);
    };
    match message_in(line) {
        Some((link, words)) if !is_hex(words) => why_not_said(alloc, way, link, words, may_be_cut),
        Some((_, octets)) if octets.len() % 2 != 0 => Ok(Some(Never::Halved)),
        Some(_) | None => Ok(None),
    }
}
