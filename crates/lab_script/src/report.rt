//! What the fields of a report say.
ghost use Rattle.std.specs.Prelude.{◌≡◌, Some, option_map};
ghost use Rattle.lab_script.specs.Words.{words_left};
ghost use Rattle.lab_script.specs.Reports as said;

use crate::asked::{Heard, Report};
use crate::words::{
    around_colon, around_equals, count, cut_word, level, octet, quality, timing_advance,
};

/// What fields said so far.
#[derive(Clone, Copy)]
pub(crate) struct Fields {
    full: Option<u8>,
    sub: Option<u8>,
    qfull: Option<u8>,
    qsub: Option<u8>,
    dtx: Option<bool>,
    ta: Option<u8>,
    power: Option<u8>,
    heard: Option<[Option<Heard>; 6]>,
    times: Option<u8>,
}

/// What a field says that didn't stand yet.
fn once<T: Copy>(old: Option<T>, new: Option<T>) -> Option<T>
    ensures { result ≡ said.once old new }
{
    match old {
        None => new,
        Some(_) => None,
    }
}

/// The neighbour of `CELL:LEVEL`.
fn heard_of(text: &str) -> Option<Heard>
    ensures { result ≡ said.heard_of text.now }
{
    let (cell, at_level) = around_colon(text)?;
    Some(Heard {
        cell: octet(cell)?,
        level: level(at_level)?,
    })
}

/// The neighbour that a part says, if there is one.
fn heard_in(part: Option<&str>) -> Option<Option<Heard>>
    ensures { result ≡ said.heard_in (option_map (λ text. text.now) part.entry) }
{
    match part {
        Some(text) => Some(Some(heard_of(text)?)),
        None => Some(None),
    }
}

/// The part of this place, counted from 0, where a comma stands between any two.
fn part_at(list: &str, place: usize) -> Option<&str>
    ensures { option_map (λ part. part.now) result ≡ said.part_at list.now place }
{
    list.split(',').nth(place)
}

/// The neighbours of `CELL:LEVEL,..`, at most six, or of `-`, none.
#[tactic(auto, unfolding(crate::specs::Reports::all_heard))]
fn all_heard(list: &str) -> Option<[Option<Heard>; 6]>
    ensures { result ≡ said.all_heard list.now }
{
    if list == "-" {
        return Some([None; 6]);
    }
    if part_at(list, 6).is_some() {
        return None;
    }
    Some([
        heard_in(part_at(list, 0))?,
        heard_in(part_at(list, 1))?,
        heard_in(part_at(list, 2))?,
        heard_in(part_at(list, 3))?,
        heard_in(part_at(list, 4))?,
        heard_in(part_at(list, 5))?,
    ])
}

impl Fields {
    /// Nothing.
    pub(crate) fn none() -> Fields
        ensures { result ≡ said.none }
    {
        Fields {
            full: None,
            sub: None,
            qfull: None,
            qsub: None,
            dtx: None,
            ta: None,
            power: None,
            heard: None,
            times: None,
        }
    }

    /// These fields, and what a field with this key says; nothing if it is none, can't be read, or stands twice.
    fn put(self, key: &str, value: &str) -> Option<Fields>
        ensures { result ≡ said.put key.now value.now self }
    {
        match key {
            "full" => Some(Fields {
                full: Some(once(self.full, level(value))?),
                ..self
            }),
            "sub" => Some(Fields {
                sub: Some(once(self.sub, level(value))?),
                ..self
            }),
            "qfull" => Some(Fields {
                qfull: Some(once(self.qfull, quality(value))?),
                ..self
            }),
            "qsub" => Some(Fields {
                qsub: Some(once(self.qsub, quality(value))?),
                ..self
            }),
            "ta" => Some(Fields {
                ta: Some(once(self.ta, timing_advance(value))?),
                ..self
            }),
            "power" => Some(Fields {
                power: Some(once(self.power, octet(value))?),
                ..self
            }),
            "n" => Some(Fields {
                heard: Some(once(self.heard, all_heard(value))?),
                ..self
            }),
            "times" => Some(Fields {
                times: Some(once(self.times, count(value))?),
                ..self
            }),
            _ => None,
        }
    }

    /// These fields, and what a word says.
    pub(crate) fn with(self, word: &str) -> Option<Fields>
        ensures { result ≡ said.with_word word.now self }
    {
        if word == "dtx" {
            return Some(Fields {
                dtx: Some(once(self.dtx, Some(true))?),
                ..self
            });
        }
        let (key, value) = around_equals(word)?;
        self.put(key, value)
    }

    /// Whether the level of the serving cell is said.
    pub(crate) fn has_level(self) -> bool
        ensures { result ≡ said.has_level self }
    {
        self.full.is_some()
    }

    /// Whether the neighbours are said.
    pub(crate) fn has_neighbours(self) -> bool
        ensures { result ≡ said.has_neighbours self }
    {
        self.heard.is_some()
    }

    /// The report: what isn't said is as it is without discontinuous transmission, with few bit errors and full power, once.
    fn report(self) -> Option<Report>
        ensures { result ≡ said.report_in self }
    {
        let full = self.full?;
        let heard = self.heard?;
        let qfull = self.qfull.unwrap_or(0);
        Some(Report {
            full,
            sub: self.sub.unwrap_or(full),
            qfull,
            qsub: self.qsub.unwrap_or(qfull),
            dtx: self.dtx.unwrap_or(false),
            ta: self.ta,
            power: self.power.unwrap_or(0),
            heard,
            times: self.times.unwrap_or(1),
        })
    }
}

/// What the words of a text say, and those before it.
#[tactic(auto, unfolding(crate::specs::Reports::all_fields))]
fn all_fields(text: &str, fields: Fields) -> Option<Fields>
    ensures { result ≡ said.all_fields (words_left (Some text.now)) fields }
{
    let (word, rest) = cut_word(text);
    let fields = fields.with(word)?;
    match rest {
        Some(rest) => all_fields(rest, fields),
        None => Some(fields),
    }
}

/// The report that a text says.
pub(crate) fn report_of(text: &str) -> Option<Report>
    ensures { result ≡ said.report_of text.now }
{
    all_fields(text, Fields::none())?.report()
}

/// What is wrong with the fields of a report.
#[derive(Clone, Copy, Debug, PartialEq, Eq)]
pub enum FieldsFault<'a> {
    /// This word is no field, isn't as it may be, or stands twice.
    Word(&'a str),
    /// The level of the serving cell is missing.
    NoLevel,
    /// The neighbours are missing.
    NoNeighbours,
}

/// What is wrong with the first of some words that can't be read, or what is missing behind those before them.
#[tactic(auto, unfolding(crate::specs::Reports::words_fault))]
fn fault_in(text: &str, fields: Fields) -> Option<FieldsFault<'_>>
    ensures { option_map said.shown result ≡ said.words_fault (words_left (Some text.now)) fields }
{
    let (word, rest) = cut_word(text);
    let Some(fields) = fields.with(word) else {
        return Some(FieldsFault::Word(word));
    };
    match rest {
        Some(rest) => fault_in(rest, fields),
        None => missing(fields),
    }
}

/// What is missing of fields.
fn missing<'a>(fields: Fields) -> Option<FieldsFault<'a>>
    ensures { option_map said.shown result ≡ said.missing fields }
{
    if !fields.has_level() {
        Some(FieldsFault::NoLevel)
    } else if !fields.has_neighbours() {
        Some(FieldsFault::NoNeighbours)
    } else {
        None
    }
}

/// What is wrong with the fields of a report; nothing if they say one.
pub fn fields_fault(text: &str) -> Option<FieldsFault<'_>>
    ensures fault { option_map said.shown result ≡ said.fields_fault text.now }
{
    fault_in(text, Fields::none())
}
