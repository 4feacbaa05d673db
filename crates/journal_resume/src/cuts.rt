//! Where a file with a damaged record can be cut so that a whole journal is left.
use crate::wholes::behind_records;
use journal_records::{RecordFault, behind_first_line, first_record};
use std::fmt;

/// By this each record begins.
const WORD: &[u8] = b"record ";

/// A damaged record, and what a cut before it keeps and loses.
#[derive(Clone, Copy, Debug, PartialEq, Eq)]
pub struct Damage {
    /// The number that the record should have. The cut loses the records from this number on.
    pub first: u64,
    /// How many octets come before it. These are a whole journal.
    pub octets: usize,
    /// The last whole record of those that are lost, if one is whole.
    pub last: Option<u64>,
}

impl fmt::Display for Damage {
    fn fmt<W: fmt::Write>(&self, f: &mut fmt::Formatter<W>) -> fmt::Result {
        let octets = self.octets;
        write!(
            f,
            "record {} is damaged; truncate -s {octets} cuts the file after octet {octets}, and leaves a whole journal without \
             the records from {} on; of these ",
            self.first, self.first
        )?;
        match self.last {
            Some(last) => write!(f, "the last whole one is {last}"),
            None => f.write_str("none is whole"),
        }
    }
}

/// The number of the record with which octets begin, if they begin with a whole one.
fn whole_number(octets: &[u8]) -> Option<u64> {
    // where no record begins no checksum is looked for, which takes long
    if !octets.starts_with(WORD) {
        return None;
    }
    match first_record(octets) {
        Ok(taken) => Some(taken.number),
        Err(RecordFault::Cut | RecordFault::Damaged) => None,
    }
}

/// The number of the last whole record among octets, wherever it begins; of those that have this number or a higher one.
fn last_whole(octets: &[u8], least: u64) -> Option<u64> {
    let mut last = None;
    for place in 0..octets.len() {
        let (_before, from) = octets.split_at(place);
        match whole_number(from) {
            Some(number) if least <= number => last = Some(number),
            Some(_) | None => {}
        }
    }
    last
}

/// The damage of a journal's file, whose first unusable record has this number; nothing if the octets aren't a journal.
pub fn damage_at(octets: &[u8], number: u64) -> Option<Damage> {
    let Ok(records) = behind_first_line(octets) else {
        return None;
    };
    let left = behind_records(records);
    Some(Damage {
        first: number,
        octets: octets.len().saturating_sub(left.len()),
        last: last_whole(left, number),
    })
}
