//! What was sent for the lines after a line, printed once more.
ghost use Rattle.std.specs.Prelude.{◌≡◌, ◌↔◌, IsTrue, List, ℕ, OnOk};
ghost use Rattle.std.specs.Io.KnownBytes.{Appends};
ghost use Rattle.journal_resume.specs.Resume.{Numbered};
ghost use Rattle.journal_resume.specs.Wholes as spec;
ghost use Rattle.journal_resume.specs.Wholes.{AreAll, IsLast};

use journal_records::first_record;
use std::io::{self, Write};
use std::str;

/// What a line of a trace says was sent, with the word in front.
fn is_sent(line: &str) -> bool
    ensures { result ≡ spec.is_sent line.now }
{
    line.starts_with("out ")
}

/// Tells a line behind a number, if it says what was sent.
fn tell_line<W: Write>(out: &mut W, number: u64, line: &str) -> io::Result<()>
    ensures { OnOk result (Appends (W.contents out.old) (W.contents out.new) (spec.told_at number line.now)) }
{
    if is_sent(line) {
        writeln!(out, "{number}: {line}")
    } else {
        Ok(())
    }
}

/// Tells what was sent for the lines of a trace, each behind a number.
fn tell_trace<W: Write>(out: &mut W, number: u64, trace: &str) -> io::Result<()>
    ensures { OnOk result (Appends (W.contents out.old) (W.contents out.new) (spec.told_lines number trace.now)) }
{
    for line in trace.split('\n') {
        tell_line(out, number, line)?;
    }
    Ok(())
}

/// Tells what was sent for one line, each behind the line's number.
fn tell_one<W: Write>(out: &mut W, number: u64, body: &[u8]) -> io::Result<()>
    ensures { OnOk result (Appends (W.contents out.old) (W.contents out.new) (spec.told_of number body.now)) }
{
    match str::from_utf8(body) {
        Ok(trace) => tell_trace(out, number, trace),
        Err(_) => Ok(()),
    }
}

/// Tells what was sent for one line, if that line stands behind the one that was heard.
fn tell_unheard<W: Write>(out: &mut W, number: u64, body: &[u8], heard: u64) -> io::Result<()>
    ensures { OnOk result (Appends (W.contents out.old) (W.contents out.new) (spec.told_unheard heard number body.now)) }
{
    if heard < number {
        tell_one(out, number, body)
    } else {
        Ok(())
    }
}

/// Prints once more what was sent for the lines after line `heard`, which was the last of which everything was heard. Each
/// message follows the number of its line. The octets are records of a journal's file; they are read as far as they are
/// records.
pub fn tell_sent<W: Write>(out: &mut W, octets: &[u8], heard: u64) -> io::Result<()>
    ensures told { OnOk result ((records : List Numbered) × (left : List ℕ) × AreAll records octets.now left
        × Appends (W.contents out.old) (W.contents out.new) (spec.told_behind heard records)) }
{
    let mut left = octets;
    while let Ok(taken) = first_record(left) {
        tell_unheard(out, taken.number, taken.body, heard)?;
        left = taken.behind;
    }
    Ok(())
}

/// Whether records are numbered as before, and the next has the number behind that of the last, or the first one where it is the
/// first.
fn stay_numbered(are_numbered: bool, first: u64, last: Option<u64>, number: u64) -> bool
    ensures { IsTrue result ↔ (IsTrue are_numbered × spec.IsNext first last number) }
{
    are_numbered
        && match last {
            None => number == first,
            Some(last) => last < number && number - last == 1,
        }
}

/// The number of the last record in the octets, if the numbers begin with `first` and go up by 1.
pub fn last_number(octets: &[u8], first: u64) -> Option<u64>
    ensures last { (records : List Numbered) × (left : List ℕ) × AreAll records octets.now left
        × IsLast first records result }
{
    let mut last = None;
    let mut are_numbered = true;
    let mut left = octets;
    while let Ok(taken) = first_record(left) {
        are_numbered = stay_numbered(are_numbered, first, last, taken.number);
        last = Some(taken.number);
        left = taken.behind;
    }
    if are_numbered { last } else { None }
}
