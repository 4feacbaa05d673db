//! Answers to lines of octet texts, one by one.
ghost use Rattle.std.specs.Prelude.{◌≡◌, ◌≢◌, ◌≤◌, length, vec_len, Ok, true, false, OnOk, IfOk, IfSome};
ghost use Rattle.std.specs.Io.KnownBytes.{IsAtEnd};
ghost use Rattle.decoded_lines.specs.Reading.{longest_line, Gives};
ghost use Rattle.decoded_lines.specs.Answers.{WritesMessage, TextSays, Judges, IsAdded, IsCounted, CountsFirst, AreGood};

use crate::messages::{Detail, link_named, print_message};
use crate::notes::print_note;
use crate::octets::read_octets;
use crate::parts::{said_in, word_and_rest};
use crate::reader::{Found, next_line};
use explanations::LinkName;
use screen_text::PrintFault;
use std::alloc::{AllocError, Allocator};
use std::io::{self, BufRead, Write};

/// What is asked of lines.
#[derive(Clone, Copy, Debug, PartialEq, Eq)]
pub struct Asked {
    /// The link of all lines; if there is none, each line begins with the name of its own.
    pub link: Option<LinkName>,
    /// How much is said of each message.
    pub detail: Detail,
}

/// Why lines are not answered to their end.
#[derive(Debug, Drop)]
pub enum LinesFault {
    /// Memory was refused.
    NoMemory,
    /// A write of an answer failed.
    Write,
    /// A read of a line failed.
    Read(io::Error),
}

impl From<AllocError> for LinesFault {
    ghost use Rattle.decoded_lines.specs.declared.answers.LinesFault.TheVariants.{NoMemory};

    ghost from_gives = { λ _ fault. fault ≡ NoMemory };

    fn from(_: AllocError) -> LinesFault {
        LinesFault::NoMemory
    }
}

impl From<io::Error> for LinesFault {
    ghost use Rattle.decoded_lines.specs.declared.answers.LinesFault.TheVariants.{Write};

    ghost from_gives = { λ _ fault. fault ≡ Write };

    fn from(_: io::Error) -> LinesFault {
        LinesFault::Write
    }
}

impl From<PrintFault> for LinesFault {
    ghost use Rattle.decoded_lines.specs.Answers.{lines_fault_of};

    ghost from_gives = { λ print fault. fault ≡ lines_fault_of print };

    fn from(fault: PrintFault) -> LinesFault {
        match fault {
            PrintFault::NoMemory => LinesFault::NoMemory,
            PrintFault::Write => LinesFault::Write,
        }
    }
}

/// What came of a line.
#[derive(Clone, Copy)]
enum Verdict {
    /// It says nothing, and has no answer.
    Blank,
    /// It says a message.
    Message,
    /// It was refused.
    Refused,
}

/// How many lines were answered, and how; each number stays at the greatest of its type.
#[derive(Clone, Copy, Debug, PartialEq, Eq)]
pub struct Counts {
    /// Lines that say a message.
    pub messages: u64,
    /// Lines that were refused.
    pub refused: u64,
}

impl Counts {
    /// Counts one line more.
    fn add(&mut self, verdict: Verdict)
        ensures { IsAdded verdict self.old.refused self.new.refused }
    {
        match verdict {
            Verdict::Blank => {}
            Verdict::Message => self.messages = self.messages.saturating_add(1),
            Verdict::Refused => self.refused = self.refused.saturating_add(1),
        }
    }
}

/// Says why a line is refused.
fn refuse<W: Write>(out: &mut W, why: &str) -> Result<bool, LinesFault>
    ensures refused { result ≢ Ok true }
{
    write!(out, "{why}")?;
    Ok(false)
}

/// Prints what the octets that a text writes say; whether they are a message.
fn answer_octets<A: Allocator + Copy, W: Write>(
    alloc: A,
    link: LinkName,
    detail: Detail,
    text: &[u8],
    out: &mut W,
) -> Result<bool, LinesFault>
    ensures message { result ≡ Ok true → WritesMessage A link text.now }
    ensures refused { result ≡ Ok false → WritesMessage A link text.now → ⊥ }
{
    match read_octets(alloc, text)? {
        Some(octets) => Ok(print_message(alloc, link, detail, &octets, out)?),
        None => refuse(out, "hex"),
    }
}

/// Prints what a text says, which begins with its link where none is given; whether that is a message.
fn answer_text<A: Allocator + Copy, W: Write>(
    alloc: A,
    asked: Asked,
    text: &[u8],
    out: &mut W,
) -> Result<bool, LinesFault>
    ensures message { result ≡ Ok true → TextSays A asked.link text.now }
    ensures refused { result ≡ Ok false → TextSays A asked.link text.now → ⊥ }
{
    if let Some(link) = asked.link {
        return answer_octets(alloc, link, asked.detail, text, out);
    }
    let (name, octets) = word_and_rest(text);
    match link_named(name) {
        Some(link) => answer_octets(alloc, link, asked.detail, octets, out),
        None => refuse(out, "link"),
    }
}

/// Ends an answer, with the line's note if there is one.
fn end_answer<W: Write>(note: Option<&[u8]>, out: &mut W) -> io::Result<()> {
    if let Some(note) = note {
        write!(out, " #")?;
        print_note(note, out)?;
    }
    writeln!(out)
}

/// Prints the answer to a line behind its number, and its note behind that; what came of the line. Nothing is printed of a
/// line without a text.
fn answer_line<A: Allocator + Copy, W: Write>(
    alloc: A,
    asked: Asked,
    number: u64,
    line: &[u8],
    out: &mut W,
) -> Result<Verdict, LinesFault>
    ensures judged { IfOk result (λ verdict. Judges A asked.link line.now verdict) }
{
    let Some((text, note)) = said_in(line) else {
        return Ok(Verdict::Blank);
    };
    write!(out, "{number} ")?;
    let is_message = answer_text(alloc, asked, text, out)?;
    end_answer(note, out)?;
    if is_message {
        Ok(Verdict::Message)
    } else {
        Ok(Verdict::Refused)
    }
}

/// Why a line wasn't read.
fn unreadable(error: io::Error) -> LinesFault {
    if error.kind() == io::ErrorKind::OutOfMemory {
        LinesFault::NoMemory
    } else {
        LinesFault::Read(error)
    }
}

/// Reads the next line.
fn read_next<A: Allocator, R: BufRead>(
    reader: &mut R,
    line: &mut Vec<u8, A>,
) -> Result<Found, LinesFault>
    ensures fits { result ≡ Ok Found.Line → vec_len line.new ≤ longest_line }
    ensures found { IfOk result (λ found. Gives found (R.remaining reader.old)
        (R.remaining reader.new) line.new.items) }
{
    match next_line(reader, line) {
        Ok(found) => Ok(found),
        Err(error) => Err(unreadable(error)),
    }
}

/// Answers a line, and counts it.
fn count_line<A: Allocator + Copy, W: Write>(
    alloc: A,
    asked: Asked,
    number: u64,
    line: &[u8],
    counts: &mut Counts,
    out: &mut W,
) -> Result<(), LinesFault>
    requires { length line.now ≤ longest_line }
    ensures counted { OnOk result
        (IsCounted A asked.link line.now counts.old.refused counts.new.refused) }
{
    let verdict = answer_line(alloc, asked, number, line, out)?;
    counts.add(verdict);
    Ok(())
}

/// Says that a line is too long, and counts it.
fn count_long<W: Write>(number: u64, counts: &mut Counts, out: &mut W) -> Result<(), LinesFault>
    ensures refused { OnOk result (counts.new.refused ≢ 0) }
{
    writeln!(out, "{number} long")?;
    counts.add(Verdict::Refused);
    Ok(())
}

/// Reads the next line, answers and counts it; whether there was one.
fn answer_next<A: Allocator + Copy, R: BufRead, W: Write>(
    alloc: A,
    asked: Asked,
    number: u64,
    reader: &mut R,
    line: &mut Vec<u8, A>,
    counts: &mut Counts,
    out: &mut W,
) -> Result<bool, LinesFault>
    ensures line { result ≡ Ok true → CountsFirst A asked.link (R.remaining reader.old)
        (R.remaining reader.new) counts.old.refused counts.new.refused }
    ensures end { result ≡ Ok false → IsAtEnd (R.remaining reader.old) }
    ensures kept { result ≡ Ok false → counts.new.refused ≡ counts.old.refused }
{
    match read_next(reader, line)? {
        Found::End => Ok(false),
        Found::TooLong => {
            count_long(number, counts, out)?;
            Ok(true)
        }
        Found::Line => {
            count_line(alloc, asked, number, line, counts, out)?;
            Ok(true)
        }
    }
}

/// Reads lines to their end and answers each by one line: its number, counted from 1, what its octets say or why it is
/// refused, and its note, which is what stands behind its first `#`: with its tabs, what else would steer a terminal by its
/// escape ([`Escaped`](screen_text::Escaped)), and each octet that is no text as `\xff`. Lines of blanks and tabs alone, and
/// those of a note alone, have no answer.
///
/// Where no link is given, each line begins with the name of its own, and a blank or a tab behind it. Refused are a name
/// of no link (`link`), a text that writes no octets ([`read_octets`]: `hex`), a line that is too long ([`next_line`]:
/// `long`), and octets that are no message of the link (`fault`, the link, and the number of the fault with its
/// argument). What is kept in memory at a time is a line and its octets.
///
/// A failed read or write, and refused memory, end the answers; those before stand.
pub fn answer_lines<A: Allocator + Copy, R: BufRead, W: Write>(
    alloc: A,
    asked: Asked,
    reader: &mut R,
    out: &mut W,
) -> Result<Counts, LinesFault>
    ensures all { IfOk result (λ counts. counts.refused ≡ 0 →
        IfSome (R.remaining reader.old) (AreGood A asked.link)) }
    ensures one { IfOk result (λ counts. counts.refused ≢ 0 →
        IfSome (R.remaining reader.old) (λ octets. AreGood A asked.link octets → ⊥)) }
{
    let mut line = Vec::new(alloc);
    let mut counts = Counts {
        messages: 0,
        refused: 0,
    };
    for number in 1..u64::MAX {
        if !answer_next(alloc, asked, number, reader, &mut line, &mut counts, out)? {
            return Ok(counts);
        }
    }
    Err(LinesFault::Read(io::Error::from(io::ErrorKind::Other)))
}
