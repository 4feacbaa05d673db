//! Lines of a file or of standard input, answered, and how many there were.
//!
//! No clause says what is printed, which is shown by tests: which lines are messages is said in `answers`.
ghost use Rattle.std.specs.Prelude.{◌≡◌, ◌≢◌, Ok, true, IfSome};
ghost use Rattle.decoded_lines.specs.Answers.{AreGood};

use crate::answers::{Asked, LinesFault, answer_lines};
use screen_text::{Escaped, PrintFault, Reason};
use std::alloc::Allocator;
use std::fs::File;
use std::io::{self, BufReader, Read, Write};
use std::rt::Files;

/// The path that stands for standard input.
const STANDARD_INPUT: &str = "-";

/// Refuses a file that can't be read, and says why.
fn refuse_file<W: Write, E: Write>(
    path: &str,
    error: io::Error,
    out: &mut W,
    errors: &mut E,
) -> Result<bool, PrintFault>
    ensures refused { result ≢ Ok true }
{
    if error.kind() == io::ErrorKind::OutOfMemory {
        return Err(PrintFault::NoMemory);
    }
    writeln!(errors, "{}: {}", Escaped(path), Reason(&error))?;
    writeln!(out, "file {}", Escaped(path))?;
    Ok(false)
}

/// Answers the lines of a reader to its end, and says on `errors` how many there were; whether none was refused.
fn answer_reader<A: Allocator + Copy, I: Read + Drop, W: Write, E: Write>(
    alloc: A,
    asked: Asked,
    path: &str,
    input: I,
    out: &mut W,
    errors: &mut E,
) -> Result<bool, PrintFault>
    ensures good { result ≡ Ok true → IfSome (I.remaining input) (AreGood A asked.link) }
{
    // a buffer lacks nothing but memory
    let mut reader = BufReader::new(alloc, input).map_err(|_| PrintFault::NoMemory)?;
    let counts = match answer_lines(alloc, asked, &mut reader, out) {
        Ok(counts) => counts,
        Err(LinesFault::NoMemory) => return Err(PrintFault::NoMemory),
        Err(LinesFault::Write) => return Err(PrintFault::Write),
        Err(LinesFault::Read(error)) => return refuse_file(path, error, out, errors),
    };
    let (messages, refused) = (counts.messages, counts.refused);
    writeln!(
        errors,
        "{}: messages {messages}, refused {refused}",
        Escaped(path)
    )?;
    Ok(refused == 0)
}

/// Answers the lines of a file, or those of `input` where the path is `-`, one answer a line with the line's number
/// ([`answer_lines`]), and says on `errors` how many are messages and how many were refused; whether none was refused. It
/// goes on after lines that are refused.
///
/// A file that can't be read, or not to its end, prints `file` and its path, `errors` says why, and the answer is `false`.
/// The memory that is taken doesn't grow with the file.
pub fn answer_file<R: Files + AllocGlobal, I: Read + Drop, W: Write, E: Write>(
    rt: &R,
    asked: Asked,
    path: &str,
    input: I,
    out: &mut W,
    errors: &mut E,
) -> Result<bool, PrintFault> {
    if path == STANDARD_INPUT {
        return answer_reader(rt.alloc(), asked, path, input, out, errors);
    }
    match File::open(rt, path) {
        Ok(file) => answer_reader(rt.alloc(), asked, path, file, out, errors),
        Err(error) => refuse_file(path, error, out, errors),
    }
}
