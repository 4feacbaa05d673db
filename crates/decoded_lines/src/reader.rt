//! Lines one by one.
ghost use Rattle.std.specs.Prelude.{◌≡◌, ◌<◌, ◌≤◌, ◌++◌, length, take, vec_len, Ok, Some, OnOk, OnErr, IfOk, IfSome};
ghost use Rattle.std.specs.List.{position};
ghost use Rattle.std.specs.Io.KnownBytes.{IsAtEnd};
ghost use Rattle.decoded_lines.specs.Reading as said;

use std::alloc::{AllocError, Allocator};
use std::io::{self, BufRead, ErrorKind};

/// The most octets of a line, without its line feed.
pub const LONGEST_LINE: usize = 65_536;

/// How many octets of a line are kept: one more, by which a line that is too long is known.
const MOST_KEPT: usize = LONGEST_LINE + 1;

/// What a reader gave.
#[derive(Clone, Copy, Debug, PartialEq, Eq)]
pub enum Found {
    /// A line, with or without a line feed behind it.
    Line,
    /// A line of more than [`LONGEST_LINE`] octets, which was passed over.
    TooLong,
    /// Nothing: there is no further line.
    End,
}

/// How far a part of a line goes, which a reader had at hand.
#[derive(Clone, Copy)]
enum Part {
    /// Nothing was at hand yet: the reader is to be asked again.
    Again,
    /// There is no further octet.
    End,
    /// Octets, none of which is a line feed.
    Open,
    /// All up to the line feed that ends the line, which was passed over too.
    Whole,
}

/// Where the first line feed stands.
fn feed_place(octets: &[u8]) -> Option<usize>
    ensures { result ≡ position said.is_feed octets.now }
{
    octets.iter().position(|octet| *octet == b'\n')
}

/// Appends what of a part of a line is kept.
fn keep<A: Allocator>(line: &mut Vec<u8, A>, part: &[u8]) -> Result<(), AllocError>
    requires { vec_len line.old ≤ said.most_kept }
    ensures bounded { vec_len line.new ≤ said.most_kept }
    ensures kept { OnOk result (line.new.items ≡ said.kept line.old.items part.now) }
    ensures refused { OnErr result (line.new.items ≡ line.old.items) }
{
    let room = MOST_KEPT - line.len();
    line.extend_from_slice(&part[..part.len().min(room)])?;
    Ok(())
}

/// Appends what a reader has at hand of a line, as far as it is kept, and passes over it.
fn read_part<R: BufRead, A: Allocator>(reader: &mut R, line: &mut Vec<u8, A>) -> io::Result<Part>
    requires { vec_len line.old ≤ said.most_kept }
    ensures bounded { vec_len line.new ≤ said.most_kept }
    ensures passed { IfOk result (λ part. said.Passes part (R.remaining reader.old)
        (R.remaining reader.new) line.old.items line.new.items) }
{
    let shown = match reader.fill_buf() {
        Ok(shown) => shown,
        Err(error) => {
            return if error.kind() == ErrorKind::Interrupted {
                Ok(Part::Again)
            } else {
                Err(error)
            };
        }
    };
    if shown.is_empty() {
        return Ok(Part::End);
    }
    match feed_place(shown) {
        Some(place) => {
            keep(line, &shown[..place])?;
            reader.consume(place + 1);
            Ok(Part::Whole)
        }
        None => {
            keep(line, shown)?;
            let count = shown.len();
            reader.consume(count);
            Ok(Part::Open)
        }
    }
}

/// Whether a line that was read to its end is too long.
fn line_found<A: Allocator>(line: &Vec<u8, A>) -> Found
    ensures found { result ≡ said.found_of (vec_len line.now) }
{
    if line.len() > LONGEST_LINE {
        Found::TooLong
    } else {
        Found::Line
    }
}

/// Reads the next line, without its line feed, into `line`, in place of what that held. Of a line that is too long the
/// front is kept, and the rest is passed over, so that `line` never has more than one octet above the longest.
///
/// After an error `line` has what was read of the line so far, and the reader stands behind that.
pub fn next_line<R: BufRead, A: Allocator>(
    reader: &mut R,
    line: &mut Vec<u8, A>,
) -> io::Result<Found>
    ensures bounded { vec_len line.new ≤ said.most_kept }
    ensures fits { result ≡ Ok Found.Line → vec_len line.new ≤ said.longest_line }
    ensures found { IfOk result (λ found. said.Gives found (R.remaining reader.old)
        (R.remaining reader.new) line.new.items) }
{
    line.clear();
    let mut is_begun = false;
    for _ in 0..u64::MAX {
        match read_part(reader, line)? {
            Part::Again => {}
            Part::Open => is_begun = true,
            Part::Whole => return Ok(line_found(line)),
            Part::End => {
                return Ok(if is_begun {
                    line_found(line)
                } else {
                    Found::End
                });
            }
        }
    }
    Err(io::Error::from(ErrorKind::Other))
}
