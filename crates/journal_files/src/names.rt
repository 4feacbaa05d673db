//! The names of a journal's files.
ghost use Rattle.std.specs.Prelude.{◌≡◌, bytes_eq, codes, Some};
ghost use Rattle.journal_files.specs.Listings.{with_digit, decimal_from, number_of};

use std::alloc::{AllocError, Allocator};

/// How many digits the number of a file has in its name.
const DIGITS: usize = 20;

/// What stands behind them.
const ENDING: &[u8] = b".journal";

/// The file by which a folder is locked.
pub(crate) const LOCK: &str = "lock";

/// A file that is being begun.
pub(crate) const BEGUN: &str = "begun.tmp";

/// The path of a file in a folder.
pub(crate) fn path_of<A: Allocator + Copy>(
    alloc: A,
    folder: &str,
    name: &str,
) -> Result<String<A>, AllocError> {
    format!(in alloc; "{folder}/{name}")
}

/// The name of the file that begins behind the line of this number.
pub(crate) fn span_name<A: Allocator + Copy>(
    alloc: A,
    number: u64,
) -> Result<String<A>, AllocError> {
    format!(in alloc; "{number:020}.journal")
}

/// The path by which a process knows what it has opened under a number, wherever that was moved since.
pub(crate) fn handle_path<A: Allocator + Copy>(
    alloc: A,
    number: u32,
) -> Result<String<A>, AllocError> {
    format!(in alloc; "/proc/self/fd/{number}")
}

/// A number with one decimal digit more; nothing if that is none, or the number is too large.
fn with_digit(number: u64, digit: u8) -> Option<u64>
    ensures { result ≡ with_digit number digit }
{
    if !digit.is_ascii_digit() {
        return None;
    }
    number.checked_mul(10)?.checked_add(u64::from(digit - b'0'))
}

/// The number that decimal digits write.
fn decimal(digits: &[u8]) -> Option<u64>
    ensures { result ≡ decimal_from (Some 0) digits.now }
{
    let mut number = 0;
    let mut rest = digits;
    while let [digit, more @ ..] = rest {
        number = with_digit(number, *digit)?;
        rest = more;
    }
    Some(number)
}

/// Whether this ends the name of a file of a journal.
fn is_ending(ending: &[u8]) -> bool
    ensures { result ≡ bytes_eq ending.now (codes ".journal") }
{
    ending == ENDING
}

/// Behind which line the file of this name begins; nothing of the name of another file.
pub(crate) fn number_of(name: &[u8]) -> Option<u64>
    ensures { result ≡ number_of name.now }
{
    if name.len() < DIGITS {
        return None;
    }
    let (digits, ending) = name.split_at(DIGITS);
    if is_ending(ending) {
        decimal(digits)
    } else {
        None
    }
}

/// Whether a file that begins no span is one of a journal's all the same.
pub(crate) fn is_beside(name: &str) -> bool {
    name == LOCK || name == BEGUN
}
