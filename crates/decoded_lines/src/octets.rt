//! The octets that a text writes.
ghost use Rattle.std.specs.Prelude.{◌≡◌, IfOk, option_map};
ghost use Rattle.decoded_lines.specs.Lines as said;

use hex::FromHex;
use std::alloc::{AllocError, Allocator};

/// Whether an octet of a text may stand around those that it writes.
fn is_separator(octet: u8) -> bool
    ensures { result ≡ said.is_separator octet }
{
    matches!(octet, b' ' | b'\t' | b':')
}

/// The octet of two hexadecimal digits, in either case.
fn octet_of(high: u8, low: u8) -> Option<[u8; 1]>
    ensures { result ≡ said.octet_of high low }
{
    <[u8; 1] as FromHex>::from_hex([high, low]).ok()
}

/// The octets that a text writes: two hexadecimal digits each, in either case; blanks, tabs and colons may stand before,
/// between and behind them. `None` if the text is another.
pub fn read_octets<A: Allocator>(alloc: A, text: &[u8]) -> Result<Option<Vec<u8, A>>, AllocError>
    ensures octets { IfOk result (λ found.
        option_map (λ octets. octets.items) found ≡ said.octets_of text.now) }
{
    let mut octets = Vec::new(alloc);
    let mut left = text;
    while let [first, rest @ ..] = left {
        if is_separator(*first) {
            left = rest;
            continue;
        }
        let [second, rest @ ..] = rest else {
            return Ok(None);
        };
        let Some(octet) = octet_of(*first, *second) else {
            return Ok(None);
        };
        octets.extend_from_slice(&octet)?;
        left = rest;
    }
    Ok(Some(octets))
}
