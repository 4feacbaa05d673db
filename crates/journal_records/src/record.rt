//! The records of a journal, each a head and a body: written, and read back.
ghost use Rattle.std.specs.Prelude.{◌≡◌, ◌↔◌, ◌^◌, IsTrue, ◌+◌, ◌≤◌, ◌<◌, ◌++◌, ℕ, List, length, drop, Ok, Err, IfOk, OnOk, OnErr, IsOkAnd, MatchOption};
ghost use Rattle.arrayvec.specs.ArrayVec.{array_vec_len};
ghost use Rattle.journal_records.specs.Numerals.{number_of};
ghost use Rattle.journal_records.specs.Records.{head_length, head_front, head_text, record_text, HasHead, IsBody, BeginsWith, IsCut};

use crate::crc::checksum;
use crate::numerals::{number_of, push_numeral};
use arrayvec::ArrayVec;
use std::alloc::{AllocError, Allocator};
use thiserror::Error;

/// How long the head of a record is.
const HEAD: usize = 67;

/// Where the numbers of a head stand: that of the record, how many octets its body has, and the checksum of these.
const NUMBER: usize = 7;

const SIZE: usize = 28;

const SUM: usize = 49;

/// Why octets don't begin with a record.
#[derive(Clone, Copy, Debug, PartialEq, Eq, Error)]
pub enum RecordFault {
    /// The octets end in the record's head, or before the end of its body.
    #[error("the record is cut")]
    Cut,
    /// Octets of the head or of the body were changed.
    #[error("the record is damaged")]
    Damaged,
}

/// A record, and what follows it.
#[derive(Clone, Copy)]
pub struct Record<'a> {
    /// The number of the line that was taken.
    pub number: u64,
    /// What came of the line.
    pub body: &'a [u8],
    /// All that follows.
    pub behind: &'a [u8],
}

/// The numbers of a head.
#[derive(Clone, Copy)]
struct Head {
    number: u64,
    size: u64,
    sum: u32,
}

/// Appends octets for which there is room.
fn push_octets(text: &mut ArrayVec<u8, HEAD>, octets: &[u8])
    requires room { array_vec_len text.old + length octets.now ≤ 67 }
    ensures items { text.new.items ≡ text.old.items ++ octets.now }
    ensures len { array_vec_len text.new ≡ array_vec_len text.old + length octets.now }
{
    for octet in octets {
        text.push(*octet);
    }
}

/// A head without its own checksum.
#[tactic(auto, unfolding(crate::specs::Records::head_front))]
fn front_of(head: Head) -> ArrayVec<u8, HEAD>
    ensures items { result.items ≡ head_front head.number head.size head.sum }
    ensures len { array_vec_len result ≡ 58 }
{
    let mut text = ArrayVec::new();
    push_octets(&mut text, b"record ");
    push_numeral(&mut text, 10, 20, head.number);
    text.push(b' ');
    push_numeral(&mut text, 10, 20, head.size);
    text.push(b' ');
    push_numeral(&mut text, 16, 8, u64::from(head.sum));
    text.push(b' ');
    text
}

/// A head: its own checksum stands at its end.
#[tactic(auto, unfolding(crate::specs::Records::head_text))]
fn head_of(head: Head) -> ArrayVec<u8, HEAD>
    ensures items { result.items ≡ head_text head.number head.size head.sum }
    ensures len { array_vec_len result ≡ head_length }
{
    let mut text = front_of(head);
    let own = checksum(text.as_slice());
    push_numeral(&mut text, 16, 8, u64::from(own));
    text.push(b'\n');
    text
}

/// Appends a record to a list. If memory is refused, the list is as it was.
pub fn append_record<A: Allocator>(
    out: &mut Vec<u8, A>,
    number: u64,
    body: &[u8],
) -> Result<(), AllocError>
    ensures appended { OnOk result (out.new.items ≡ out.old.items ++ record_text number body.now) }
    ensures unchanged { OnErr result (out.new.items ≡ out.old.items) }
{
    let before = out.len();
    let head = head_of(Head {
        number,
        size: body.len() as u64,
        sum: checksum(body),
    });
    out.extend_from_slice(head.as_slice())?;
    match out.extend_from_slice(body) {
        Ok(()) => Ok(()),
        Err(refused) => {
            out.truncate(before);
            Err(refused)
        }
    }
}

/// The checksum that a text writes, if it is one of 32 bits.
fn sum_of(text: &[u8]) -> Option<u32>
    ensures { MatchOption result (2 ^ 32 ≤ number_of 16 text.now)
        (λ sum. sum ≡ number_of 16 text.now) }
{
    u32::try_from(number_of(16, text)).ok()
}

fn is_same(one: &[u8], other: &[u8]) -> bool
    ensures { IsTrue result ↔ (one.now ≡ other.now) }
{
    one == other
}

/// The head with which octets begin, if they begin with one.
fn head_at(octets: &[u8]) -> Option<Head>
    requires { head_length ≤ length octets.now }
    ensures { MatchOption result
        ((number size sum : ℕ) (behind : List ℕ) → HasHead octets.now number size sum behind → ⊥)
        (λ h. HasHead octets.now h.number h.size h.sum (drop head_length octets.now)) }
{
    let number = number_of(10, &octets[NUMBER..NUMBER + 20]);
    let size = number_of(10, &octets[SIZE..SIZE + 20]);
    let Some(sum) = sum_of(&octets[SUM..SUM + 8]) else {
        return None;
    };
    let head = Head { number, size, sum };
    let (own, _behind) = octets.split_at(HEAD);
    if is_same(own, head_of(head).as_slice()) {
        Some(head)
    } else {
        None
    }
}

/// The body of a record, by its head, and what stands behind it.
fn body_at<'a>(head: Head, behind: &'a [u8]) -> Result<Record<'a>, RecordFault>
    ensures read { IfOk result (λ r. IsBody head.size head.sum behind.now r.body.now r.behind.now) }
    ensures number { IfOk result (λ r. r.number ≡ head.number) }
    ensures whole { (body rest : List ℕ) → IsBody head.size head.sum behind.now body rest →
        IsOkAnd result (λ r. (r.number ≡ head.number) × (r.body.now ≡ body) × (r.behind.now ≡ rest)) }
    ensures cut { (result ≡ Err RecordFault.Cut) ↔ (length behind.now < head.size) }
{
    if (behind.len() as u64) < head.size {
        return Err(RecordFault::Cut);
    }
    let (body, rest) = behind.split_at(head.size as usize);
    if checksum(body) != head.sum {
        return Err(RecordFault::Damaged);
    }
    Ok(Record {
        number: head.number,
        body,
        behind: rest,
    })
}

/// The record at the beginning of the octets.
///
/// `Cut` exactly if the octets end in the record's head, or before the end of its body. `Damaged`: they don't begin with a
/// record, and aren't cut.
pub fn first_record<'a>(octets: &'a [u8]) -> Result<Record<'a>, RecordFault>
    ensures read { IfOk result (λ r. BeginsWith octets.now r.number r.body.now r.behind.now) }
    ensures whole { (number : ℕ) (body behind : List ℕ) → BeginsWith octets.now number body behind →
        IsOkAnd result (λ r. (r.number ≡ number) × (r.body.now ≡ body) × (r.behind.now ≡ behind)) }
    ensures cut { (result ≡ Err RecordFault.Cut) ↔ IsCut octets.now }
{
    if octets.len() < HEAD {
        return Err(RecordFault::Cut);
    }
    let Some(head) = head_at(octets) else {
        return Err(RecordFault::Damaged);
    };
    let (_head, behind) = octets.split_at(HEAD);
    body_at(head, behind)
}
