//! Whether the receipts of several seats at one desk are, all together, the desk's history: each entry is the one call of
//! one of them.
#![tactic(auto)]

ghost use Rattle.std.specs.Prelude.{◌≡◌, ◌≢◌, ◌++◌, [], length, IfOk, OnOk, OnErr, MatchOption, MatchResult};
ghost use Rattle.std.specs.List.{flat_map};
ghost use Rattle.receipt_check.specs.Gathering.{Gathers, IsGatherFault, StandsAt, FirstWrong, FirstTwice, AreFresh};

use radio_desk::desk::Desk;
use radio_desk::seat::Receipt;
use std::alloc::{AllocError, Allocator};
use thiserror::Error;

/// Why an office can't close with this desk and these receipts. If several reasons apply, the answer is the first in this
/// order. `Missing` is found without memory: so where `NoMemory` is answered each receipt is the entry at its place, and the
/// history isn't empty.
#[derive(Clone, Copy, Debug, Error)]
pub enum CloseFault {
    /// This receipt isn't the entry of the history at its place. It is the first such one, list by list.
    #[error("the receipt of place {} isn't of the desk's history", .0.place)]
    Missing(Receipt),
    /// An earlier receipt has this place too (counted from 0). It is the place of the first such receipt, list by list.
    #[error("two receipts are of place {0}")]
    Twice(usize),
    /// There are fewer receipts than entries.
    #[error("the desk's history has entries of which there is no receipt")]
    Count,
    /// The desk opens with another book than the one that the office was started with. `gather` never answers it.
    #[error("the desk opens with another book")]
    Opening,
    /// Memory was refused.
    #[error("memory was refused")]
    NoMemory,
}

/// Checks that receipts, list by list, are the entries of a desk's history: each is the entry at its place, no two have the
/// same place, and there are as many as entries. `Missing`, `Twice` and `Count` say which of these fails, the first in this
/// order.
pub fn gather<A: Allocator + Copy>(
    alloc: A,
    desk: &Desk<A>,
    lists: &[Vec<Receipt, A>],
) -> Result<(), CloseFault>
    ensures gathers { MatchResult result
        (λ _. Gathers desk.now.history (flat_map (λ list. list.items) lists.now))
        (λ fault. IsGatherFault desk.now.history
        (flat_map (λ list. list.items) lists.now) fault) }
{
    if let Some(receipt) = first_wrong_of(desk, lists) {
        return Err(CloseFault::Missing(receipt));
    }
    let Ok(all) = flat(alloc, lists) else {
        return Err(CloseFault::NoMemory);
    };
    check(alloc, desk, all.as_slice())
}

/// Looks whether receipts, each of which is the entry at its place, are all entries of the desk, and each stands once.
pub fn check<A: Allocator + Copy>(
    alloc: A,
    desk: &Desk<A>,
    all: &[Receipt],
) -> Result<(), CloseFault>
    requires { StandsAt desk.now.history all.now (length all.now) }
    ensures gathers { MatchResult result (λ _. Gathers desk.now.history all.now)
        (λ fault. IsGatherFault desk.now.history all.now fault) }
{
    match first_twice(alloc, desk, all) {
        Err(AllocError) => Err(CloseFault::NoMemory),
        Ok(Some(place)) => Err(CloseFault::Twice(place)),
        Ok(None) => {
            if all.len() == desk.len() {
                Ok(())
            } else {
                Err(CloseFault::Count)
            }
        }
    }
}

/// Appends receipts. If memory is refused, which isn't if there are none, nothing was appended.
pub fn push_all<A: Allocator>(all: &mut Vec<Receipt, A>, list: &[Receipt]) -> Result<(), AllocError>
    ensures pushed { OnOk result (all.new.items ≡ all.old.items ++ list.now) }
    ensures unchanged { OnErr result (all.new.items ≡ all.old.items) }
    ensures memory { OnErr result (list.now ≢ []) }
{
    all.extend_from_slice(list)
}

/// All receipts, list by list.
fn flat<A: Allocator + Copy>(
    alloc: A,
    lists: &[Vec<Receipt, A>],
) -> Result<Vec<Receipt, A>, AllocError>
    ensures all { IfOk result (λ all. all.items ≡ flat_map (λ list. list.items) lists.now) }
    ensures memory { OnErr result (flat_map (λ list. list.items) lists.now ≢ []) }
{
    let mut all = Vec::new(alloc);
    for list in lists {
        push_all(&mut all, list.as_slice())?;
    }
    Ok(all)
}

/// The first receipt, list by list, that isn't the entry at its place.
fn first_wrong_of<A: Allocator + Copy>(desk: &Desk<A>, lists: &[Vec<Receipt, A>]) -> Option<Receipt>
    ensures { MatchOption result
        (StandsAt desk.now.history (flat_map (λ list. list.items) lists.now)
        (length (flat_map (λ list. list.items) lists.now)))
        (λ receipt. FirstWrong desk.now.history
        (flat_map (λ list. list.items) lists.now) receipt) }
{
    for list in lists {
        if let Some(receipt) = first_wrong(desk, list.as_slice()) {
            return Some(receipt);
        }
    }
    None
}

/// The first receipt that isn't the entry at its place.
pub fn first_wrong<A: Allocator + Copy>(desk: &Desk<A>, all: &[Receipt]) -> Option<Receipt>
    ensures { MatchOption result (StandsAt desk.now.history all.now (length all.now))
        (λ receipt. FirstWrong desk.now.history all.now receipt) }
{
    for receipt in all {
        if !desk.has(receipt) {
            return Some(*receipt);
        }
    }
    None
}

/// The place of the first receipt whose place an earlier one has. All are entries, so none is past the history's end.
fn first_twice<A: Allocator + Copy>(
    alloc: A,
    desk: &Desk<A>,
    all: &[Receipt],
) -> Result<Option<usize>, AllocError>
    requires { StandsAt desk.now.history all.now (length all.now) }
    ensures found { IfOk result (λ found. MatchOption found (AreFresh all.now (length all.now))
        (λ place. FirstTwice all.now place)) }
    ensures memory { OnErr result (desk.now.history ≢ []) }
{
    let mut seen = Vec::new(alloc);
    seen.resize(desk.len(), false)?;
    for receipt in all {
        if seen[receipt.place] {
            return Ok(Some(receipt.place));
        }
        seen[receipt.place] = true;
    }
    Ok(None)
}
