//! The checks of an office when it closes.
ghost use Rattle.std.specs.Prelude.{◌≡◌, ◌≢◌, ◌↔◌, ◌++◌, ◌≤◌, [], length, IfOk, OnErr, IsTrue, MatchOption, MatchResult, vec_len, vec_capacity};
ghost use Rattle.std.specs.List.{flat_map};
ghost use Rattle.receipt_check.specs.Gathering.{Gathers, FirstWrong, StandsAt};
ghost use Rattle.call_worker.specs.Closing.{AreEnds, IsCloseFault};

use crate::links::Links;
use crate::posted::{Posted, WorkerEnd};
use radio_book::book::Book;
use radio_desk::desk::Desk;
use radio_desk::seat::Receipt;
use receipt_check::{CloseFault, check, first_wrong, push_all};
use std::alloc::{AllocError, Allocator};
use std::sync::Wait;
use std::thread::Threads;

/// Ends all workers, one after the other, and gathers what they leave.
pub(crate) fn close_all<R: Threads + Wait, L: Links + Drop, A: Allocator + Copy>(
    rt: &R,
    posts: Vec<Posted<L, A>, A>,
    mut ends: Vec<WorkerEnd<L, A>, A>,
) -> Vec<WorkerEnd<L, A>, A>
    requires room { vec_len posts ≤ vec_capacity ends }
    requires empty { ends.items ≡ [] }
    ensures { AreEnds L.passed L.refused posts.items result.items }
{
    for posted in posts {
        ends.push_reserved(posted.close(rt));
    }
    ends
}

/// The receipts of the office, and then those of its workers.
fn receipts_of<L, A: Allocator + Copy>(
    alloc: A,
    front: &[Receipt],
    workers: &[WorkerEnd<L, A>],
) -> Result<Vec<Receipt, A>, AllocError>
    ensures all { IfOk result (λ all. all.items ≡
        front.now ++ flat_map (λ worker. worker.receipts.items) workers.now) }
    ensures memory { OnErr result
        ((front.now ++ flat_map (λ worker. worker.receipts.items) workers.now) ≢ []) }
{
    let mut all = Vec::new(alloc);
    push_all(&mut all, front)?;
    for worker in workers {
        push_all(&mut all, worker.receipts.as_slice())?;
    }
    Ok(all)
}

/// Whether the desk opens with this book.
fn opens_with<A: Allocator + Copy>(desk: &Desk<A>, book: &Book<A>) -> bool
    ensures { IsTrue result ↔ (desk.now.opening ≡ book.now) }
{
    *desk.opening() == *book
}

/// The first receipt of a worker, one worker after the other, that isn't the entry at its place.
fn first_wrong_of<L, A: Allocator + Copy>(
    desk: &Desk<A>,
    workers: &[WorkerEnd<L, A>],
) -> Option<Receipt>
    ensures { MatchOption result
        (StandsAt desk.now.history (flat_map (λ worker. worker.receipts.items) workers.now)
        (length (flat_map (λ worker. worker.receipts.items) workers.now)))
        (λ receipt. FirstWrong desk.now.history
        (flat_map (λ worker. worker.receipts.items) workers.now) receipt) }
{
    for worker in workers {
        if let Some(receipt) = first_wrong(desk, worker.receipts.as_slice()) {
            return Some(receipt);
        }
    }
    None
}

/// The first wrong receipt of the office, or else of its workers.
fn first_wrong_of_all<L, A: Allocator + Copy>(
    desk: &Desk<A>,
    front: &[Receipt],
    workers: &[WorkerEnd<L, A>],
) -> Option<Receipt>
    ensures { MatchOption result
        (StandsAt desk.now.history
        (front.now ++ flat_map (λ worker. worker.receipts.items) workers.now)
        (length (front.now ++ flat_map (λ worker. worker.receipts.items) workers.now)))
        (λ receipt. FirstWrong desk.now.history
        (front.now ++ flat_map (λ worker. worker.receipts.items) workers.now) receipt) }
{
    if let Some(receipt) = first_wrong(desk, front) {
        return Some(receipt);
    }
    first_wrong_of(desk, workers)
}

/// Looks whether the receipts of an office, and then of its workers, are the history of a desk that opens with this book.
#[tactic(auto, using(crate::proofs::Closings::closing_fault))]
pub(crate) fn is_whole<L, A: Allocator + Copy>(
    alloc: A,
    desk: &Desk<A>,
    opening: &Book<A>,
    front: &[Receipt],
    workers: &[WorkerEnd<L, A>],
) -> Result<(), CloseFault>
    ensures { MatchResult result
        (λ _. Gathers desk.now.history
        (front.now ++ flat_map (λ worker. worker.receipts.items) workers.now) ×
        (desk.now.opening ≡ opening.now))
        (λ fault. IsCloseFault opening.now desk.now
        (front.now ++ flat_map (λ worker. worker.receipts.items) workers.now) fault) }
{
    if let Some(receipt) = first_wrong_of_all(desk, front, workers) {
        return Err(CloseFault::Missing(receipt));
    }
    let Ok(all) = receipts_of(alloc, front, workers) else {
        return Err(CloseFault::NoMemory);
    };
    if let Err(fault) = check(alloc, desk, all.as_slice()) {
        return Err(fault);
    }
    if !opens_with(desk, opening) {
        return Err(CloseFault::Opening);
    }
    Ok(())
}
