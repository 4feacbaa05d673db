//! Rows of places of attempts: a place stands in each row in which its attempt may be looked for.
ghost use Rattle.std.specs.Prelude.{◌≡◌, ◌<◌, length, map, not, vec_len, IfOk};
ghost use Rattle.radio_book.specs.Following.{is_over};
ghost use Rattle.radio_desk.specs.Followers.{row_of, with_place, passes_at, open_places, cleaned};

use radio_book::following::Followed;
use std::alloc::{AllocError, Allocator};
use std::marker::Model;

/// Rows of places. Contracts see each row as the list of its places.
#[derive(Drop)]
pub(crate) struct Rows<A: Allocator> {
    rows: Vec<Vec<usize, A>, A>,
}

impl<A: Allocator> Model for Rows<A> {
    ghost use Rattle.std.specs.Prelude.{ℕ, List, map};

    ghost Value = { List (List ℕ) };

    ghost view = { λ rows. map (λ row. row.items) rows.rows.items };
}

/// So many rows without a place.
fn empty_rows<A: Allocator + Copy>(
    alloc: A,
    count: usize,
) -> Result<Vec<Vec<usize, A>, A>, AllocError>
    ensures { IfOk result (λ rows. vec_len rows ≡ count) }
{
    let mut rows = Vec::new(alloc);
    while rows.len() < count {
        rows.push(Vec::new(alloc))?;
    }
    Ok(rows)
}

fn row_at<A: Allocator>(rows: &[Vec<usize, A>], row: usize) -> &[usize]
    ensures { result.now ≡ row_of (map (λ row. row.items) rows.now) row }
{
    match rows.get(row) {
        Some(row) => row.as_slice(),
        None => &[],
    }
}

fn push_at<A: Allocator>(
    rows: &mut Vec<Vec<usize, A>, A>,
    row: usize,
    place: usize,
) -> Result<(), AllocError>
    requires { row < vec_len rows.old }
    ensures { IfOk result (λ _. map (λ row. row.items) rows.new.items ≡
        with_place (map (λ row. row.items) rows.old.items) row place) }
{
    rows[row].push(place)?;
    Ok(())
}

/// The attempt at a place isn't over, if one is there.
fn is_open_at(attempts: &[Followed], place: usize) -> bool
    ensures { result ≡ passes_at (λ p. not (is_over p)) attempts.now place }
{
    match attempts.get(place) {
        Some(attempt) => !attempt.is_over(),
        None => true,
    }
}

/// Drops the places of attempts that are over.
fn keep_open<A: Allocator>(row: &mut Vec<usize, A>, attempts: &[Followed])
    ensures { row.new.items ≡ open_places attempts.now row.old.items }
{
    row.retain(|place| is_open_at(attempts, *place));
}

fn clean_at<A: Allocator>(rows: &mut Vec<Vec<usize, A>, A>, row: usize, attempts: &[Followed])
    requires { row < vec_len rows.old }
    ensures { map (λ row. row.items) rows.new.items ≡
        cleaned (map (λ row. row.items) rows.old.items) row attempts.now }
{
    keep_open(&mut rows[row], attempts);
}

impl<A: Allocator + Copy> Rows<A> {
    /// So many rows.
    pub fn new(alloc: A, count: usize) -> Result<Rows<A>, AllocError>
        ensures { IfOk result (λ rows. length rows ≡ count) }
    {
        let rows = empty_rows(alloc, count)?;
        Ok(Rows { rows })
    }

    /// The places in a row.
    pub fn row(&self, row: usize) -> &[usize]
        ensures { result.now ≡ row_of self.now row }
    {
        row_at(&self.rows, row)
    }

    /// Puts one place more into a row.
    pub fn note(&mut self, row: usize, place: usize) -> Result<(), AllocError>
        requires { row < length self.old }
        ensures { IfOk result (λ _. self.new ≡ with_place self.old row place) }
    {
        push_at(&mut self.rows, row, place)
    }

    /// Drops the places of a row whose attempts are over.
    pub fn clean(&mut self, row: usize, attempts: &[Followed])
        requires { row < length self.old }
        ensures { self.new ≡ cleaned self.old row attempts.now }
    {
        clean_at(&mut self.rows, row, attempts);
    }
}
