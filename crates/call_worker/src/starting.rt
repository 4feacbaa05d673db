//! What an office needs before its workers, and how these are started.
ghost use Rattle.std.specs.Prelude.{◌≡◌, ◌≤◌, [], map, All, IfOk, vec_len, vec_capacity};
ghost use Rattle.call_worker.specs.States.{new_worker};

use crate::fault::StartFault;
use crate::gate::Gate;
use crate::links::Links;
use crate::posted::{Posted, WorkerEnd};
use cell_table::Site;
use ho_procedure::shared::Shared;
use radio_book::book::Book;
use radio_desk::desk::Desk;
use std::alloc::{AllocError, Allocator};
use std::sync::{Arc, Mutex, Wait};
use std::thread::Threads;

/// What an office has before its workers: a copy of the opening book, the desk under its lock, and an empty desk that is
/// put there when the office closes; its own seat; and room for what the workers leave, so that it closes without memory.
#[derive(Drop)]
pub struct Ready<R: Drop, L: Drop, A: Allocator> {
    pub opening: Book<A>,
    pub spare: Desk<A>,
    pub lock: Arc<Mutex<Desk<A>>, A>,
    pub front: Shared<R, A>,
    pub ends: Vec<WorkerEnd<L, A>, A>,
}

/// A desk with an empty book of this site.
fn empty_desk<A: Allocator + Copy>(
    alloc: A,
    site: &Arc<Site<A>, A>,
) -> Result<Desk<A>, AllocError> {
    Desk::new(alloc, Book::new(alloc, Arc::try_clone(site)?)?)
}

/// Puts a desk under a lock. Beside it stands a copy of the book that the desk opens with.
fn locked<A: Allocator + Copy>(
    alloc: A,
    desk: Desk<A>,
) -> Result<(Book<A>, Arc<Mutex<Desk<A>>, A>), AllocError>
    ensures { IfOk result (λ r. r.0 ≡ desk.opening) }
{
    let opening = desk.opening().copy()?;
    let lock = Arc::new(alloc, Mutex::new(desk))?;
    Ok((opening, lock))
}

/// What an office of so many workers needs at a desk.
pub(crate) fn prepare<R: Wait + Clone + Drop, L: Drop, A: Allocator + Copy>(
    rt: &R,
    alloc: A,
    desk: Desk<A>,
    workers: usize,
) -> Result<Ready<R, L, A>, AllocError>
    ensures opening { IfOk result (λ ready. ready.opening ≡ desk.opening) }
    ensures front { IfOk result (λ ready. ready.front ≡ []) }
    ensures ends { IfOk result (λ ready. (ready.ends.items ≡ []) ×
        (workers ≤ vec_capacity ready.ends)) }
{
    let (opening, lock) = locked(alloc, desk)?;
    let spare = empty_desk(alloc, opening.site())?;
    let ends = Vec::with_capacity(alloc, workers)?;
    let front = Shared::new(rt.clone()?, alloc, Arc::try_clone(&lock)?);
    Ok(Ready {
        opening,
        spare,
        lock,
        front,
        ends,
    })
}

/// Starts one worker.
fn start_one<
    R: Threads + Wait + Clone + Drop + Send + 'static,
    G: Gate + Drop + Send + Sync + 'static,
    L: Links + Drop + Send + 'static,
    A: Allocator + Copy + Send + Sync + 'static,
>(
    rt: &R,
    alloc: A,
    opening: &Book<A>,
    lock: &Arc<Mutex<Desk<A>>, A>,
    gate: &Arc<G, A>,
    links: L,
) -> Result<Posted<L, A>, StartFault>
    requires { L.refused links ≡ 0 }
    ensures { IfOk result (λ posted. posted ≡ new_worker opening.now.site links) }
{
    let (Ok(site), Ok(lock), Ok(gate)) = (
        Arc::try_clone(opening.site()),
        Arc::try_clone(lock),
        Arc::try_clone(gate),
    ) else {
        return Err(StartFault::NoMemory);
    };
    Posted::start(rt, alloc, site, lock, gate, links)
}

/// Ends workers.
fn stop_all<R: Threads + Wait, L: Links + Drop, A: Allocator + Copy>(
    rt: &R,
    posts: Vec<Posted<L, A>, A>,
) {
    for posted in posts {
        let _ = posted.close(rt);
    }
}

/// Starts a worker for each of the links. Where one can't be started, those that were are ended.
pub(crate) fn start_all<
    R: Threads + Wait + Clone + Drop + Send + 'static,
    G: Gate + Drop + Send + Sync + 'static,
    L: Links + Drop + Send + 'static,
    A: Allocator + Copy + Send + Sync + 'static,
>(
    rt: &R,
    alloc: A,
    opening: &Book<A>,
    lock: &Arc<Mutex<Desk<A>>, A>,
    gate: &Arc<G, A>,
    links: Vec<L, A>,
) -> Result<Vec<Posted<L, A>, A>, StartFault>
    requires { All (λ l. L.refused l ≡ 0) links.items }
    ensures workers { IfOk result (λ posts. posts.items ≡
        map (new_worker opening.now.site) links.items) }
    ensures count { IfOk result (λ posts. vec_len posts ≡ vec_len links) }
{
    // A push that failed would drop a worker that runs: so there is room for all of them first.
    let Ok(mut posts) = Vec::with_capacity(alloc, links.len()) else {
        return Err(StartFault::NoMemory);
    };
    for one in links {
        match start_one(rt, alloc, opening, lock, gate, one) {
            Ok(posted) => posts.push_reserved(posted),
            Err(fault) => {
                stop_all(rt, posts);
                return Err(fault);
            }
        }
    }
    Ok(posts)
}
