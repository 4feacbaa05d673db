//! A heap for tests that counts the requests for memory, and refuses those that the test chooses.
//!
//! A call that takes memory fails where it is refused, and a proof does not show that it ever succeeds. So refuse its
//! n-th request, for each n from 1 on, until a run is refused none. In each run the answer is an allocation failure
//! exactly where something was refused:
//!
//! ```text
//! for n in 1..1000 {
//!     let heap = RefusingHeap::refusing_nth(rt.alloc(), n);
//!     let answer = greeting(&heap, "north");
//!     assert_eq!(rt; answer.is_err(), heap.was_refused(), "request {n}");
//!     if !heap.was_refused() {
//!         break;
//!     }
//! }
//! ```
//!
//! - Let the test also count the runs in which something was refused, and fail where there is none.
//! - In a run of many calls compare [`RefusingHeap::refused`] before and after each call: the answer is an allocation
//!   failure exactly where it grew. Then see that the call left everything as it was, and call again: only the n-th
//!   request is refused, so this time there is memory.
//! - Let a second loop take [`RefusingHeap::refusing_from`], which refuses all later requests too: a call that undoes
//!   its work has to do that without memory.
//! - To spare what comes before, run that over a [`RefusingHeap::ample`] first, and begin at the number after its
//!   [`RefusingHeap::requests`]. Or begin over an ample heap, and call [`RefusingHeap::refuse_from_now`].
//!
//! Collections take the heap by `&`, which is `Copy`. A thread that is spawned needs a `&'static`, so leak the heap:
//!
//! ```text
//! let heap: &'static RefusingHeap = Box::leak(Box::new(alloc, RefusingHeap::ample(alloc))?);
//! ```
#![tactic(auto)]

ghost use Rattle.std.specs.Prelude.{◌≡◌, ◌↔◌, IsTrue};
ghost use Rattle.refusing_heap.specs.Refusals.{IsRefused};
ghost use Rattle.refusing_heap.specs.declared.Refusals.TheVariants.{Never, Nth, From};

use std::alloc::{AllocError, Allocator, Global};
use std::sync::atomic::{AtomicBool, AtomicU64, Ordering};

/// The requests that a heap refuses. They are numbered in their order, and the first has the number 1.
#[derive(Clone, Copy, Debug, PartialEq, Eq)]
pub enum Refusals {
    /// No request.
    Never,
    /// The request of this number alone. No request has the number 0.
    Nth(u64),
    /// The request of this number and each later one.
    From(u64),
}

impl Refusals {
    /// Whether the request of this number is one of them.
    pub fn refuses(self, number: u64) -> bool
        ensures refused { IsTrue result ↔ IsRefused self number }
    {
        match self {
            Refusals::Never => false,
            Refusals::Nth(n) => number == n,
            Refusals::From(n) => n <= number,
        }
    }
}

// The requests that came so far, and which are refused. `exhausted` says that all are, from now on.
//
// It stands apart from the heap, so that the proof of `allocate` sees one call at one field.
#[derive(Drop)]
struct Ration {
    refusals: Refusals,
    requests: AtomicU64,
    refused: AtomicU64,
    exhausted: AtomicBool,
}

impl Ration {
    fn new(refusals: Refusals) -> Ration
        ensures { result.refusals ≡ refusals }
    {
        Ration {
            refusals,
            requests: AtomicU64::new(0),
            refused: AtomicU64::new(0),
            exhausted: AtomicBool::new(false),
        }
    }

    // Counts one more request, and says whether it is refused. It is counted as refused before the caller hears of it.
    fn refuses_next(&self) -> bool {
        let number = self
            .requests
            .fetch_add(1, Ordering::SeqCst)
            .saturating_add(1);
        let refuses = self.exhausted.load(Ordering::SeqCst) || self.refusals.refuses(number);
        if refuses {
            self.refused.fetch_add(1, Ordering::SeqCst);
        }
        refuses
    }
}

/// A heap that passes requests on to another, `Global` by default, and refuses some of them.
///
/// A request is a block that is asked for. Each growth of a collection is one, and each shrinking: a block is never
/// resized in its place. To give a block back is none, and is never refused. What fits into the room that a
/// collection has makes no request. A refused shrinking is no error: the collection keeps its room.
///
/// Threads may share a heap. Each request then has a number of its own, in the order in which they came.
///
/// The contracts say which requests a heap was made to refuse. No clause can name a count, since another thread may
/// change it at any time: that a heap counts and refuses as it says is tested.
#[derive(Drop)]
pub struct RefusingHeap<A: Allocator = Global> {
    heap: A,
    ration: Ration,
}

impl<A: Allocator> RefusingHeap<A> {
    ghost use Rattle.refusing_heap.specs.RefusingHeap.{refusals_of};

    /// A heap that passes its requests on to `heap`, but for these refusals.
    pub fn new(heap: A, refusals: Refusals) -> Self
        ensures refusals { refusals_of result ≡ refusals }
    {
        RefusingHeap {
            heap,
            ration: Ration::new(refusals),
        }
    }

    /// A heap that refuses no request, until [`RefusingHeap::refuse_from_now`].
    pub fn ample(heap: A) -> Self
        ensures refusals { refusals_of result ≡ Never }
    {
        RefusingHeap::new(heap, Refusals::Never)
    }

    /// A heap that refuses the n-th request alone, counted from 1.
    pub fn refusing_nth(heap: A, n: u64) -> Self
        ensures refusals { refusals_of result ≡ Nth n }
    {
        RefusingHeap::new(heap, Refusals::Nth(n))
    }

    /// A heap that refuses the n-th request, counted from 1, and each later one.
    pub fn refusing_from(heap: A, n: u64) -> Self
        ensures refusals { refusals_of result ≡ From n }
    {
        RefusingHeap::new(heap, Refusals::From(n))
    }

    /// The refusals that this heap was made with.
    pub fn refusals(&self) -> Refusals
        ensures refusals { result ≡ refusals_of self.now }
    {
        self.ration.refusals
    }

    /// Refuses every request from now on, and for good. A request that another thread makes meanwhile may still pass.
    pub fn refuse_from_now(&self) {
        self.ration.exhausted.store(true, Ordering::SeqCst);
    }

    /// How many requests were made, with those that were refused.
    pub fn requests(&self) -> u64 {
        self.ration.requests.load(Ordering::SeqCst)
    }

    /// How many requests were refused.
    pub fn refused(&self) -> u64 {
        self.ration.refused.load(Ordering::SeqCst)
    }

    /// Whether any request was refused.
    pub fn was_refused(&self) -> bool {
        self.refused() != 0
    }
}

// With no `grow` and `shrink` of its own: the trait's ask `allocate` for a block, copy, and give the old block back.
unsafe impl<A: Allocator> Allocator for RefusingHeap<A> {
    ghost dealloc_token = { λ refusing ty ptr. A.dealloc_token refusing.heap ty ptr };

    fn allocate(&self, size: usize, align: usize) -> Result<*mut u8, AllocError> {
        if self.ration.refuses_next() {
            return Err(AllocError);
        }
        self.heap.allocate(size, align)
    }

    unsafe fn deallocate(&self, ptr: *mut u8, size: usize, align: usize) {
        self.heap.deallocate(ptr, size, align);
    }
}
