//! Offices for tests, and what they are given: lines of scripts.
ghost use Rattle.std.specs.Prelude.{◌≡◌, ◌<◌, ◌≤◌, [], All, IfOk, vec_len};

use crate::bag::{Bag, Taken, bags};
use call_worker::{Closed, Gate, Office, Point, StartFault, Turn};
use cell_table::Site;
use exchange::{Inbound, Outbound};
use lab_script::script::{Given, Item, read_script};
use radio_book::book::Book;
use radio_desk::desk::Desk;
use std::alloc::{AllocError, Allocator, Global};
use std::process::Abort;
use std::sync::{Arc, Wait};
use std::test::Fail;
use std::thread::Threads;
use trace_text::trace::{Mark, print_sent};

/// An office whose workers keep what they pass on.
pub type Hall<R, A> = Office<R, Bag<R, A>, A>;

/// What it leaves.
pub type Left<R, A> = Closed<Bag<R, A>, A>;

/// A gate that holds nothing.
#[derive(Drop)]
pub struct Ajar;

impl Gate for Ajar {
    fn pass(&self, _call: u16, _point: Point) {}
}

/// The site that a text describes.
pub fn shared_site<A: Allocator + Copy>(
    alloc: A,
    scratch: Global,
    text: &str,
) -> Result<Arc<Site<A>, A>, Fail> {
    Ok(Arc::new(alloc, Site::read(alloc, scratch, text)?)?)
}

/// A desk at which nothing was asked, with an empty book of the site that a text describes.
pub fn empty_desk<A: Allocator + Copy>(
    alloc: A,
    scratch: Global,
    text: &str,
) -> Result<Desk<A>, Fail>
    ensures empty { IfOk result (λ desk. desk.history ≡ []) }
{
    let site = shared_site(alloc, scratch, text)?;
    Ok(Desk::new(alloc, Book::new(alloc, site)?)?)
}

/// A runtime for an office, and the links of its workers.
fn own_and_bags<R: Wait + Clone + Drop, A: Allocator + Copy>(
    rt: &R,
    alloc: A,
    taken: &Arc<Taken, A>,
    workers: usize,
) -> Result<(R, Vec<Bag<R, A>, A>), AllocError>
    ensures count { IfOk result (λ r. vec_len r.1 ≡ workers) }
    ensures fresh { IfOk result (λ r. All (λ bag. bag.refused ≡ 0) r.1.items) }
{
    let links = bags(rt, alloc, taken, workers)?;
    Ok((rt.clone()?, links))
}

/// An office of so many workers, 1 to 16, at a desk at which nothing was asked.
pub fn opened<
    R: Threads + Wait + Clone + Drop + Send + 'static,
    G: Gate + Drop + Send + Sync + 'static,
    A: Allocator + Copy + Send + Sync + 'static,
>(
    rt: &R,
    alloc: A,
    desk: Desk<A>,
    gate: Arc<G, A>,
    taken: &Arc<Taken, A>,
    workers: usize,
) -> Result<Hall<R, A>, StartFault>
    requires some { 0 < workers }
    requires most { workers ≤ 16 }
    requires empty { desk.history ≡ [] }
{
    let Ok((own, links)) = own_and_bags(rt, alloc, taken, workers) else {
        return Err(StartFault::NoMemory);
    };
    Office::start(own, alloc, desk, gate, links)
}

/// What an item of a script gives a controller.
fn given<A: Allocator>(item: Item<A>) -> Option<Inbound<A>> {
    match item.given {
        Given::Input(input) => Some(input),
        Given::Attach
        | Given::Set(_)
        | Given::HangUp(_)
        | Given::Ask(_)
        | Given::MobileOf { .. }
        | Given::Restart(_) => None,
    }
}

/// The input that a line of a script gives.
pub fn input_of<A: Allocator + Copy>(rt: &impl Abort, alloc: A, line: &str) -> Inbound<A> {
    let mut items = read_script(alloc, line, false).expect(rt, line);
    let item = items.pop().expect(rt, line);
    given(item).expect(rt, line)
}

/// The inputs of these lines.
pub fn inputs_of<A: Allocator + Copy>(
    rt: &impl Abort,
    alloc: A,
    lines: &str,
) -> Vec<Inbound<A>, A> {
    let mut inputs = Vec::new(alloc);
    for line in lines.lines() {
        let is_kept = inputs.push(input_of(rt, alloc, line)).is_ok();
        assert!(rt; is_kept);
    }
    inputs
}

/// Gives an input, which isn't refused.
pub fn give_one<R: Threads + Wait + Abort + Drop, A: Allocator + Copy>(
    rt: &R,
    hall: &mut Hall<R, A>,
    input: Inbound<A>,
) {
    let is_given = hall.give(input).is_ok();
    assert!(rt; is_given);
}

/// Gives the inputs of these lines, none of which is refused, without waiting.
pub fn give_all<R: Threads + Wait + Abort + AllocGlobal + Drop>(
    rt: &R,
    hall: &mut Hall<R, Global>,
    lines: &str,
) {
    for line in lines.lines() {
        give_one(rt, hall, input_of(rt, rt.alloc(), line));
    }
}

/// Gives lines one by one, each once the one before was taken. Nothing was given before them.
pub fn give_each<R: Threads + Wait + Abort + AllocGlobal + Drop>(
    rt: &R,
    hall: &mut Hall<R, Global>,
    taken: &Taken,
    lines: &str,
) {
    let mut count = 0u64;
    for line in lines.lines() {
        give_one(rt, hall, input_of(rt, rt.alloc(), line));
        count = count.saturating_add(1);
        taken.wait_for(rt, count);
    }
}

/// What a test gives an office, and looks at once it has closed.
pub trait Course {
    /// Gives the office its inputs. Nothing was given before them.
    fn give<R: Threads + Wait + Abort + AllocGlobal + Drop>(
        &self,
        rt: &R,
        hall: &mut Hall<R, Global>,
        taken: &Taken,
    );

    /// Looks at what it leaves.
    fn see<R: Wait + Abort + AllocGlobal + Drop>(
        &self,
        rt: &R,
        left: &Left<R, Global>,
    ) -> Result<(), Fail>;
}

/// The links were told once of each input that was given, also of one that its worker dropped.
pub fn are_told_once<R: Wait + Abort + Drop, A: Allocator>(
    rt: &R,
    left: &Left<R, A>,
    taken: &Taken,
) {
    let mut given = 0u64;
    for worker in &left.workers {
        given = given.saturating_add(worker.given.len() as u64);
    }
    assert!(rt; taken.so_far(rt) == given);
}

/// All workers have ended: nothing is left of their links.
pub fn have_ended<A: Allocator>(rt: &impl Abort, taken: &Arc<Taken, A>) {
    assert!(rt; Arc::strong_count(taken) == 1);
}

/// Closes an office, and looks at what it leaves.
fn closes<R: Threads + Wait + Abort + AllocGlobal + Drop, C: Course>(
    rt: &R,
    hall: Hall<R, Global>,
    taken: &Taken,
    course: &C,
) -> Result<(), Fail> {
    let left = match hall.close() {
        Ok(left) => left,
        Err(unclosed) => return Err(Fail::from(unclosed.fault)),
    };
    are_told_once(rt, &left, taken);
    course.see(rt, &left)
}

/// Gives an office its inputs, closes it, and looks at what it leaves.
fn plays<R: Threads + Wait + Abort + AllocGlobal + Drop, C: Course>(
    rt: &R,
    mut hall: Hall<R, Global>,
    taken: &Taken,
    course: &C,
) -> Result<(), Fail> {
    course.give(rt, &mut hall, taken);
    closes(rt, hall, taken, course)
}

/// Starts an office of so many workers at a desk at which nothing was asked, gives it its inputs, closes it, and looks at what
/// it leaves. It is owned here alone: each function that owns one is dear to prove.
pub fn at_a_desk<
    R: Threads + Wait + Abort + AllocGlobal + Clone + Drop + Send + 'static,
    G: Gate + Drop + Send + Sync + 'static,
    C: Course,
>(rt: &R, desk: Desk<Global>, gate: Arc<G, Global>, workers: usize, course: &C) -> Result<(), Fail>
    requires some { 0 < workers }
    requires most { workers ≤ 16 }
    requires empty { desk.history ≡ [] }
{
    let taken = Arc::new(rt.alloc(), Taken::new())?;
    let hall = opened(rt, rt.alloc(), desk, gate, &taken, workers)?;
    plays(rt, hall, &taken, course)?;
    have_ended(rt, &taken);
    Ok(())
}

/// Plays a course at an office over the empty book of a site, with a gate that holds nothing.
pub fn at_an_office<
    R: Threads + Wait + Abort + AllocGlobal + Clone + Drop + Send + 'static,
    C: Course,
>(rt: &R, site: &str, workers: usize, course: &C) -> Result<(), Fail>
    requires some { 0 < workers }
    requires most { workers ≤ 16 }
{
    let gate = Arc::new(rt.alloc(), Ajar)?;
    let desk = empty_desk(rt.alloc(), rt.alloc(), site)?;
    at_a_desk(rt, desk, gate, workers, course)
}

/// Each input was handled to its end.
pub fn are_ok(rt: &impl Abort, taken: &[Turn<Global>]) {
    for turn in taken {
        assert!(rt; turn.ok);
    }
}

/// Messages that were sent, as lines of a trace.
pub fn sent_lines<A: Allocator>(scratch: Global, sent: &[Outbound<A>]) -> Result<String, Fail> {
    let mut out = Vec::new(scratch);
    print_sent(&mut out, Mark::Alone, sent)?;
    Ok(String::from_utf8(out)?)
}
