//! Controllers for tests, and what they are given: lines of scripts.
use cell_table::Site;
use exchange::{Inbound, Outbound};
use ho_procedure::controller::Controller;
use ho_procedure::solo::Solo;
use ho_procedure::view::DeskView;
use lab_script::script::{Given, Item, read_script};
use radio_book::book::Book;
use radio_desk::desk::Desk;
use std::alloc::{Allocator, Global};
use std::process::Abort;
use std::sync::Arc;
use std::test::Fail;
use trace_text::trace::{Mark, print_sent};

/// A controller that asks a desk of its own.
pub type Radio<A> = Controller<Solo<A>, A>;

/// The site that a text describes.
pub fn shared_site<A: Allocator + Copy>(
    alloc: A,
    scratch: Global,
    text: &str,
) -> Result<Arc<Site<A>, A>, Fail> {
    Ok(Arc::new(alloc, Site::read(alloc, scratch, text)?)?)
}

/// A desk at which nothing was asked, with an empty book.
pub fn empty_desk<A: Allocator + Copy>(alloc: A, site: &Arc<Site<A>, A>) -> Result<Desk<A>, Fail> {
    Ok(Desk::new(alloc, Book::new(alloc, site.clone()?)?)?)
}

/// A controller of a site, whose book is empty.
pub fn opened<A: Allocator + Copy>(
    alloc: A,
    scratch: Global,
    text: &str,
) -> Result<Radio<A>, Fail> {
    let site = shared_site(alloc, scratch, text)?;
    let desk = empty_desk(alloc, &site)?;
    Ok(Controller::new(alloc, Solo::new(desk), site))
}

/// What an item of a script gives a controller.
fn given<A: Allocator>(item: Item<A>) -> Option<Inbound<A>> {
    match item.given {
        Given::Input(input) => Some(input),
        Given::Attach
        | Given::Set(_)
        | Given::HangUp(_)
        | Given::Ask(_)
        | Given::MobileOf { .. }
        | Given::Restart(_) => None,
    }
}

/// The input that a line of a script gives, or a line `in` of a trace.
pub fn input_of<A: Allocator + Copy>(rt: &impl Abort, alloc: A, line: &str) -> Inbound<A> {
    let line = line.strip_prefix("in ").unwrap_or(line);
    let mut items = read_script(alloc, line, false).expect(rt, line);
    let item = items.pop().expect(rt, line);
    given(item).expect(rt, line)
}

/// A controller handles an input to its end.
fn is_handled<D: DeskView + Drop, A: Allocator + Copy>(
    rt: &impl Abort,
    alloc: A,
    controller: &mut Controller<D, A>,
    line: &str,
) {
    let input = input_of(rt, alloc, line);
    let done = controller.handle(input).is_ok();
    assert!(rt; done, "{line}");
}

/// Each of these lines is an input that is handled.
pub fn are_handled<D: DeskView + Drop, A: Allocator + Copy>(
    rt: &impl Abort,
    alloc: A,
    controller: &mut Controller<D, A>,
    lines: &str,
) {
    for line in lines.lines() {
        is_handled(rt, alloc, controller, line);
    }
}

/// Messages that were sent, as lines of a trace.
pub fn sent_lines<A: Allocator>(scratch: Global, sent: &[Outbound<A>]) -> Result<String, Fail> {
    let mut out = Vec::new(scratch);
    print_sent(&mut out, Mark::Alone, sent)?;
    Ok(String::from_utf8(out)?)
}
