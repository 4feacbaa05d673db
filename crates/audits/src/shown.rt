//! Prints an audit.
//!
//! No clause says what is printed: tests show it.
use radio_book::book::Book;
use radio_book::event::{Event, Reply};
use radio_desk::audit::Audit;
use remainders::{Choice, kept_places, other_choices, print_choices, print_difference};
use run_listeners::LabFault;
use std::alloc::{Allocator, Global};
use std::io::{self, Write};
use trace_text::trace::Mark;

/// What is printed with an audit, besides its result.
#[derive(Drop)]
pub struct Beside<A: Allocator = Global> {
    /// The lines of the choices that would differ without the attempts.
    pub choices: Vec<usize, A>,
    /// What differs without them, if anything does.
    pub difference: Vec<u8, A>,
}

/// What is printed with an audit of what a book was asked, by its events, their replies, their lines, and the choices.
pub fn beside_of<A: Allocator + Copy>(
    alloc: A,
    book: &Book<A>,
    asked: Asked<'_>,
    audit: &Audit,
) -> Result<Beside<A>, LabFault> {
    let Asked {
        events,
        replies,
        lines,
        choices,
    } = asked;
    let kept = kept_places(alloc, events, replies)?;
    let choices = other_choices(alloc, book, events, &kept, choices)?;
    let mut difference = Vec::new(alloc);
    if !audit.same {
        print_difference(alloc, book, events, &kept, lines, &mut difference)?;
    }
    Ok(Beside {
        choices,
        difference,
    })
}

/// What a book was asked.
#[derive(Clone, Copy, Debug, PartialEq, Eq)]
pub struct Asked<'a> {
    pub events: &'a [Event],
    pub replies: &'a [Reply],
    /// The numbers of their lines, counted from 1.
    pub lines: &'a [usize],
    pub choices: &'a [Choice],
}

/// Prints the result of an audit, each line after its controller's mark: how many attempts were taken out, the line of the
/// first held entry, the lines of the choices that would differ, and whether the rest stays the same, or what differs.
pub fn print_audit<A: Allocator, W: Write>(
    out: &mut W,
    mark: Mark,
    audit: &Audit,
    held: Option<usize>,
    beside: &Beside<A>,
) -> io::Result<()> {
    writeln!(out, "{mark}attempts {}", audit.attempts)?;
    match held {
        Some(line) => writeln!(out, "{mark}held {line}")?,
        None => writeln!(out, "{mark}held -")?,
    }
    print_choices(out, mark, &beside.choices)?;
    if audit.same {
        return writeln!(out, "{mark}same");
    }
    write!(out, "{mark}differs: ")?;
    out.write_all(&beside.difference)?;
    writeln!(out)
}
