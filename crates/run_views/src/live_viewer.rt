//! A listener that shows views of lines as they come.
use crate::sheets::{Sheet, Sheets, say_left_out};
use crate::viewer::Viewer;
use capture::RunCapture;
use cell_table::SiteFault;
use exchange::Outbound;
use radio_book::book::Book;
use run_listeners::{LabFault, Listener, LiveListener, Turn, Unmet};
use screen_text::{Escaped, Reason};
use std::alloc::{AllocError, Allocator, Global};
use std::fs::OpenFile;
use std::io::{self, Write};
use trace_text::trace::Mark;
use view_options::Views;

/// Prints the trace of lines as they come, as [`Viewer`] does for a run, and writes the capture to its file as it grows. If
/// the capture can't be written any more, only the capture ends. The lines are counted, and the counts are shown when a line
/// asks for them.
#[derive(Drop)]
pub struct LiveViewer<'a, W: Write, F: Write + Drop, A: Allocator + Copy = Global> {
    viewer: Viewer<'a, W, A>,
    /// The capture's file, as long as it can be written.
    pcap: Option<Sheet<F>>,
    /// Whether it couldn't be.
    is_cut: bool,
    /// Why the line had no effect, if it asked in vain.
    unmet: Option<Unmet>,
}

/// Writes what a capture has of its file, and then has it no more.
fn write_on<F: Write + Drop, A: Allocator + Copy>(
    sheet: &mut Sheet<F>,
    capture: &mut RunCapture<A>,
) -> io::Result<()> {
    sheet.out.write_all(capture.octets())?;
    sheet.out.flush()?;
    capture.forget_octets();
    Ok(())
}

/// Says that a capture ends, and why: its file can't be written any more.
fn say_cut<E: Write>(path: &str, error: io::Error, errors: &mut E) -> io::Result<()> {
    writeln!(
        errors,
        "{}: {}; the capture ends, and the controller goes on",
        Escaped(path),
        Reason(&error)
    )
}

impl<'a, W: Write, F: Write + OpenFile + Drop, A: Allocator + Copy> LiveViewer<'a, W, F, A> {
    /// A viewer that prints to `out`. The capture's file is emptied, and gets its header; if that fails, `errors` says why.
    /// The chart's file stays as it is: a chart shows a run that has ended.
    pub fn new<E: Write>(
        alloc: A,
        views: &Views<'_>,
        sheets: Sheets<F>,
        out: &'a mut W,
        errors: &mut E,
    ) -> Result<LiveViewer<'a, W, F, A>, LabFault> {
        let pcap = sheets.into_pcap(errors)?;
        let mut viewer = Viewer::new(alloc, views, false, out)?;
        viewer.begin_summary();
        Ok(LiveViewer {
            viewer,
            pcap,
            is_cut: false,
            unmet: None,
        })
    }

    /// The trace begins with this book instead of an empty one.
    pub fn begin_with(&mut self, book: &Book<A>) -> Result<(), AllocError> {
        self.viewer.begin_with(book)
    }

    /// Ends the views, and says on `errors` how many messages the capture lacks. If its file couldn't be written to the end
    /// (`errors` was told then), the answer is `Write`.
    pub fn finish<E: Write>(self, errors: &mut E) -> Result<(), LabFault> {
        let LiveViewer {
            viewer,
            pcap,
            is_cut,
            unmet: _,
        } = self;
        if is_cut {
            return Err(LabFault::Write);
        }
        match (pcap, viewer.capture()) {
            (Some(sheet), Some(capture)) => {
                say_left_out(&sheet.path, capture.left_out(), errors)
            }
            (None, _) | (_, None) => Ok(()),
        }
    }
}

impl<W: Write, F: Write + Drop, A: Allocator + Copy> LiveViewer<'_, W, F, A> {
    /// Ends the capture, whose file can't be written, and says so.
    fn end_capture<E: Write>(&mut self, error: io::Error, errors: &mut E) -> Result<(), LabFault> {
        self.viewer.drop_capture();
        self.is_cut = true;
        match self.pcap.take() {
            Some(sheet) => Ok(say_cut(&sheet.path, error, errors)?),
            None => Ok(()),
        }
    }

    /// Writes what the capture has gained. Where that can't be, the capture ends, and nothing else.
    fn write_capture<E: Write>(&mut self, errors: &mut E) -> Result<(), LabFault> {
        let (Some(sheet), Some(capture)) = (&mut self.pcap, self.viewer.capture_mut()) else {
            return Ok(());
        };
        match write_on(sheet, capture) {
            Ok(()) => Ok(()),
            Err(error) => self.end_capture(error, errors),
        }
    }
}

impl<W: Write, F: Write + Drop, A: Allocator + Copy> Listener<A> for LiveViewer<'_, W, F, A> {
    fn hear_unmet(&mut self, unmet: Unmet) -> Result<(), LabFault> {
        self.unmet = Some(unmet);
        Ok(())
    }

    /// If memory is refused, the messages that weren't shown yet are printed without views.
    fn hear_turn(&mut self, mark: Mark, turn: &Turn<A>, book: &Book<A>) -> Result<(), LabFault> {
        match self.viewer.hear_turn(mark, turn, book) {
            Ok(()) => Ok(()),
            Err(LabFault::Write) => Err(LabFault::Write),
            Err(LabFault::NoMemory) => {
                self.viewer.print_rest(mark, &turn.answer)?;
                Err(LabFault::NoMemory)
            }
        }
    }

    fn hear_owed(&mut self, mark: Mark, messages: &[Outbound<A>]) -> Result<(), LabFault> {
        self.viewer.print_plain(mark, messages)
    }

    fn hear_limit(&mut self) -> Result<(), LabFault> {
        self.viewer.hear_limit()
    }

    fn hear_end(&mut self, mark: Mark, book: &Book<A>) -> Result<(), LabFault> {
        self.viewer.hear_end(mark, book)
    }

    fn hear_no_site(&mut self, fault: SiteFault) -> io::Result<()> {
        self.viewer.hear_no_site(fault)
    }

    fn hear_unreadable(&mut self, line: usize) -> io::Result<()> {
        self.viewer.hear_unreadable(line)
    }
}

impl<W: Write, F: Write + Drop, A: Allocator + Copy> LiveListener<A> for LiveViewer<'_, W, F, A> {
    fn hear_line_end<E: Write>(&mut self, errors: &mut E) -> Result<(), LabFault> {
        self.viewer.flush()?;
        self.write_capture(errors)
    }

    fn take_unmet(&mut self) -> Option<Unmet> {
        self.unmet.take()
    }

    fn hear_summary(&mut self) -> Result<bool, LabFault> {
        self.viewer.print_summary_words()
    }
}
