//! The files of views.
use crate::chart_rows::{Extent, RunChart};
use crate::page_paths::{first_path, page_path};
use crate::same_files::is_same;
use crate::viewer::Viewer;
use run_listeners::LabFault;
use screen_text::{Escaped, Reason};
use std::alloc::{AllocError, Allocator, Global};
use std::fs::{OpenFile, OpenOptions};
use std::io::{self, BufWriter, Write};
use std::os::unix::fs::MetadataExt;
use std::rt::Files;
use view_options::{ChartView, Views};

/// A file that is open for writing, with its path.
#[derive(Drop)]
pub(crate) struct Sheet<F: Write + Drop> {
    pub(crate) path: String,
    pub(crate) out: BufWriter<F>,
}

/// The pages of a chart behind the first: the path that their paths are made of, and those of files that none of them may be.
#[derive(Drop)]
struct LaterPages {
    path: String,
    kept: Vec<String>,
}

/// The files to which a run's views are written when it has ended.
#[derive(Drop)]
pub struct Sheets<F: Write + Drop> {
    pcap: Option<Sheet<F>>,
    /// That of the chart, or of its first page.
    chart: Option<Sheet<F>>,
    pages: Option<LaterPages>,
}

/// Why a file can't be opened or made, in a few words: one that isn't there would be made, so it is its folder's fault.
fn say_unopened<E: Write>(path: &str, error: &io::Error, errors: &mut E) -> io::Result<()> {
    if error.kind() == io::ErrorKind::NotFound {
        writeln!(
            errors,
            "{}: its folder doesn't exist, or takes no new file",
            Escaped(path)
        )
    } else {
        writeln!(errors, "{}: {}", Escaped(path), Reason(error))
    }
}

/// Says that a file can't be opened: its path on `out`, and on `errors` why. Nothing is said where memory was refused.
fn refuse<W: Write, E: Write>(
    path: &str,
    error: io::Error,
    out: &mut W,
    errors: &mut E,
) -> Result<(), LabFault> {
    if error.kind() == io::ErrorKind::OutOfMemory {
        return Err(LabFault::NoMemory);
    }
    say_unopened(path, &error, errors)?;
    Ok(writeln!(out, "file {}", Escaped(path))?)
}

/// A file that is open for writing, made where there is none, and otherwise as it was.
fn open_file<R: Files>(rt: &R, path: &str) -> io::Result<R::File> {
    OpenOptions::new().write(true).create(true).open(rt, path)
}

/// An open file, with its path.
fn sheet_of<F: Write + Drop>(alloc: Global, path: &str, file: F) -> Result<Sheet<F>, LabFault> {
    match BufWriter::new(alloc, file) {
        Ok(out) => Ok(Sheet {
            path: String::from_str(alloc, path)?,
            out,
        }),
        // a buffer lacks nothing but memory
        Err(_) => Err(LabFault::NoMemory),
    }
}

/// A file that is open for writing; nothing where it can't be opened, and then its path was printed, and on `errors` why.
fn open_sheet<R: Files + AllocGlobal, W: Write, E: Write>(
    rt: &R,
    path: &str,
    out: &mut W,
    errors: &mut E,
) -> Result<Option<Sheet<R::File>>, LabFault> {
    match open_file(rt, path) {
        Ok(file) => Ok(Some(sheet_of(rt.alloc(), path, file)?)),
        Err(error) => {
            refuse(path, error, out, errors)?;
            Ok(None)
        }
    }
}

/// Makes a file empty. A device has nothing to lose, and no length to set.
fn clear<F: OpenFile>(file: &F) -> io::Result<()> {
    if file.metadata()?.is_file() {
        file.set_len(0)
    } else {
        Ok(())
    }
}

/// Whether two files that are open are one regular file; no, where that isn't known. Files that a test stands in for have
/// no number.
fn is_one_file<F: OpenFile>(one: &F, other: &F) -> bool {
    match (one.metadata(), other.metadata()) {
        (Ok(one), Ok(other)) => {
            one.is_file() && one.ino() != 0 && one.dev() == other.dev() && one.ino() == other.ino()
        }
        (Err(_), _) | (_, Err(_)) => false,
    }
}

/// The path of the chart, where it is written to the file of the capture, under another path or the same: one of them
/// would be lost.
fn named_twice<'s, F: Write + OpenFile + Drop>(
    pcap: Option<&Sheet<F>>,
    chart: Option<&'s Sheet<F>>,
) -> Option<&'s str> {
    let (pcap, chart) = (pcap?, chart?);
    if is_one_file(pcap.out.get_ref(), chart.out.get_ref()) {
        Some(&chart.path)
    } else {
        None
    }
}

/// Opens the file of a chart, or of its first page, as [`open_sheet`] does.
fn open_chart<R: Files + AllocGlobal, W: Write, E: Write>(
    rt: &R,
    chart: ChartView<'_>,
    out: &mut W,
    errors: &mut E,
) -> Result<Option<Sheet<R::File>>, LabFault> {
    let path = first_path(rt.alloc(), chart)?;
    open_sheet(rt, &path, out, errors)
}

/// Copies of paths.
fn copied(alloc: Global, paths: &[&str]) -> Result<Vec<String>, AllocError> {
    let mut copies = Vec::new(alloc);
    for path in paths {
        copies.push(String::from_str(alloc, *path)?)?;
    }
    Ok(copies)
}

/// What is known of the later pages of a chart, where it has pages.
fn later_pages(
    alloc: Global,
    chart: Option<ChartView<'_>>,
    kept: &[&str],
) -> Result<Option<LaterPages>, AllocError> {
    match chart {
        Some(
            ChartView {
                path,
                looks: _,
                pages: true,
            },
        ) => Ok(Some(LaterPages {
            path: String::from_str(alloc, path)?,
            kept: copied(alloc, kept)?,
        })),
        Some(ChartView { pages: false, .. }) | None => Ok(None),
    }
}

/// Opens the files of views, that of the capture first, and makes those that aren't there; nothing where one can't be
/// opened, or both are one regular file, and then the path of the first such was printed, and on `errors` why. What stands
/// in them stays until they are written ([`Sheets::finish`]). Of the pages of a chart the first is opened, since it isn't known
/// how many there will be. None of the others may be a file of these paths.
pub fn open_sheets<R: Files + AllocGlobal, W: Write, E: Write>(
    rt: &R,
    views: &Views<'_>,
    kept: &[&str],
    out: &mut W,
    errors: &mut E,
) -> Result<Option<Sheets<R::File>>, LabFault> {
    let pcap = match views.pcap {
        Some(path) => match open_sheet(rt, path, out, errors)? {
            Some(sheet) => Some(sheet),
            None => return Ok(None),
        },
        None => None,
    };
    let chart = match views.chart {
        Some(chart) => match open_chart(rt, chart, out, errors)? {
            Some(sheet) => Some(sheet),
            None => return Ok(None),
        },
        None => None,
    };
    if let Some(path) = named_twice(pcap.as_ref(), chart.as_ref()) {
        writeln!(errors, "{}: named twice", Escaped(path))?;
        writeln!(out, "file {}", Escaped(path))?;
        return Ok(None);
    }
    let pages = later_pages(rt.alloc(), views.chart, kept)?;
    Ok(Some(Sheets { pcap, chart, pages }))
}

/// Says on `errors` that a file can't be written.
pub(crate) fn say_unwritten<E: Write>(path: &str, error: io::Error, errors: &mut E) -> LabFault {
    match writeln!(errors, "{}: {}", Escaped(path), Reason(&error)) {
        Ok(()) | Err(_) => LabFault::Write,
    }
}

/// Empties the file of a view, before that is written. Where it can't be emptied, `errors` says why.
pub(crate) fn clear_sheet<F: Write + OpenFile + Drop, E: Write>(
    sheet: &Sheet<F>,
    errors: &mut E,
) -> Result<(), LabFault> {
    match clear(sheet.out.get_ref()) {
        Ok(()) => Ok(()),
        Err(error) => Err(say_unwritten(&sheet.path, error, errors)),
    }
}

/// Says on `errors` how many messages a capture hasn't, if any.
pub(crate) fn say_left_out<E: Write>(
    path: &str,
    left_out: u64,
    errors: &mut E,
) -> Result<(), LabFault> {
    if left_out == 0 {
        return Ok(());
    }
    let (messages, are) = if left_out == 1 {
        ("message", "is")
    } else {
        ("messages", "are")
    };
    writeln!(
        errors,
        "{}: {left_out} {messages} {are} too long for a packet, and left out",
        Escaped(path)
    )?;
    Ok(())
}

/// Writes a capture to its file.
fn write_pcap<F: Write + OpenFile + Drop, W: Write, A: Allocator + Copy, E: Write>(
    sheet: Option<Sheet<F>>,
    viewer: &Viewer<'_, W, A>,
    errors: &mut E,
) -> Result<(), LabFault> {
    let (Some(mut sheet), Some(capture)) = (sheet, viewer.capture()) else {
        return Ok(());
    };
    clear_sheet(&sheet, errors)?;
    match sheet.out.write_all(capture.octets()) {
        Ok(()) => {}
        Err(error) => return Err(say_unwritten(&sheet.path, error, errors)),
    }
    match sheet.out.flush() {
        Ok(()) => {}
        Err(error) => return Err(say_unwritten(&sheet.path, error, errors)),
    }
    say_left_out(&sheet.path, capture.left_out(), errors)
}

/// Writes a picture of a chart to its file.
fn write_picture<F: Write + OpenFile + Drop, A: Allocator + Copy, E: Write>(
    sheet: Sheet<F>,
    chart: &RunChart<A>,
    extent: Extent,
    errors: &mut E,
) -> Result<(), LabFault> {
    let mut sheet = sheet;
    clear_sheet(&sheet, errors)?;
    match chart.write_to(extent, &mut sheet.out) {
        Ok(()) => {}
        Err(LabFault::NoMemory) => return Err(LabFault::NoMemory),
        // what couldn't be written is still in the buffer: writing it again tells why
        Err(LabFault::Write) => {
            if let Err(error) = sheet.out.flush() {
                return Err(say_unwritten(&sheet.path, error, errors));
            }
            writeln!(
                errors,
                "{}: the file can't be written",
                Escaped(&sheet.path)
            )?;
            return Err(LabFault::Write);
        }
    }
    match sheet.out.flush() {
        Ok(()) => Ok(()),
        Err(error) => Err(say_unwritten(&sheet.path, error, errors)),
    }
}

/// Whether a path is that of a file of these paths.
fn is_kept<R: Files>(rt: &R, kept: &[String], path: &str) -> bool {
    for other in kept {
        if is_same(rt, other, path) {
            return true;
        }
    }
    false
}

/// Opens the file of a page behind the first. Where it can't be opened, or mustn't be written, `errors` says why.
fn open_page<R: Files + AllocGlobal, E: Write>(
    rt: &R,
    kept: &[String],
    path: &str,
    errors: &mut E,
) -> Result<Sheet<R::File>, LabFault> {
    if is_kept(rt, kept, path) {
        writeln!(errors, "{}: named twice", Escaped(path))?;
        return Err(LabFault::Write);
    }
    match open_file(rt, path) {
        Ok(file) => sheet_of(rt.alloc(), path, file),
        Err(error) if error.kind() == io::ErrorKind::OutOfMemory => Err(LabFault::NoMemory),
        Err(error) => {
            say_unopened(path, &error, errors)?;
            Err(LabFault::Write)
        }
    }
}

/// Writes the pages of a chart behind the first, each to a file of its own, up to the first that can't be written.
fn write_later<R: Files + AllocGlobal, A: Allocator + Copy, E: Write>(
    rt: &R,
    pages: &LaterPages,
    chart: &RunChart<A>,
    errors: &mut E,
) -> Result<(), LabFault> {
    for page in 2..chart.pages().saturating_add(1) {
        let path = page_path(rt.alloc(), &pages.path, page)?;
        let sheet = open_page(rt, &pages.kept, &path, errors)?;
        write_picture(sheet, chart, Extent::Page(page), errors)?;
    }
    Ok(())
}

/// Writes a chart to its file, or its pages to theirs.
fn write_chart<
    R: Files + AllocGlobal,
    F: Write + OpenFile + Drop,
    W: Write,
    A: Allocator + Copy,
    E: Write,
>(
    rt: &R,
    sheet: Option<Sheet<F>>,
    pages: Option<LaterPages>,
    viewer: &Viewer<'_, W, A>,
    errors: &mut E,
) -> Result<(), LabFault> {
    let (Some(sheet), Some(chart)) = (sheet, viewer.chart()) else {
        return Ok(());
    };
    match pages {
        Some(pages) => {
            write_picture(sheet, chart, Extent::Page(1), errors)?;
            write_later(rt, &pages, chart, errors)
        }
        None => write_picture(sheet, chart, Extent::Whole, errors),
    }
}

impl<F: Write + OpenFile + Drop> Sheets<F> {
    /// The file of the capture, emptied, if there is one. Where it can't be emptied, `errors` says why.
    pub(crate) fn into_pcap<E: Write>(self, errors: &mut E) -> Result<Option<Sheet<F>>, LabFault> {
        let Sheets {
            pcap,
            chart: _,
            pages: _,
        } = self;
        if let Some(sheet) = &pcap {
            clear_sheet(sheet, errors)?;
        }
        Ok(pcap)
    }

    /// Empties the files and writes what a viewer has gathered, the capture first. Where one of the files can't be
    /// written, `errors` says why, and the other is written all the same; of pages those before.
    pub fn finish<R: Files + AllocGlobal, W: Write, A: Allocator + Copy, E: Write>(
        self,
        rt: &R,
        viewer: &Viewer<'_, W, A>,
        errors: &mut E,
    ) -> Result<(), LabFault> {
        let Sheets { pcap, chart, pages } = self;
        let pcap = write_pcap(pcap, viewer, errors);
        let chart = write_chart(rt, chart, pages, viewer, errors);
        pcap?;
        chart
    }
}
