//! Reports of tests in the form of JUnit, which servers of continuous integration read.
//!
//! No clause says what is printed: tests show it.
use chart::Escaped as InXml;
use lab_runs::run::Status;
use run_listeners::LabFault;
use screen_text::{Escaped, Reason};
use std::alloc::{AllocError, Global};
use std::fs;
use std::io::Write;
use std::rt::Files;

/// What came of the tests so far.
#[derive(Drop)]
pub(crate) struct Report {
    /// The elements of the tests.
    cases: String,
    tests: usize,
    failures: usize,
    errors: usize,
}

/// A line of TAP without its mark.
fn without_mark(line: &str) -> &str {
    line.strip_prefix("# ").unwrap_or(line)
}

/// Adds what was printed of a test behind its first line, in an element of this name.
fn push_reasons(cases: &mut String, element: &str, printed: &str) -> Result<(), AllocError> {
    write!(cases, "><{element}>")?;
    for line in printed.lines().skip(1) {
        writeln!(cases, "{}", InXml(without_mark(line)))?;
    }
    write!(cases, "</{element}></testcase>")
}

impl Report {
    /// Before the first test.
    pub(crate) fn new(alloc: Global) -> Report {
        Report {
            cases: String::new(alloc),
            tests: 0,
            failures: 0,
            errors: 0,
        }
    }

    /// Notes how the test of this name ended, of which this was printed.
    pub(crate) fn note(
        &mut self,
        alloc: Global,
        name: &str,
        status: Status,
        printed: &str,
    ) -> Result<(), AllocError> {
        self.tests = self.tests.saturating_add(1);
        let shown = Escaped(name).to_string(alloc)?;
        let cases = &mut self.cases;
        write!(
            cases,
            "<testcase classname=\"bsc_lab\" name=\"{}\"",
            InXml(&shown)
        )?;
        match status {
            Status::Done => write!(cases, "/>")?,
            Status::Differs => {
                self.failures = self.failures.saturating_add(1);
                push_reasons(cases, "failure", printed)?;
            }
            Status::Refused => {
                self.errors = self.errors.saturating_add(1);
                push_reasons(cases, "error", printed)?;
            }
        }
        writeln!(cases)
    }

    /// The whole report.
    fn text(&self, alloc: Global) -> Result<String, AllocError> {
        let Report {
            cases,
            tests,
            failures,
            errors,
        } = self;
        format!(in alloc;
            "<?xml version=\"1.0\" encoding=\"UTF-8\"?>\n<testsuite name=\"bsc_lab\" tests=\"{tests}\" failures=\"{failures}\" errors=\"{errors}\">\n{cases}</testsuite>\n"
        )
    }

    /// Writes the report to a file, in place of what stands there; answers whether it could be, and where not `errors` says why.
    pub(crate) fn write_to<R: Files + AllocGlobal, E: Write>(
        &self,
        rt: &R,
        path: &str,
        errors: &mut E,
    ) -> Result<bool, LabFault> {
        let text = self.text(rt.alloc())?;
        match fs::write(rt, path, &text) {
            Ok(()) => Ok(true),
            Err(error) => {
                writeln!(errors, "{}: {}", Escaped(path), Reason(&error))?;
                Ok(false)
            }
        }
    }
}
