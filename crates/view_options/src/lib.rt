//! Which views of a run are asked for: what the words of a command line say, and what is printed beside a trace.
#![tactic(auto)]

/// How counts are shown.
#[derive(Clone, Copy, Debug, PartialEq, Eq)]
pub enum SummaryForm {
    /// In words, a line for each figure.
    Words,
    /// As one JSON object.
    Json,
}

/// The sequence chart that is asked for.
#[derive(Clone, Copy, Debug, PartialEq, Eq)]
pub struct ChartView<'a> {
    /// The path of its file.
    pub path: &'a str,
    /// Also with what was only looked up in the book.
    pub looks: bool,
    /// As pages, each in a file of its own.
    pub pages: bool,
}

/// The views that are asked for.
#[derive(Clone, Copy, Debug, PartialEq, Eq)]
pub struct Views<'a> {
    /// Words behind each line.
    pub words: bool,
    /// What the book holds after each input.
    pub state: bool,
    /// What was decided by each report of a call without an attempt.
    pub decisions: bool,
    /// The path of the capture file.
    pub pcap: Option<&'a str>,
    /// The sequence chart.
    pub chart: Option<ChartView<'a>>,
    /// What the run came to, counted.
    pub summary: Option<SummaryForm>,
    /// Behind each input the line of the script that gave it.
    pub lines: bool,
    /// The call whose lines alone are shown.
    pub call: Option<u16>,
}

impl<'a> Views<'a> {
    /// None is asked for.
    pub fn plain() -> Views<'a> {
        Views {
            words: false,
            state: false,
            decisions: false,
            pcap: None,
            chart: None,
            summary: None,
            lines: false,
            call: None,
        }
    }

    /// Whether none is asked for.
    pub fn is_plain(&self) -> bool {
        !self.words
            && !self.state
            && !self.decisions
            && self.pcap.is_none()
            && self.chart.is_none()
            && self.summary.is_none()
            && !self.lines
            && self.call.is_none()
    }
}
