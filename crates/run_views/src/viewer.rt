//! A listener that shows views of a run.
use crate::chart_rows::RunChart;
use crate::ignored::{is_ignored, is_nowhere, is_off_site, is_out_of_stage};
use crate::origins::{Origin, Origins};
use capture::RunCapture;
use cell_table::SiteFault;
use decision_words::Decisions;
use exchange::Outbound;
use line_words::{
    Calls, Content, StateLines, content_of, print_ignored, print_out_of_stage, print_words,
};
use radio_book::book::Book;
use run_listeners::{Answer, LabFault, Listener, Source, Turn, print_no_site, print_unreadable};
use run_summaries::{RunSummary, SummaryWords, json_text};
use std::alloc::{AllocError, Allocator, Global};
use std::io::{self, Write};
use trace_text::trace::{Mark, TraceLine, print_sent};
use view_options::{SummaryForm, Views};

/// Prints the trace of a run, with words, with decisions, and with what the books hold, if these views are asked for.
/// Gathers its capture and its chart, and counts its lines.
#[derive(Drop)]
pub struct Viewer<'a, W: Write, A: Allocator + Copy = Global> {
    out: &'a mut W,
    calls: Calls<A>,
    words: bool,
    /// What the books hold, if it is to be printed.
    state: Option<StateLines<A>>,
    /// The decisions after reports, if they are to be printed.
    decisions: Option<Decisions<A>>,
    capture: Option<RunCapture<A>>,
    chart: Option<RunChart<A>>,
    /// The counts of the lines, if they are to be shown or may be asked for.
    summary: Option<RunSummary<A>>,
    /// The form of the counts.
    form: Option<SummaryForm>,
    /// Whether each input is followed by the number of its script line.
    lines: bool,
    /// The script's lines, once they were noted.
    origins: Option<Origins<A>>,
    /// The call to which the lines shown are limited.
    only: Option<u16>,
    /// Whether a line was about this call.
    has_seen: bool,
    /// Whether something was run.
    has_begun: bool,
    /// How many messages of the current or the last answer were shown.
    shown: usize,
    alloc: A,
}

impl<'a, W: Write, A: Allocator + Copy> Viewer<'a, W, A> {
    /// A viewer of the run of one controller, or of two.
    pub fn new(
        alloc: A,
        views: &Views<'_>,
        has_peer: bool,
        out: &'a mut W,
    ) -> Result<Viewer<'a, W, A>, AllocError> {
        let capture = match views.pcap {
            Some(_) => Some(RunCapture::new(alloc)?),
            None => None,
        };
        Ok(Viewer {
            out,
            calls: Calls::new(alloc),
            words: views.words,
            state: if views.state {
                Some(StateLines::new(alloc))
            } else {
                None
            },
            decisions: if views.decisions {
                Some(Decisions::new(alloc))
            } else {
                None
            },
            capture,
            chart: views
                .chart
                .map(|chart| RunChart::new(alloc, has_peer, chart.looks)),
            summary: views.summary.map(|_| RunSummary::new(alloc, has_peer)),
            form: views.summary,
            lines: views.lines,
            origins: None,
            only: views.call,
            has_seen: false,
            has_begun: false,
            shown: 0,
            alloc,
        })
    }

    /// The capture so far, if one is asked for.
    pub fn capture(&self) -> Option<&RunCapture<A>> {
        self.capture.as_ref()
    }

    /// The chart so far, if one is asked for.
    pub(crate) fn chart(&self) -> Option<&RunChart<A>> {
        self.chart.as_ref()
    }

    /// Whether something was run. It wasn't if a site or a script is refused.
    pub fn has_begun(&self) -> bool {
        self.has_begun
    }

    /// The call to which the lines shown are limited, if no line was about it.
    pub fn unseen_call(&self) -> Option<u16> {
        if self.has_seen { None } else { self.only }
    }

    /// The run is to be one of this script: which of its lines give something is noted, where that is to be shown, and the chart
    /// gets this title.
    pub fn note_script(&mut self, title: &str, script: &str) -> Result<(), AllocError> {
        if let Some(chart) = &mut self.chart {
            chart.name(title, self.only)?;
        }
        if self.lines {
            self.origins = Some(Origins::new(self.alloc, script)?);
        }
        Ok(())
    }

    /// Where the next input comes from, where that is shown.
    fn origin_of(&self, source: Source) -> Origin {
        match &self.origins {
            Some(origins) => origins.origin_of(source),
            None => Origin::Untold,
        }
    }

    /// Whether a line about this call is shown. The end of a trace and what was dropped always are.
    fn shows(&self, line: &TraceLine<'_, A>, call: Option<u16>) -> bool {
        match line {
            TraceLine::Limit | TraceLine::End(_) => true,
            TraceLine::Input(_) | TraceLine::Sent(_) | TraceLine::Step(_) | TraceLine::Fault(_) => {
                self.only.is_none() || self.only == call
            }
        }
    }

    /// What is told of one controller begins with this book.
    pub(crate) fn begin_with(&mut self, book: &Book<A>) -> Result<(), AllocError> {
        self.calls = Calls::of_book(self.alloc, book)?;
        if self.state.is_some() {
            self.state = Some(StateLines::of_book(self.alloc, book)?);
        }
        Ok(())
    }

    /// From here on what the lines of one controller come to is counted.
    pub(crate) fn begin_summary(&mut self) {
        self.summary = Some(RunSummary::new(self.alloc, false));
    }

    /// Feeds a line to the capture and to the counts, and to the chart where it is shown.
    fn gather(
        &mut self,
        mark: Mark,
        line: &TraceLine<'_, A>,
        content: &Content<A>,
        call: Option<u16>,
    ) -> Result<(), AllocError> {
        let is_shown = self.shows(line, call);
        if let Some(capture) = &mut self.capture {
            capture.add_line(mark, line)?;
        }
        if let Some(chart) = &mut self.chart {
            if is_shown {
                chart.add_line(mark, line, content, call)?;
            } else {
                chart.pass_line(line);
            }
        }
        if let Some(summary) = &mut self.summary {
            summary.add_line(mark, line, content)?;
        }
        Ok(())
    }

    /// Shows a line, with where its input comes from, without its end. The answer is whether it is shown.
    fn begin_line(
        &mut self,
        mark: Mark,
        line: &TraceLine<'_, A>,
        origin: Origin,
    ) -> Result<bool, LabFault> {
        self.has_begun = true;
        let content = content_of(self.alloc, line)?;
        let call = self.calls.call_of(mark, line, &content)?;
        self.gather(mark, line, &content, call)?;
        self.has_seen = self.has_seen || (call.is_some() && call == self.only);
        if !self.shows(line, call) {
            return Ok(false);
        }
        write!(self.out, "{mark}{line}{origin}")?;
        if self.words {
            write!(self.out, " # ")?;
            print_words(self.out, line, &content, call)?;
        }
        Ok(true)
    }

    /// Shows a line.
    fn show(&mut self, mark: Mark, line: &TraceLine<'_, A>) -> Result<(), LabFault> {
        if self.begin_line(mark, line, Origin::Untold)? {
            writeln!(self.out)?;
        }
        Ok(())
    }

    /// Says whether nothing comes of an input.
    fn show_ignored(&mut self, turn: &Turn<A>, book: &Book<A>) -> Result<(), LabFault> {
        if is_ignored(turn) || is_nowhere(turn, book.site()) {
            return Ok(print_ignored(self.out, &turn.input)?);
        }
        let content = content_of(self.alloc, &TraceLine::Input(&turn.input))?;
        if !is_out_of_stage(turn, &content) {
            return Ok(());
        }
        if is_off_site(&content, book.site()) {
            write!(self.out, "; ignored: no such channel")?;
        } else {
            print_out_of_stage(self.out, &turn.input)?;
        }
        Ok(())
    }

    /// Shows the line of an input, with words also whether nothing comes of it.
    fn show_input(&mut self, mark: Mark, turn: &Turn<A>, book: &Book<A>) -> Result<(), LabFault> {
        let origin = self.origin_of(turn.source);
        if !self.begin_line(mark, &TraceLine::Input(&turn.input), origin)? {
            return Ok(());
        }
        if self.words {
            self.show_ignored(turn, book)?;
        }
        Ok(writeln!(self.out)?)
    }

    /// Shows what was asked of the book.
    fn show_steps(&mut self, mark: Mark, turn: &Turn<A>) -> Result<(), LabFault> {
        for step in &turn.steps {
            if let Some(state) = &mut self.state {
                state.note(mark, *step)?;
            }
            self.show(mark, &TraceLine::Step(*step))?;
        }
        Ok(())
    }

    /// Shows what was sent, or why the input's octets are no message.
    fn show_answer(&mut self, mark: Mark, answer: &Answer<A>) -> Result<(), LabFault> {
        match answer {
            Answer::Sent(sent) => {
                for message in sent {
                    self.show(mark, &TraceLine::Sent(message))?;
                    self.shown = self.shown.saturating_add(1);
                }
                Ok(())
            }
            Answer::Undecoded(bad) => self.show(mark, &TraceLine::Fault(*bad)),
        }
    }

    /// Prints messages as in a trace without views. That takes no memory.
    pub(crate) fn print_plain(
        &mut self,
        mark: Mark,
        messages: &[Outbound<A>],
    ) -> Result<(), LabFault> {
        Ok(print_sent(self.out, mark, messages)?)
    }

    /// Prints those messages of an answer that weren't shown yet, without views.
    pub(crate) fn print_rest(&mut self, mark: Mark, answer: &Answer<A>) -> Result<(), LabFault> {
        match answer {
            Answer::Sent(sent) => self.print_plain(mark, sent.get(self.shown..).unwrap_or(&[])),
            Answer::Undecoded(_) => Ok(()),
        }
    }

    /// Prints in words what was counted so far. The answer is whether it was counted.
    pub(crate) fn print_summary_words(&mut self) -> Result<bool, LabFault> {
        match &self.summary {
            Some(summary) => {
                write!(self.out, "{}", SummaryWords(summary))?;
                Ok(true)
            }
            None => Ok(false),
        }
    }

    /// Prints as one JSON object what was counted so far.
    fn print_summary_json(&mut self, alloc: Global) -> Result<(), LabFault> {
        match &self.summary {
            Some(summary) => {
                let text = json_text(alloc, summary)?;
                Ok(writeln!(self.out, "{text}")?)
            }
            None => Ok(()),
        }
    }

    /// Prints the counts of a run that has ended, in the form that was asked for. Prints nothing if no counts are asked for,
    /// or nothing was run.
    pub fn print_summary(&mut self, alloc: Global) -> Result<(), LabFault> {
        match self.form {
            Some(SummaryForm::Words) if self.has_begun => {
                let _ = self.print_summary_words()?;
                Ok(())
            }
            Some(SummaryForm::Json) if self.has_begun => self.print_summary_json(alloc),
            Some(_) | None => Ok(()),
        }
    }

    /// Has what was printed so far written.
    pub(crate) fn flush(&mut self) -> io::Result<()> {
        self.out.flush()
    }

    /// The capture, where one is asked for, to be written bit by bit.
    pub(crate) fn capture_mut(&mut self) -> Option<&mut RunCapture<A>> {
        self.capture.as_mut()
    }

    /// Gathers no capture any more.
    pub(crate) fn drop_capture(&mut self) {
        self.capture = None;
    }

    /// Prints what was decided by a report, where that is asked for.
    fn print_decision(
        &mut self,
        mark: Mark,
        turn: &Turn<A>,
        book: &Book<A>,
    ) -> Result<(), LabFault> {
        let only = self.only;
        match &mut self.decisions {
            Some(decisions) => decisions.print(self.out, mark, turn, book.site(), only),
            None => Ok(()),
        }
    }

    /// Prints what a controller's book holds, where that is asked for.
    fn print_state(&mut self, mark: Mark, book: &Book<A>) -> Result<(), LabFault> {
        match &mut self.state {
            Some(state) => state.print(self.out, mark, book),
            None => Ok(()),
        }
    }
}

impl<W: Write, A: Allocator + Copy> Listener<A> for Viewer<'_, W, A> {
    fn hear_item(&mut self) -> Result<(), LabFault> {
        if let Some(origins) = &mut self.origins {
            origins.begin_line();
        }
        Ok(())
    }

    fn hear_turn(&mut self, mark: Mark, turn: &Turn<A>, book: &Book<A>) -> Result<(), LabFault> {
        self.shown = 0;
        self.show_input(mark, turn, book)?;
        self.show_steps(mark, turn)?;
        self.show_answer(mark, &turn.answer)?;
        self.print_decision(mark, turn, book)?;
        self.print_state(mark, book)
    }

    fn hear_limit(&mut self) -> Result<(), LabFault> {
        self.show(Mark::Alone, &TraceLine::Limit)
    }

    fn hear_end(&mut self, mark: Mark, book: &Book<A>) -> Result<(), LabFault> {
        self.show(mark, &TraceLine::End(book.usage()))?;
        self.print_state(mark, book)
    }

    fn hear_no_site(&mut self, fault: SiteFault) -> io::Result<()> {
        print_no_site(self.out, fault)
    }

    fn hear_unreadable(&mut self, line: usize) -> io::Result<()> {
        print_unreadable(self.out, line)
    }
}
