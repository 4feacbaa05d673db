//! The numbers of lines, as a list of ranges.
use std::fmt;
use trace_entries::entries::Entry;

/// The lines of the entries at some places, upwards: `2,5-9` where nothing but the lines between 5 and 9 has entries between
/// them; `-` of none.
#[derive(Clone, Copy)]
pub(crate) struct Ranges<'a> {
    pub(crate) entries: &'a [Entry],
    pub(crate) places: &'a [usize],
}

/// The numbers of lines, with a comma between any two; `-` of none.
#[derive(Clone, Copy)]
pub(crate) struct Numbers<'a>(pub(crate) &'a [usize]);

impl fmt::Display for Numbers<'_> {
    fn fmt<W: fmt::Write>(&self, f: &mut fmt::Formatter<W>) -> fmt::Result {
        let Some((first, others)) = self.0.split_first() else {
            return f.write_str("-");
        };
        write!(f, "{first}")?;
        for number in others {
            write!(f, ",{number}")?;
        }
        Ok(())
    }
}

/// Entries that follow one another: the places of the first and of the last.
#[derive(Clone, Copy)]
struct Range {
    first: usize,
    last: usize,
}

impl Range {
    /// One alone.
    fn of(place: usize) -> Range {
        Range {
            first: place,
            last: place,
        }
    }

    /// Whether an entry follows the last.
    fn goes_on_at(self, place: usize) -> bool {
        self.last.saturating_add(1) == place
    }
}

/// The number of an entry's line.
fn line_at(entries: &[Entry], place: usize) -> usize {
    match entries.get(place) {
        Some(entry) => entry.line(),
        None => 0,
    }
}

impl Ranges<'_> {
    /// Writes a range, behind a comma if it isn't the first.
    fn write<W: fmt::Write>(
        &self,
        f: &mut fmt::Formatter<W>,
        range: Range,
        is_first: bool,
    ) -> fmt::Result {
        if !is_first {
            f.write_str(",")?;
        }
        let first = line_at(self.entries, range.first);
        if range.first == range.last {
            return write!(f, "{first}");
        }
        let last = line_at(self.entries, range.last);
        write!(f, "{first}-{last}")
    }
}

impl fmt::Display for Ranges<'_> {
    fn fmt<W: fmt::Write>(&self, f: &mut fmt::Formatter<W>) -> fmt::Result {
        let Some((first, places)) = self.places.split_first() else {
            return f.write_str("-");
        };
        let mut range = Range::of(*first);
        let mut is_first = true;
        for place in places {
            if range.goes_on_at(*place) {
                range.last = *place;
            } else {
                self.write(f, range, is_first)?;
                is_first = false;
                range = Range::of(*place);
            }
        }
        self.write(f, range, is_first)
    }
}
