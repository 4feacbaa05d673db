//! A site that two words describe: cells alike, each a neighbour of all others.
//!
//! No clause says what its text is: that is shown by tests.
use cell_table::limits::{MOST_CELLS, MOST_NEIGHBOURS};
use std::fmt;

/// The most cells that such a site has.
const MOST: u8 = MOST_CELLS as u8;

/// How many carriers there are: as many as a cell's list of neighbours may have. Cells behind these have them again, with the next
/// colour code.
const CARRIERS: u8 = MOST_NEIGHBOURS as u8;

/// At which rates the timeslots of a site carry calls.
#[derive(Clone, Copy, Debug, PartialEq, Eq)]
pub enum Timeslots {
    /// At full rate.
    Full,
    /// At full rate or, as halves, at half rate.
    Half,
}

impl fmt::Display for Timeslots {
    /// The word that a script has for it.
    fn fmt<W: fmt::Write>(&self, f: &mut fmt::Formatter<W>) -> fmt::Result {
        f.write_str(match self {
            Timeslots::Full => "full",
            Timeslots::Half => "half",
        })
    }
}

/// A site of cells alike, each a neighbour of all others: 1 to 64 cells of one carrier each.
#[derive(Clone, Copy, Debug, PartialEq, Eq)]
pub struct UniformSite {
    cells: u8,
    timeslots: Timeslots,
}

/// The timeslots that a word stands for.
fn timeslots_of(word: &str) -> Option<Timeslots> {
    match word {
        "full" => Some(Timeslots::Full),
        "half" => Some(Timeslots::Half),
        _ => None,
    }
}

/// The number that decimal digits alone stand for.
fn number_of(word: &str) -> Option<u8> {
    if word.bytes().all(|digit| digit.is_ascii_digit()) {
        word.parse::<u8>().ok()
    } else {
        None
    }
}

/// A cell of such a site.
#[derive(Clone, Copy)]
struct UniformCell {
    site: UniformSite,
    number: u8,
}

/// The carrier with this place among those of the site, counted from 1.
fn carrier_of(place: u8) -> u16 {
    u16::from(place % CARRIERS) + 1
}

impl UniformSite {
    /// A site of so many cells; `None` where that are none, or more than a site may have.
    pub fn new(cells: u8, timeslots: Timeslots) -> Option<UniformSite> {
        if cells == 0 || cells > MOST {
            return None;
        }
        Some(UniformSite { cells, timeslots })
    }

    /// The site that two words with a blank between describe: how many cells it has, and `full` or `half`.
    pub fn of_words(words: &str) -> Option<UniformSite> {
        let (cells, timeslots) = words.split_once(' ')?;
        UniformSite::new(number_of(cells)?, timeslots_of(timeslots)?)
    }

    /// How many cells it has.
    pub fn cells(self) -> u8 {
        self.cells
    }

    /// At which rates its timeslots carry calls.
    pub fn timeslots(self) -> Timeslots {
        self.timeslots
    }
}

impl UniformCell {
    /// Whether another cell has the carrier with this place: the cell of this number, or the one behind those with all carriers.
    fn has_neighbour_at(self, place: u8) -> bool {
        let again = place.saturating_add(CARRIERS);
        (place != self.number && place < self.site.cells)
            || (again != self.number && again < self.site.cells)
    }

    /// Writes the carriers of its neighbours.
    fn write_neighbours<W: fmt::Write>(self, f: &mut fmt::Formatter<W>) -> fmt::Result {
        let mut joint = "";
        for place in 0..CARRIERS {
            if self.has_neighbour_at(place) {
                write!(f, "{joint}{}", carrier_of(place))?;
                joint = ", ";
            }
        }
        Ok(())
    }
}

impl fmt::Display for UniformCell {
    fn fmt<W: fmt::Write>(&self, f: &mut fmt::Formatter<W>) -> fmt::Result {
        let number = self.number;
        let carrier = carrier_of(number);
        let code = number / CARRIERS;
        write!(f, "\n[[cell]]\nlac = 1\nci = {number}\nbcch = {carrier}\n")?;
        write!(f, "ncc = 0\nbcc = {code}\npower = 5\nba = [")?;
        self.write_neighbours(f)?;
        write!(
            f,
            "]\ntrx = [{{ arfcn = {carrier}, tch = [1, 2, 3, 4, 5, 6, 7]"
        )?;
        if self.site.timeslots == Timeslots::Half {
            write!(f, ", half = [1, 2, 3, 4, 5, 6, 7]")?;
        }
        write!(f, " }}]\n")
    }
}

/// The text of the site, as a site file has it. One report of a mobile is looked at; cell N has the cell identity N and the carrier
/// N + 1, from cell 32 on again from carrier 1 on with the next colour code; timeslots 1 to 7 carry traffic.
impl fmt::Display for UniformSite {
    fn fmt<W: fmt::Write>(&self, f: &mut fmt::Formatter<W>) -> fmt::Result {
        write!(
            f,
            "# Cells alike, each a neighbour of all others.\n\n[handover]\nwindow = 1\nmargin = 3\nminimum = 10\n"
        )?;
        for number in 0..self.cells {
            let site = *self;
            write!(f, "{}", UniformCell { site, number })?;
        }
        Ok(())
    }
}
