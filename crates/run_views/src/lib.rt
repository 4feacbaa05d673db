//! Views of a run: its trace with words, with the decisions after reports, and with what the books hold; a capture file; a
//! sequence chart; and counts.
//!
//! A [`Viewer`] listens to a run, prints its trace, turn by turn, and gathers the other views. A [`LiveViewer`] listens to
//! lines as they come, and writes what it gathers at once.
//!
//! In a chart each input has its number at the left; messages are arrows between mobiles, stations, controllers and the switching
//! centre; what was asked of the book, with its reply, is a note at the controller, with a thick frame where it was refused.
//! Beside an undone attempt stands a bar, from the line in which it opens to the release of its channel, or, where none is
//! awaited, to the line in which it is undone: at the left for the first controller, at the right for the second. A chart is
//! one picture, or pages of 60 rows, each a picture in a file of its own.
#![tactic(auto)]

mod attempts;
mod bars;
mod chart_rows;
mod drawing;
mod ignored;
mod lanes;
mod live_viewer;
mod origins;
mod page_paths;
mod same_files;
mod sheets;
mod viewer;

pub use live_viewer::LiveViewer;
pub use page_paths::first_path;
pub use same_files::is_same;
pub use sheets::{Sheets, open_sheets};
pub use viewer::Viewer;
