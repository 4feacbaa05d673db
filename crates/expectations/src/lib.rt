//! What the comments of a script say of what comes of its lines, and whether that is met: by lines that came (`comments`,
//! `ends`, `stars`, `names`), by messages in words (`in_words`), and by what books hold (`held`, `slots`).
#![tactic(auto)]

mod comments;
mod ends;
mod held;
mod in_words;
mod marks;
mod names;
mod slots;
mod stars;
mod words;

pub use comments::{
    Recording, cells_in, held_in, is_meant_idle, is_slipped, names_no_site, peer_in, refused_in,
    site_in,
};
pub use ends::begins_words;
pub use held::{Answered, answer_to, is_answered, print_expected};
pub use in_words::{are_in_words, is_met_by, is_refused_by};
pub use marks::without_mark;
pub use names::{Value, cut_name, has_name, values_of, with_stars};
