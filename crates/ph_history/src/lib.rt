//! The text of a history: written line by line, and read back exactly.
#![tactic(auto)]

mod faults;
mod fits;
mod laws;
mod lines;
mod parts;
mod reading;
mod words;
mod worked;
mod writing;

pub use faults::HistoryFault;
pub use fits::{history_fits, what_is_written_is_read};
pub use laws::{
    bad_line_is_one, bad_line_stays, cut_is_not_bad, text_is_not_bad, text_is_not_cut,
    text_is_of_one, text_is_written, written_is_text,
};
pub use reading::read_history;
pub use worked::a_create;
pub use writing::write_history;
