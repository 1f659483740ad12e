//! Lines that state tables and traps, as a certificate or a file of its own has them.
//!
//! The definition `tables_lines` in `specs` says which lines state tables, and `tables_reading` what
//! lines state, or the first of them that isn't spelled as it must be.
#![tactic(auto)]

mod fault;
mod images;
mod laws;
mod line;
mod listing;
mod lists;
mod starts;
mod tables;
mod text;
mod words;

pub use fault::LinesError;
pub use laws::{
    cut_tables_are_refused, examples_are_found, examples_are_read, examples_are_written,
    lines_have_their_numbers, refused_lines_are_first, suiting_tables_can_be_stated,
    tables_are_read_as_written,
};
pub use listing::{line_count, line_number};
pub use lists::LinePlace;
pub use starts::LineStarts;
pub use tables::{read_tables, tables_at};
pub use text::{TablesText, put_tables_line};
