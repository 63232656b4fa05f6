//! The texts of a run that is whole: the merged rows of boxes, the report, and the status.
//!
//! A report is made line by line from the state.
#![tactic(auto)]

pub use hart_lines::hart_line;
pub use merging::merge;
pub use reports::report;
pub use row_lines::put_row;
pub use set_lines::{put_entry, put_set, put_sub};
pub use statuses::status;

mod hart_lines;
mod lines;
mod merging;
mod reports;
mod row_lines;
mod set_lines;
mod statuses;
