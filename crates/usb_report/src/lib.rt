//! The text of a report.
#![tactic(auto)]

mod calls;
mod laws;
mod listing;
mod names;
mod report;
mod telling;

pub use laws::an_urb_of_a_driver_is_named_by_its_role;
pub use listing::push_list;
pub use report::push_report;
