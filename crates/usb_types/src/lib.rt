//! The types that every crate names, and the traits of the outside: where bytes come from and go to.
#![tactic(auto)]

mod buf;
mod errno;
pub mod limits;
mod list;
mod memory_ends;
mod outside;
mod search;
mod std_ends;
mod table;
mod table_laws;
mod tables;
mod urb;

pub use buf::Buf;
pub use errno::{Code, Errno};
pub use list::List;
pub use memory_ends::{MemSink, MemSource};
pub use outside::{Failed, Free, Gate, Memory, Sink, Source};
pub use search::{check, code_of, name_of};
pub use std_ends::{StdSink, StdSource};
pub use table::Row;
pub use table_laws::{
    a_table_rises_and_its_names_differ, code_of_name_of, each_row_is_found, what_is_found_is_a_row,
};
pub use tables::{calls, classes, errnos, requests, usages};
pub use urb::{Action, Flag, Role, UrbId, Why};
