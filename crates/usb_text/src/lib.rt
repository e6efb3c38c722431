//! The lines and words of a scene, and the words of a report.
#![tactic(auto)]

mod bytes;
mod kinds;
mod laws;
mod lines;
mod print;
mod words;

pub use bytes::{cut, data_bytes, payload};
pub use kinds::{address, are_digits, byte, digits_value, is_name, is_text, number};
pub use laws::{
    address_reads_back, data_reads_back, number_reads_back, packet_reads_back, words_read_back,
};
pub use lines::{are_plain, next_line, without_return};
pub use print::{push_hex, push_number, push_pairs};
pub use words::next_word;
