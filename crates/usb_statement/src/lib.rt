//! One line of a scene as a statement, and a statement as its line.
#![tactic(auto)]

mod interface_call;
mod items;
mod kept_data;
mod keyword;
mod options;
mod setup_packet;
mod statement;
mod statement_laws;
mod urb_name;

pub use interface_call::InterfaceCall;
pub use keyword::{BareCall, DeviceBytes, InterfaceWord, Keyword, UrbCall, read_keyword};
pub use options::UrbOption;
pub use statement::{Statement, read_statement};
pub use statement_laws::{
    a_printed_line_is_words, a_read_line_can_be_printed, keyword_reads_back, statement_reads_back,
};
pub use urb_name::UrbName;
