//! Control transfers: setup packets, and enumeration as a pure core.
#![tactic(auto)]

mod enumerator;
mod fault;
mod laws;
mod replies;
mod setup;
mod stage;

pub use enumerator::{Attached, Enumerator};
pub use fault::EnumFault;
pub use laws::{
    six_answers_attach, the_requests_have_these_bytes, what_was_read_is_written,
    what_was_written_is_read,
};
pub use setup::Setup;
