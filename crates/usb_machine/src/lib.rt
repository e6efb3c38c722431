//! The URB object as a machine of fourteen events, and its legal histories.
#![tactic(auto)]

mod change;
mod completion;
mod entry;
mod event;
mod fault;
mod host;
mod host_answers;
mod host_parts;
pub mod laws;
mod layout;
mod meets;
mod opens;
mod pass_row;
mod pending;
mod plain;
mod queues;
mod replays;
mod serves;
mod state;
mod tokens;
mod transfer;

pub use entry::{Entry, HUB, SERVER};
pub use event::{Answer, Event};
pub use fault::shape_fault;
pub use host::Host;
pub use host_answers::{Look, Refused};
pub use host_parts::Parts;
pub use layout::{EndKind, Layout, Shape};
pub use meets::Meets;
pub use opens::Opens;
pub use plain::Plain;
pub use queues::room_of_each;
pub use replays::{Step, replay};
pub use serves::Serves;
pub use state::{Flags, Mark, UrbState};
pub use tokens::{GivenBack, HubToken, ServerToken, Token};
pub use transfer::Transfer;
