//! The server's side of a host: the controller's turn, and the completion of what comes back.
#![tactic(auto)]

mod beginning;
mod completing;
mod controller;
mod flush;
mod give;
mod handler;
pub mod laws;
mod look;
mod plain_handlers;
mod plain_side;
mod plain_steps;
mod serve;
mod side;
mod small;
mod solo;
mod take;
mod turn;

pub use beginning::begin;
pub use completing::complete;
pub use controller::{Controller, EndRow, Held};
pub use handler::{Handler, HandlerSide, Outcome};
pub use plain_side::{PlainGiven, PlainSide, Slots};
pub use serve::{MovedFirst, Turn};
pub use side::Side;
pub use small::{Resting, Silent};
pub use solo::{Solo, Stopped, Waited};
