//! A host that several callers share: the URB machine with its transfers, which they take by turns.
#![tactic(auto)]

mod callers;
mod given;
mod gives;
mod host;
mod hub;
mod opens;
mod server;
mod servers;
mod stock;

pub use given::TurnGiven;
pub use host::TurnHost;
pub use hub::TurnHub;
pub use server::TurnServer;
pub use stock::{Made, Setup, Stock};
