//! What is prepared before the run of a scene: devices are enumerated, their interfaces are probed, and each URB gets its
//! home.
#![tactic(auto)]

mod beginning;
mod ends;
mod enumeration;
mod faces;
mod found;
mod homes;
mod prepared;
mod preparing;
mod probing;

pub use found::{Found, InterfaceFound, Probe, Taken};
pub use prepared::Prepared;
pub use preparing::prepare;
