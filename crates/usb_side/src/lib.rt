//! A host with its server, as the controller's side and as the handlers' side.
#![tactic(auto)]

mod beginning;
mod giving;
mod handlers;
mod laws;
mod side;
mod step;

pub use beginning::begin;
pub use giving::give_back;
pub use laws::{
    a_completion_keeps_the_agreement, a_completion_keeps_the_replies, a_look_keeps_the_replies,
    a_wake_keeps_the_replies,
};
pub use side::HostSide;
pub use step::{one_step, turn_once};
