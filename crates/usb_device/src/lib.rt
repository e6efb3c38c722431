//! A device that replies by its script: items packet by packet, and control transfers by the rules of its kind.
#![tactic(auto)]

mod acked;
mod counted;
mod heard;
mod kind;
mod laws;
mod place;
mod requests;
mod rules;
mod said;
mod scripted;
mod state;

pub use laws::{
    a_device_without_halts_counts_calls, a_halted_address_stalls, a_raw_device_counts_calls,
    an_enumeration_uses_no_item, no_more_is_given_than_is_wanted,
};
pub use scripted::Scripted;
pub use state::DeviceState;
