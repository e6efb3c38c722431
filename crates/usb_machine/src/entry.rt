//! An entry of a history, and the passes with fixed numbers.
use crate::event::{Answer, Event};
use crate::transfer::Transfer;

/// The pass of the server, which takes, finishes and gives back.
pub const SERVER: u32 = 0;

/// The pass of the hub, which sets and unsets flags: the host's own for all devices, never that of a hub device.
pub const HUB: u32 = 1;

/// One line of a history: the pass, its event, the answer, and of a Submit or a Rest the whole transfer.
#[derive(Drop)]
pub struct Entry {
    pub pass: u32,
    pub event: Event,
    pub answer: Answer,
    pub carried: Option<Transfer>,
}
