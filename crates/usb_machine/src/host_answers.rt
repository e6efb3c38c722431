//! What calls of a host answer.
use crate::transfer::Transfer;
use usb_types::{Errno, Why};

/// A submit that was refused, with the transfer that it was given.
#[derive(Drop)]
pub struct Refused {
    pub errno: Errno,
    pub transfer: Transfer,
}

/// What a look at an URB finds of its mark.
#[derive(Clone, Copy)]
pub enum Look {
    Clean,
    Marked(Why),
    /// A mark stands, and its reason cannot be read yet.
    MarkedSoon,
}
