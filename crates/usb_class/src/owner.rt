//! The driver that has an URB.

use usb_bind::Driver;
use usb_types::{Role, UrbId};

/// The driver that has an URB.
#[derive(Clone, Copy)]
pub struct Owner {
    /// The place of its binding among all.
    pub place: u32,
    pub driver: Driver,
    /// What it has the URB for.
    pub role: Role,
    /// Buffer size in bytes of the driver's standing read; None if it has none.
    pub size: Option<u32>,
    /// The driver's URB for control transfers, if it has one.
    pub ctl: Option<UrbId>,
}
