//! What a scene's devices are found to be.

use usb_bind::{Driver, ProbeFault};
use usb_ctrl::EnumFault;
use usb_types::List;

/// How the probe of an interface went.
#[derive(Clone, Copy)]
pub enum Probe {
    Bound,
    Refused(ProbeFault),
    /// A request of the driver was not answered, and what was bound was undone.
    Cancelled,
}

/// Who has an interface, or why nobody has.
#[derive(Clone, Copy)]
pub enum Taken {
    By(Driver),
    /// Too few URBs were spare.
    Full,
    /// The other interface that the driver needs was bound.
    Busy,
    /// A request of the driver was not answered.
    Failed,
    /// No driver matches, or what it needs is not there.
    Nobody,
}

/// An interface, as its setting 0 describes it (USB 2.0 §9.6.5).
#[derive(Clone, Copy)]
pub struct InterfaceFound {
    pub number: u8,
    pub class: u8,
    pub subclass: u8,
    pub protocol: u8,
    pub taken: Taken,
}

/// What a device of the scene is found to be.
#[derive(Drop)]
pub enum Found {
    /// A raw device, which is not enumerated.
    Raw,
    Attached {
        vendor: u16,
        product: u16,
        /// Its interfaces, in descriptor order.
        faces: List<InterfaceFound>,
    },
    /// Why its enumeration ended.
    Fault(EnumFault),
}
