//! What the run of a scene begins with.

use crate::found::Found;
use usb_bind::Board;
use usb_device::Scripted;
use usb_machine::Layout;
use usb_types::{Buf, List};

/// A scene whose devices are enumerated and whose interfaces are bound.
#[derive(Drop)]
pub struct Prepared<'a> {
    /// Of each device, by its number.
    pub devices: Vec<Scripted<'a>>,
    /// What each device is found to be.
    pub found: List<Found>,
    /// Which driver has which interface.
    pub board: Board,
    /// Of each binding, by its place in the board, what its device reported when it was probed: the id of a printer. The other
    /// drivers ask for none.
    pub ids: List<Buf>,
    /// The endpoints, and the home of each URB.
    pub layout: Layout,
}
