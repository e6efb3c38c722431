//! A transfer: a buffer, its window, and how much of it was moved.
use usb_types::Buf;

/// A buffer on its way. Its window is `buf[from .. from + len]`, of which the first `actual` bytes were moved.
#[derive(Drop)]
pub struct Transfer {
    /// The setup packet of a control transfer (USB 2.0 §9.3).
    pub setup: Option<[u8; 8]>,
    pub buf: Buf,
    /// Where the window begins, in bytes.
    pub from: u32,
    /// The window's length in bytes.
    pub len: u32,
    /// Whether fewer bytes than asked are a fault (`URB_SHORT_NOT_OK`).
    pub short_not_ok: bool,
    /// How many bytes were moved.
    pub actual: u32,
    /// The transfer's name: of a submit in a scene, its line.
    pub number: u64,
}
