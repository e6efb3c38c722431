//! The shapes of endpoints, and the home of each URB.
use usb_types::List;

/// The transfer type of an endpoint (USB 2.0 §9.6.6, bits 0 and 1 of `bmAttributes`).
#[derive(Clone, Copy)]
pub enum EndKind {
    Control,
    Bulk,
    Interrupt,
    Iso,
}

/// What the host knows of an endpoint.
#[derive(Clone, Copy)]
pub struct Shape {
    /// The device, by its number in the host.
    pub device: u32,
    /// The endpoint's address. Bit 7 set means IN.
    pub address: u8,
    pub kind: EndKind,
    /// The most bytes of a packet.
    pub max: u16,
    pub interval: u8,
}

/// Each URB's home endpoint, where it has one, and each endpoint's shape.
#[derive(Drop)]
pub struct Layout {
    pub homes: List<Option<u32>>,
    pub shapes: List<Shape>,
}
