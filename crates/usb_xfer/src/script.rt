//! What a scene says of a device.
use usb_machine::Shape;
use usb_types::{Buf, List};

/// What a device is made to be: one that only has endpoints, or one of a class with its control requests.
#[derive(Clone, Copy, Debug, PartialEq)]
pub enum Kind {
    Raw,
    Keyboard,
    Acm,
    Printer,
}

/// A device with what it answers.
#[derive(Drop)]
pub struct DeviceScript {
    pub kind: Kind,
    /// A raw device's endpoints beside 00.
    pub ends: List<Shape>,
    /// The bytes of its device descriptor, where they are given (USB 2.0 §9.6.1).
    pub desc: Option<Buf>,
    /// The bytes of its configuration, where they are given (USB 2.0 §9.6.3).
    pub config: Option<Buf>,
    /// A list of answers for each line that gives some.
    pub answers: List<Answers>,
    /// A printer's id, where it is given (the printer class's GET_DEVICE_ID).
    pub id: Option<Buf>,
    /// A printer's port status (the printer class's GET_PORT_STATUS).
    pub port: u8,
}

/// What the device answers at an address, after what earlier lines of this address say.
#[derive(Drop)]
pub struct Answers {
    pub address: u8,
    pub items: List<Item>,
}

/// What is answered to so many calls in a row.
#[derive(Drop)]
pub struct Item {
    pub times: u32,
    pub what: What,
}

/// What a device replies to one question of the host: a handshake (USB 2.0 §8.4.5), or a packet with its bytes.
/// `Error` stands for no reply, or a damaged one.
#[derive(Drop)]
pub enum What {
    Ack,
    Nak,
    Stall,
    Error,
    Packet(Buf),
}
