//! A binding.
ghost use Rattle.std.specs.Prelude.{◌≡◌, Option};
ghost use Rattle.usb_bind.specs.Board.{has_interface, is_binding_of, urb_of_role};

use crate::row::Driver;
use usb_types::{Role, UrbId};

/// A driver that has an interface, and for ACM the data interface too. The URBs are in this order: of a keyboard
/// `In`, `Ctl`; of ACM `Note`, `Read0`, `Read1`, `Write`, `Ctl`; of a printer `Write`, `Ctl`.
#[derive(Clone, Copy)]
pub struct Bound {
    pub driver: Driver,
    pub device: u32,
    pub interface: u8,
    pub other: Option<u8>,
    pub urbs: [Option<UrbId>; 5],
}

impl Bound {
    /// Whether it has an interface, as its own or as its other one.
    pub fn has_interface(&self, device: u32, interface: u8) -> bool
        ensures { result ≡ has_interface device interface self.now }
    {
        self.device == device && (self.interface == interface || self.other == Some(interface))
    }

    /// Whether this interface is its own.
    pub(crate) fn is_of(&self, device: u32, interface: u8) -> bool
        ensures { result ≡ is_binding_of device interface self.now }
    {
        self.device == device && self.interface == interface
    }

    /// Its URB for a purpose, where its driver has one.
    pub fn urb(&self, role: Role) -> Option<UrbId>
        ensures { result ≡ urb_of_role self.now role }
    {
        match (self.driver, role) {
            (Driver::Keyboard, Role::In) => self.urbs[0],
            (Driver::Keyboard, Role::Ctl) => self.urbs[1],
            (Driver::Acm, Role::Note) => self.urbs[0],
            (Driver::Acm, Role::Read0) => self.urbs[1],
            (Driver::Acm, Role::Read1) => self.urbs[2],
            (Driver::Acm, Role::Write) => self.urbs[3],
            (Driver::Acm, Role::Ctl) => self.urbs[4],
            (Driver::Printer, Role::Write) => self.urbs[0],
            (Driver::Printer, Role::Ctl) => self.urbs[1],
            _ => None,
        }
    }
}
