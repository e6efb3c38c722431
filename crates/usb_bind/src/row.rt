//! The drivers, and the rows of their tables.
ghost use Rattle.std.specs.Prelude.{◌≡◌};
ghost use Rattle.usb_bind.specs.Profile.{interface_row, profile_rows};

use crate::flags::{INT_CLASS, INT_PROTOCOL, INT_SUBCLASS};

/// A class driver: boot keyboards, CDC ACM modems, printers.
#[derive(Clone, Copy)]
pub enum Driver {
    Keyboard,
    Acm,
    Printer,
}

/// A row of a driver's table. Only the fields whose flags are set count.
#[derive(Clone, Copy)]
pub struct IdRow {
    /// What it asks for, of `flags`.
    pub flags: u16,
    pub vendor: u16,
    pub product: u16,
    /// The least release, a binary-coded decimal as in the descriptor.
    pub lo: u16,
    /// The greatest release.
    pub hi: u16,
    pub class: u8,
    pub subclass: u8,
    pub protocol: u8,
    pub int_class: u8,
    pub int_subclass: u8,
    pub int_protocol: u8,
    pub int_number: u8,
    pub driver: Driver,
}

fn interface_row(flags: u16, class: u8, subclass: u8, protocol: u8, driver: Driver) -> IdRow
    ensures { result ≡ interface_row flags class subclass protocol driver }
{
    IdRow {
        flags,
        vendor: 0,
        product: 0,
        lo: 0,
        hi: 0,
        class: 0,
        subclass: 0,
        protocol: 0,
        int_class: class,
        int_subclass: subclass,
        int_protocol: protocol,
        int_number: 0,
        driver,
    }
}

/// The rows of this project's drivers, in the order in which they are tried.
pub fn profile() -> [IdRow; 4]
    ensures { result ≡ profile_rows }
{
    let class = INT_CLASS | INT_SUBCLASS;
    let protocol = class | INT_PROTOCOL;
    [
        interface_row(protocol, 0x03, 0x01, 0x01, Driver::Keyboard),
        interface_row(class, 0x02, 0x02, 0, Driver::Acm),
        interface_row(protocol, 0x07, 0x01, 0x01, Driver::Printer),
        interface_row(protocol, 0x07, 0x01, 0x02, Driver::Printer),
    ]
}
