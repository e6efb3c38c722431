//! The flags of a row: what it asks for. Those of `INT` ask for a field of the interface.

pub const VENDOR: u16 = 0x001;

pub const PRODUCT: u16 = 0x002;

/// The device's release is at least `lo`.
pub const DEV_LO: u16 = 0x004;

/// The device's release is at most `hi`.
pub const DEV_HI: u16 = 0x008;

pub const DEV_CLASS: u16 = 0x010;

pub const DEV_SUBCLASS: u16 = 0x020;

pub const DEV_PROTOCOL: u16 = 0x040;

pub const INT_CLASS: u16 = 0x080;

pub const INT_SUBCLASS: u16 = 0x100;

pub const INT_PROTOCOL: u16 = 0x200;

pub const INT_NUMBER: u16 = 0x400;

/// All that ask for a field of the interface.
pub(crate) const ANY_INT: u16 = INT_CLASS | INT_SUBCLASS | INT_PROTOCOL | INT_NUMBER;

/// All.
pub(crate) const ANY: u16 = VENDOR
    | PRODUCT
    | DEV_LO
    | DEV_HI
    | DEV_CLASS
    | DEV_SUBCLASS
    | DEV_PROTOCOL
    | ANY_INT;
