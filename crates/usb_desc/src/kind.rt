//! The types of descriptors, and how long each is at least.
ghost use Rattle.std.specs.Prelude.{◌≡◌};
ghost use Rattle.usb_desc.specs.Cut.{standard_length};

pub const DEVICE: u8 = 0x01;

pub const CONFIGURATION: u8 = 0x02;

pub const INTERFACE: u8 = 0x04;

pub const ENDPOINT: u8 = 0x05;

pub const DEVICE_LEN: u8 = 18;

pub const CONFIGURATION_LEN: u8 = 9;

pub const INTERFACE_LEN: u8 = 9;

pub const ENDPOINT_LEN: u8 = 7;

/// A length and a type.
const HEADER_LEN: u8 = 2;

/// How long a descriptor of this type is at least.
pub fn standard_length(kind: u8) -> u8
    ensures { result ≡ standard_length kind }
{
    if kind == DEVICE {
        DEVICE_LEN
    } else if kind == CONFIGURATION {
        CONFIGURATION_LEN
    } else if kind == INTERFACE {
        INTERFACE_LEN
    } else if kind == ENDPOINT {
        ENDPOINT_LEN
    } else {
        HEADER_LEN
    }
}
