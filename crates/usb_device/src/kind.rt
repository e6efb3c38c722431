//! What depends on the kind of a device: whether it is raw, and how many control transfers use no item.
ghost use Rattle.std.specs.Prelude.{◌≡◌, if◌then◌else◌};
ghost use Rattle.usb_device.specs.Device.{is_raw};

use usb_xfer::Kind;

// The control transfers of an enumeration.
const ENUMERATION: u8 = 6;

/// Whether a device only has endpoints.
pub fn is_raw(kind: Kind) -> bool
    ensures { result ≡ is_raw kind }
{
    matches!(kind, Kind::Raw)
}

/// How many control transfers of a device use no item.
pub fn free(kind: Kind) -> u8
    ensures { result ≡ (if is_raw kind then 0 else 6) }
{
    if is_raw(kind) { 0 } else { ENUMERATION }
}
