//! Which way an address or a setup packet goes, and which endpoints take control transfers.
ghost use Rattle.std.specs.Prelude.{◌≡◌};
ghost use Rattle.usb_xfer.specs.Direction.{goes_in, is_control};

use usb_machine::EndKind;

/// Whether an endpoint's address is that of an IN endpoint, whose bytes go to the host (bit 7, USB 2.0 §9.6.6). Of a
/// setup packet the first byte says so of its data (§9.3.1).
pub fn is_in(address: u8) -> bool
    ensures { result ≡ goes_in address }
{
    address >= 0x80
}

/// Whether an endpoint takes control transfers.
pub fn is_control(kind: EndKind) -> bool
    ensures { result ≡ is_control kind }
{
    matches!(kind, EndKind::Control)
}
