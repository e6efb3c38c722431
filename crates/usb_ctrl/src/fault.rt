//! What may go wrong while a device is enumerated.
ghost use Rattle.std.specs.Prelude.{◌≡◌};
ghost use Rattle.usb_ctrl.specs.Enumeration.{fault_of};

use usb_desc::DescFault;
use usb_types::Errno;

/// Why an enumeration does not go on.
#[derive(Clone, Copy, Debug, PartialEq)]
pub enum EnumFault {
    /// The request failed.
    Status { request: u8, errno: Errno },
    /// The reply is not the descriptor that was asked for.
    Descriptor(DescFault),
    /// The two reads of the device differ in their first eight bytes.
    Changed { old: [u8; 8], new: [u8; 8] },
    /// The same request may be answered again.
    Memory,
}

/// The fault of a reply that has a fault as a descriptor.
pub fn fault_of(fault: DescFault) -> EnumFault
    ensures { result ≡ fault_of fault }
{
    match fault {
        DescFault::Memory => EnumFault::Memory,
        fault => EnumFault::Descriptor(fault),
    }
}
