//! Why an endpoint refuses a transfer by its shape.
ghost use Rattle.std.specs.Prelude.{◌≡◌, Option};
ghost use Rattle.usb_machine.specs.Shapes.{shape_fault as fault_of, setup_fault as fault_of_setup};

use crate::layout::{EndKind, Shape};
use crate::transfer::Transfer;
use usb_types::Errno;

/// Why an endpoint of this shape does not take the transfer, if it does not.
pub fn shape_fault(shape: &Shape, t: &Transfer) -> Option<Errno>
    ensures { result ≡ fault_of shape.now t.now }
{
    if let Some(errno) = setup_fault(shape.kind, t.setup, t.len) {
        return Some(errno);
    }
    if shape.max == 0 {
        return Some(Errno::EMSGSIZE);
    }
    match shape.kind {
        EndKind::Control | EndKind::Bulk => None,
        EndKind::Interrupt if shape.interval > 0 => None,
        EndKind::Interrupt | EndKind::Iso => Some(Errno::EINVAL),
    }
}

fn setup_fault(kind: EndKind, setup: Option<[u8; 8]>, len: u32) -> Option<Errno>
    ensures { result ≡ fault_of_setup kind setup len }
{
    match (kind, setup) {
        (EndKind::Control, None) => Some(Errno::ENOEXEC),
        (EndKind::Control, Some(setup)) => {
            let asked = u32::from(setup[6]) + 256 * u32::from(setup[7]);
            if asked == len {
                None
            } else {
                Some(Errno::EBADR)
            }
        }
        _ => None,
    }
}
