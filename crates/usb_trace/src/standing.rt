//! The read that a driver keeps with an URB.
ghost use Rattle.std.specs.Prelude.{◌≡◌, IfOk};
ghost use Rattle.usb_trace.specs.Plan.{read_by};

use crate::sending::zeros;
use std::alloc::Global;
use usb_class::Owner;
use usb_machine::Transfer;
use usb_types::Memory;

/// The read that a driver keeps with its URB, if it does, with this number.
pub fn kept_read(
    alloc: Global,
    owner: Option<Owner>,
    number: u64,
) -> Result<Option<Transfer>, Memory>
    ensures { IfOk result (λ t. t ≡ read_by owner number) }
{
    let Some(owner) = owner else {
        return Ok(None);
    };
    let Some(len) = owner.size else {
        return Ok(None);
    };
    Ok(Some(Transfer {
        setup: None,
        buf: zeros(alloc, len)?,
        from: 0,
        len,
        short_not_ok: false,
        actual: 0,
        number,
    }))
}
