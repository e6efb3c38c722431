//! The numbers of the drivers' own transfers.
ghost use Rattle.std.specs.Prelude.{◌≡◌, ◌<◌, ◌^◌, if◌then◌else◌, length};
ghost use Rattle.usb_trace.specs.Plan.{is_numbered_by};
ghost use Rattle.usb_trace.specs.NewCores.{number_among};

use usb_class::{Owner, has_number};
use usb_types::UrbId;

/// The number of the first transfer that is a driver's own.
pub const FIRST: u64 = 2_000_000;

/// How many numbers an URB's own transfers take.
pub fn numbers(owner: Option<Owner>) -> u64
    ensures { result ≡ (if is_numbered_by owner then 1 else 0) }
{
    match owner {
        Some(owner) if has_number(owner.driver, owner.role) => 1,
        _ => 0,
    }
}

/// The number of the transfer that is a driver's own with this URB, by the owners of all.
pub fn own_number(owners: &[Option<Owner>], urb: Option<UrbId>) -> u64
    requires { length owners.now < 2 ^ 32 }
    ensures { result ≡ number_among owners.now urb }
{
    let Some(UrbId(urb)) = urb else {
        return 0;
    };
    let mut number = FIRST;
    for (u, owner) in owners.iter().enumerate() {
        if u as u32 == urb {
            break;
        }
        number += numbers(*owner);
    }
    number
}
