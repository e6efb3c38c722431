//! What the URBs of drivers are for.
ghost use Rattle.std.specs.Prelude.{◌≡◌};
ghost use Rattle.usb_class.specs.Roles.{has_for, role_in, kept_size, has_number};

use usb_bind::{Board, Bound, Driver, interface_at, read_size};
use usb_types::{Role, UrbId};

const ROLES: [Role; 6] = [
    Role::In,
    Role::Note,
    Role::Read0,
    Role::Read1,
    Role::Write,
    Role::Ctl,
];

fn has_for(urb: u32, bound: &Bound, role: Role) -> bool
    ensures { result ≡ has_for urb bound.now role }
{
    match bound.urb(role) {
        Some(UrbId(number)) => number == urb,
        None => false,
    }
}

/// The purpose that a binding has an URB for.
pub fn role_of(bound: &Bound, urb: u32) -> Option<Role>
    ensures { result ≡ role_in urb bound.now }
{
    ROLES
        .iter()
        .copied()
        .find(|role| has_for(urb, bound, *role))
}

/// Buffer size in bytes of the driver's standing read, by the descriptors of the interface's own setting; None if it has none.
pub fn kept_size(board: &Board, bound: &Bound, role: Role) -> Option<u32>
    ensures { result ≡ kept_size board.now bound.now role }
{
    let attached = board.attached(bound.device)?;
    let alt = interface_at(&attached.config, bound.interface as u16)?;
    read_size(bound.driver, &attached.config, alt, role)
}

/// Whether transfers of this purpose have a number of the drivers' own.
pub fn has_number(driver: Driver, role: Role) -> bool
    ensures { result ≡ has_number driver role }
{
    matches!(
        (driver, role),
        (Driver::Keyboard, Role::In)
            | (Driver::Acm, Role::Note | Role::Read0 | Role::Read1)
            | (Driver::Printer, Role::Ctl)
    )
}
