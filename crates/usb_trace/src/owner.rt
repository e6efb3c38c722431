//! Which driver has an URB.
ghost use Rattle.std.specs.Prelude.{◌≡◌, ◌<◌, ◌^◌, length};
ghost use Rattle.usb_prepare.specs.Prepared.{probes_of};
ghost use Rattle.usb_scene.specs.declared.scene.Scene.{Scene};
ghost use Rattle.usb_trace.specs.Plan.{owner_of};

use usb_bind::Board;
use usb_class::{Owner, kept_size, role_of};
use usb_types::Role;

/// The owner of an URB: the first binding that has it.
pub fn owner_in(board: &Board, urb: u32) -> Option<Owner>
    requires few { length board.now.bindings < 2 ^ 32 }
    ensures { (s : Scene) → board.now ≡ (probes_of s).board → result ≡ owner_of s urb }
{
    let bindings = board.bindings();
    for (place, bound) in bindings.iter().enumerate() {
        if let Some(role) = role_of(bound, urb) {
            return Some(Owner {
                place: place as u32,
                driver: bound.driver,
                role,
                size: kept_size(board, bound, role),
                ctl: bound.urb(Role::Ctl),
            });
        }
    }
    None
}
