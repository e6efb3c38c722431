//! What a name in a report says.
ghost use Rattle.std.specs.Prelude.{◌≡◌, ℕ, Some};
ghost use Rattle.usb_types.specs.declared.urb.Role.{Role};
ghost use Rattle.usb_scene.specs.declared.scene.Scene.{Scene};
ghost use Rattle.usb_scene.specs.WellFormed.{IsWellFormed};
ghost use Rattle.usb_prepare.specs.Prepared.{bindings_of};
ghost use Rattle.usb_prepare.specs.Layout.{role_urb};
ghost use Rattle.usb_report.specs.Names.{role_name, urb_name};

/// An URB that a driver has for a purpose is printed as a line of the scene names it.
pub fn an_urb_of_a_driver_is_named_by_its_role()
    ensures { (s : Scene) (device interface urb : ℕ) (role : Role) → IsWellFormed s → role_urb s device interface role ≡ Some urb
        → urb_name s (bindings_of s) urb ≡ role_name s device interface role }
{}
