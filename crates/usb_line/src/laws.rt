//! What a run in line order is.
ghost use Rattle.std.specs.Prelude.{◌≡◌, false};
ghost use Rattle.usb_scene.specs.declared.scene.Scene.{Scene};
ghost use Rattle.usb_scene.specs.WellFormed.{IsWellFormed};
ghost use Rattle.usb_trace.specs.Run.{IsRun};
ghost use Rattle.usb_line.specs.Line.{Progress, AreDowns, IsLineRun};

/// The run in line order of a well-formed scene is one of its runs.
pub fn a_run_in_line_order_is_a_run()
    ensures { (s : Scene) (f : Progress) → IsWellFormed s → IsLineRun s f → IsRun s f.history f.call_records f.rounds }
{}

/// A scene has at most one run in line order.
pub fn a_scene_has_one_run_in_line_order()
    ensures { (s : Scene) (f g : Progress) → IsLineRun s f → IsLineRun s g → f ≡ g }
{}

/// In line order each call found the host as all calls before it had left it, of whatever thread.
pub fn a_run_in_line_order_finds_the_host_as_it_was_left()
    ensures { (s : Scene) (f : Progress) → IsWellFormed s → IsLineRun s f → AreDowns s false f.call_records }
{}
