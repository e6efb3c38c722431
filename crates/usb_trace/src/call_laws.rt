//! What a call does, by the table of calls.
ghost use Rattle.std.specs.Prelude.{◌≡◌};
ghost use Rattle.usb_scene.specs.declared.scene.Scene.{Scene};
ghost use Rattle.usb_scene.specs.declared.scene.Call.{Call};
ghost use Rattle.usb_trace.specs.Plan.{host_call_of};
ghost use Rattle.usb_trace.specs.ByNumber.{host_call_numbered};

/// What a call does is what its number in the table of calls says.
#[tactic(auto, using(crate::proofs::ByNumber::by_number))]
pub fn a_call_does_what_its_number_says()
    ensures { (s : Scene) (c : Call) → host_call_of s c ≡ host_call_numbered s c.code c.target }
{}
