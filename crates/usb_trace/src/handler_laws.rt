//! What completion handlers that stand for a scene do.
ghost use Rattle.std.specs.Prelude.{ℕ, ◌≡◌, ◌<◌, ◌++◌, ◌∷◌, [], List, Option, Ok};
ghost use Rattle.usb_types.specs.declared.errno.Code.{Code};
ghost use Rattle.usb_types.specs.declared.urb.Action.{Action};
ghost use Rattle.usb_machine.specs.declared.transfer.Transfer.{Transfer};
ghost use Rattle.usb_class.specs.declared.handlers.Handlers.{Handlers};
ghost use Rattle.usb_class.specs.Handlers.{action_by, Completes};
ghost use Rattle.usb_scene.specs.declared.scene.Scene.{Scene};
ghost use Rattle.usb_prepare.specs.Layout.{urb_count};
ghost use Rattle.usb_trace.specs.Plan.{owner_of, DriverQuestion};
ghost use Rattle.usb_trace.specs.Run.{Giveback, moved_in, may_again, acts, IsHandled};
ghost use Rattle.usb_trace.specs.Handlers.{AreNewHandlers, AreHandlersOf, Handles, IsAskedAfter};

/// The handlers that a scene begins with have come as far as no giveback.
#[tactic(auto, using(crate::proofs::Handling::begins))]
pub fn handlers_begin_with_a_scene()
    ensures { (s : Scene) (h : Handlers) → AreNewHandlers s h → AreHandlersOf s [] h }
{}

/// Handlers that have come as far as some givebacks of a scene do with the next URB what the scene says. The action is the one of
/// its driver, or of its count, what they did is one that the scene allows, a question is the one of its driver, and then they
/// have come as far as one giveback more.
pub fn handlers_do_what_the_scene_says()
    ensures action { (s : Scene) (rounds : List Giveback) (h new : Handlers) (u : ℕ) (status : Code) (t : Transfer) (action : Action) → AreHandlersOf s rounds h → u < urb_count s
        → Completes h record { 0 = u } status t (Ok action) new → action ≡ action_by (owner_of s u) (may_again s rounds u) status t }
    ensures handled { (s : Scene) (rounds : List Giveback) (h new : Handlers) (r : Giveback) (question : Option DriverQuestion) → AreHandlersOf s rounds h → r.urb < urb_count s
        → Handles h record { 0 = r.urb } r.status (moved_in s r) question r.outcome new → IsHandled (acts s rounds r.urb r.status (moved_in s r)) r.outcome × IsAskedAfter s r.urb question }
    ensures stand { (s : Scene) (rounds : List Giveback) (h new : Handlers) (r : Giveback) (question : Option DriverQuestion) → AreHandlersOf s rounds h → r.urb < urb_count s
        → Handles h record { 0 = r.urb } r.status (moved_in s r) question r.outcome new → AreHandlersOf s (rounds ++ r ∷ []) new }
{}
