//! What the promises of main, the threads and the controller come to.
ghost use Rattle.std.specs.Prelude.{ℕ, ◌≡◌, ◌<◌, Bool, true, List, [], ◌∷◌, ◌++◌, length, Option};
ghost use Rattle.usb_machine.specs.declared.entry.Entry.{Entry};
ghost use Rattle.usb_machine.specs.declared.entry.TheConstants.{SERVER};
ghost use Rattle.usb_machine.specs.declared.transfer.Transfer.{Transfer};
ghost use Rattle.usb_machine.specs.History.{Machine, home_of, state_of, sent_of};
ghost use Rattle.usb_machine.specs.Legal.{IsLegal};
ghost use Rattle.usb_machine.specs.Laws.{NoneGives};
ghost use Rattle.usb_machine.specs.Fresh.{Known, Sound};
ghost use Rattle.usb_machine.specs.Tokens.{Told};
ghost use Rattle.usb_xfer.specs.Replies.{Reply, Question};
ghost use Rattle.usb_device.specs.declared.scripted.Scripted.{Scripted};
ghost use Rattle.usb_device.specs.Replied.{Replied};
ghost use Rattle.usb_side.specs.Went.{Went, Stood, TurnLeft};
ghost use Rattle.usb_scene.specs.declared.scene.Scene.{Scene};
ghost use Rattle.usb_scene.specs.declared.scene.Call.{Call};
ghost use Rattle.usb_scene.specs.WellFormed.{IsWellFormed};
ghost use Rattle.usb_trace.specs.Plan.{machine_of};
ghost use Rattle.usb_trace.specs.Devices.{ShowsDevices};
ghost use Rattle.usb_trace.specs.Run.{CallRecord, Giveback, done_by, IsRun};
ghost use Rattle.usb_line.specs.Line.{Progress, IsLineRun};
ghost use Rattle.usb_threads.specs.Serving.{HasServed, GaveNothing, Gave};
ghost use Rattle.usb_threads.specs.DueSoFar.{AreApt, WentDue, AreDueSoFar, GaveDue};
ghost use Rattle.usb_threads.specs.TurnDue.{LeftDue};
ghost use Rattle.usb_threads.specs.Promises.{IsPutTogether, all_made};
ghost use Rattle.usb_threads.specs.NextCall.{MayCall, MayGoOn};

/// Promises that are put together of one closed history make a run of a well-formed scene.
pub fn promises_make_a_run()
    ensures { (s : Scene) (h : List Entry) (made : ℕ → List CallRecord) (rounds : List Giveback) → IsWellFormed s
        → IsPutTogether s h made rounds → IsRun s h (all_made s made) rounds }
{}

/// The run in line order of a well-formed scene is put together of such promises.
pub fn a_run_in_line_order_is_one_of_these()
    ensures { (s : Scene) (f : Progress) → IsWellFormed s → IsLineRun s f
        → IsPutTogether s f.history (λ i. done_by i f.call_records) f.rounds }
{}

/// What the controller promises stands after one giveback more, and after a turn that gave nothing back.
pub fn a_turn_keeps_the_promise()
    ensures more { (s : Scene) (rounds : List Giveback) (p q : Known) (r : Giveback) → p.number ≡ SERVER → Sound (machine_of s) p
        → HasServed s p.seen p.mine rounds → Gave s rounds p q r → HasServed s q.seen q.mine (rounds ++ r ∷ []) }
    ensures none { (s : Scene) (rounds : List Giveback) (p q : Known) → p.number ≡ SERVER → Sound (machine_of s) p
        → HasServed s p.seen p.mine rounds → GaveNothing s p q → HasServed s q.seen q.mine rounds }
{}

/// What a well-formed scene and a thread's own calls say of its next call.
pub fn a_script_may_go_on()
    ensures { (s : Scene) (p : Known) (i : ℕ) (c : Call) (down : Bool) → IsWellFormed s → MayCall s p i c down → MayGoOn s p c down }
{}

/// What was sent with a queued URB stands until its Give, whatever else is done.
pub fn what_was_sent_stands()
    ensures { (g : Machine) (u : ℕ) (seen rest : List Entry) → IsLegal g (seen ++ rest) → NoneGives u rest → (state_of seen u).queued ≡ true
        → sent_of (seen ++ rest) u ≡ sent_of seen u }
{}

/// Where first pending transfers go on in a well-formed scene, each one that its URB may have, the devices give the replies that are
/// due. An URB that comes back has those that are due next: all so far where it was the first pending one, and else none.
pub fn replies_stay_due()
    ensures chain { (s : Scene) (seen : List Entry) (start : ℕ → Transfer) (asked : ℕ → List Question) (devices after : List Scripted) (so now : ℕ → List Reply) → IsWellFormed s → AreApt s seen
        → ShowsDevices s asked devices → Went Replied (machine_of s) seen start devices so after now → WentDue s start asked so now after }
    ensures on { (s : Scene) (seen : List Entry) (rounds : List Giveback) (start : ℕ → Transfer) (devices after : List Scripted) (so now : ℕ → List Reply) → IsWellFormed s → AreApt s seen
        → AreDueSoFar s rounds start so devices → Went Replied (machine_of s) seen start devices so after now → AreDueSoFar s rounds start now after }
    ensures gave { (s : Scene) (rounds : List Giveback) (start : ℕ → Transfer) (devices : List Scripted) (so now : ℕ → List Reply) (r : Giveback) → AreDueSoFar s rounds start so devices
        → Stood start so now (home_of (machine_of s) r.urb) r.sent r.replies → GaveDue s rounds r start now devices }
    ensures started { (s : Scene) (rounds : List Giveback) (start others : ℕ → Transfer) (devices : List Scripted) (so : ℕ → List Reply) → AreDueSoFar s rounds start so devices
        → ((e : ℕ) → 0 < length (so e) → others e ≡ start e) → AreDueSoFar s rounds others so devices }
{}

/// A turn of the controller, of which these are the parts, keeps what is due, and what it gives back has the replies that are due next.
pub fn a_turn_keeps_what_is_due()
    ensures { (s : Scene) (seen : List Entry) (rounds : List Giveback) (p q : Known) (before after : List Scripted) (so mid now : ℕ → List Reply) (given : Option Told) (first start later : ℕ → Transfer)
        → IsWellFormed s → AreApt s seen → AreDueSoFar s rounds first so before → ((e : ℕ) → 0 < length (so e) → start e ≡ first e) → Went Replied (machine_of s) seen start before so after mid
        → ((e : ℕ) → 0 < length (now e) → later e ≡ start e) → (left : TurnLeft (machine_of s) p q start mid now given) → LeftDue s rounds later after p q start mid now given left }
{}
