//! The entries that a call makes, beside the turns that it waits for.
ghost use Rattle.std.specs.Prelude.{◌≡◌, ◌<◌, ◌++◌, ◌∷◌, [], ℕ, List, Option, None, true, false, if◌then◌else◌, map};
ghost use Rattle.usb_machine.specs.declared.entry.Entry.{Entry};
ghost use Rattle.usb_machine.specs.declared.transfer.Transfer.{Transfer};
ghost use Rattle.usb_types.specs.declared.urb.Flag.TheVariants as flag;
ghost use Rattle.usb_machine.specs.declared.event.Event.TheVariants as event;
ghost use Rattle.usb_machine.specs.State.{refusal, unlinking};
ghost use Rattle.usb_machine.specs.History.{state_of};
ghost use Rattle.usb_machine.specs.Parts.{part_of, held_of, holds_any};
ghost use Rattle.usb_machine.specs.Legal.{Follows};
ghost use Rattle.usb_machine.specs.Calls.{entry, plain_entry, mark_entry, claim_entries};
ghost use Rattle.usb_machine.specs.Plain.{IsInside, HasRoom, Stands, urbs_of};
ghost use Rattle.usb_scene.specs.declared.scene.Scene.{Scene};
ghost use Rattle.usb_trace.specs.Plan.{machine_of};
ghost use Rattle.usb_line.specs.Steps.{AsMany, passes_of, told_code, told_number};

use usb_machine::{Answer, Event, HUB, Plain};
use usb_types::{Code, Flag, UrbId, Why};

/// Makes an event that may follow.
pub fn enter(plain: &mut Plain, pass: u32, event: Event) -> Answer
    requires { IsInside plain.old event }
    ensures counts { AsMany plain.old plain.new }
    ensures entered { (s : Scene) (h : List Entry) (a : Answer) (t : Option Transfer) → Stands plain.old (machine_of s) h → Follows (machine_of s) h (entry pass event a t) → HasRoom h pass event
        → (result ≡ a) × Stands plain.new (machine_of s) (h ++ entry pass event a t ∷ []) }
{
    plain.step(pass, event)
}

/// The code that a Submit, a Mark or a Give answers.
pub fn code_in(answer: Answer) -> Code
    ensures { result ≡ told_code answer }
{
    match answer {
        Answer::Code(code) => code,
        _ => Code::Zero,
    }
}

// The number that a Claim answers.
fn number_in(answer: Answer) -> Option<u64>
    ensures { result ≡ told_number answer }
{
    match answer {
        Answer::Number(number) => number,
        _ => None,
    }
}

/// Marks the URB as unlinked. Answers what the machine says.
pub fn mark(plain: &mut Plain, pass: u32, urb: UrbId, why: Why) -> Code
    requires { urb.0 < urbs_of plain.old }
    ensures counts { AsMany plain.old plain.new }
    ensures marked { (s : Scene) (h : List Entry) → Stands plain.old (machine_of s) h → pass < passes_of s
        → (result ≡ unlinking (state_of h urb.0)) × Stands plain.new (machine_of s) (h ++ mark_entry pass why urb.0 result ∷ []) }
{
    code_in(enter(plain, pass, Event::Mark { urb, why }))
}

/// Raises a reject.
pub fn reject(plain: &mut Plain, pass: u32, urb: UrbId)
    requires { urb.0 < urbs_of plain.old }
    ensures counts { AsMany plain.old plain.new }
    ensures raised { (s : Scene) (h : List Entry) → Stands plain.old (machine_of s) h → pass < passes_of s → (held_of (part_of h pass) urb.0).rejects < 255
        → Stands plain.new (machine_of s) (h ++ plain_entry pass (event.Reject urb) ∷ []) }
{
    enter(plain, pass, Event::Reject { urb });
}

/// Withdraws a reject that the pass holds.
pub fn withdraw(plain: &mut Plain, pass: u32, urb: UrbId)
    requires { urb.0 < urbs_of plain.old }
    ensures counts { AsMany plain.old plain.new }
    ensures withdrawn { (s : Scene) (h : List Entry) → Stands plain.old (machine_of s) h → pass < passes_of s → 0 < (held_of (part_of h pass) urb.0).rejects
        → Stands plain.new (machine_of s) (h ++ plain_entry pass (event.Withdraw urb) ∷ []) }
{
    enter(plain, pass, Event::Withdraw { urb });
}

/// Sees the URB quiet.
pub fn see_quiet(plain: &mut Plain, pass: u32, urb: UrbId)
    requires { urb.0 < urbs_of plain.old }
    ensures counts { AsMany plain.old plain.new }
    ensures seen { (s : Scene) (h : List Entry) → Stands plain.old (machine_of s) h → pass < passes_of s → (state_of h urb.0).queued ≡ false → (state_of h urb.0).handlers ≡ 0
        → Stands plain.new (machine_of s) (h ++ plain_entry pass (event.Quiet urb) ∷ []) }
{
    enter(plain, pass, Event::Quiet { urb });
}

/// Sees the URB quiet, and claims what rests with it. Answers its number.
pub fn claim(plain: &mut Plain, pass: u32, urb: UrbId) -> Option<u64>
    requires { urb.0 < urbs_of plain.old }
    ensures counts { AsMany plain.old plain.new }
    ensures claimed { (s : Scene) (h : List Entry) → Stands plain.old (machine_of s) h → pass < passes_of s → (state_of h urb.0).queued ≡ false → (state_of h urb.0).handlers ≡ 0
        → holds_any (held_of (part_of h pass) urb.0) ≡ true → (result ≡ (state_of h urb.0).rest) × Stands plain.new (machine_of s) (h ++ claim_entries pass urb.0 result) }
{
    see_quiet(plain, pass, urb);
    number_in(enter(plain, pass, Event::Claim { urb }))
}

/// The hub flags the URB: the host is down.
pub fn flag_down(plain: &mut Plain, urb: UrbId)
    requires { urb.0 < urbs_of plain.old }
    ensures counts { AsMany plain.old plain.new }
    ensures flagged { (s : Scene) (h : List Entry) → Stands plain.old (machine_of s) h → (state_of h urb.0).flags.down ≡ false
        → Stands plain.new (machine_of s) (h ++ plain_entry HUB (event.Flag urb flag.Down) ∷ []) }
{
    enter(
        plain,
        HUB,
        Event::Flag {
            urb,
            flag: Flag::Down,
        },
    );
}

/// The hub takes that flag off again.
pub fn unflag_down(plain: &mut Plain, urb: UrbId)
    requires { urb.0 < urbs_of plain.old }
    ensures counts { AsMany plain.old plain.new }
    ensures unflagged { (s : Scene) (h : List Entry) → Stands plain.old (machine_of s) h → (state_of h urb.0).flags.down ≡ true
        → Stands plain.new (machine_of s) (h ++ plain_entry HUB (event.Unflag urb flag.Down) ∷ []) }
{
    enter(
        plain,
        HUB,
        Event::Unflag {
            urb,
            flag: Flag::Down,
        },
    );
}
