//! What becomes of a transfer that came back: what its driver says, and without one it goes again where it may.
ghost use Rattle.std.specs.Prelude.{◌≡◌, true, false, nat_lt, Some, IfOk, OnErr};
ghost use Rattle.usb_machine.specs.Shapes.{HasWindow};
ghost use Rattle.usb_serve.specs.Handlers.{FitsAgain};
ghost use Rattle.usb_class.specs.Handlers.{CanNote, Noted, Decides};

use crate::class_core::Core;
use crate::handlers::HandledUrb;
use crate::owner::Owner;
use usb_machine::Transfer;
use usb_types::{Action, Code, Memory};

// Whether the core of an URB's driver is there, and has an URB for its purpose. Where no driver has the URB, none is needed.
fn can_note(cores: &Vec<Core>, owner: Option<Owner>) -> bool
    ensures yes { result ≡ true → CanNote cores.now.items owner }
    ensures no { result ≡ false → CanNote cores.now.items owner → ⊥ }
{
    match owner {
        Some(owner) => match cores.get(owner.place as usize) {
            Some(core) => core.has_for(owner.role),
            None => false,
        },
        None => true,
    }
}

// What becomes of a transfer that came back with this status: what the core of its driver says, and without one it goes on with
// the same window where it may. An `Err` changes no core.
fn note(
    cores: &mut Vec<Core>,
    row: HandledUrb,
    status: Code,
    t: &Transfer,
) -> Result<Action, Memory>
    requires core { CanNote cores.old.items row.owner }
    requires window { HasWindow t.now }
    ensures noted { IfOk result (λ action. Noted cores.old.items cores.new.items row.owner (nat_lt 0 row.again) status t.now action) }
    ensures fits { IfOk result (FitsAgain t.now) }
    ensures memory { OnErr result (cores.new.items ≡ cores.old.items) }
{
    match row.owner {
        Some(owner) => cores[owner.place as usize].complete(owner.role, status, t),
        None if row.again > 0 => Ok(Action::Again {
            from: t.from,
            len: t.len,
        }),
        None => Ok(Action::Rest),
    }
}

/// What becomes of a transfer that came back, also where no core can take note of it: then it rests. An `Err` changes no core.
pub fn decide(
    cores: &mut Vec<Core>,
    row: HandledUrb,
    status: Code,
    t: &Transfer,
) -> Result<Action, Memory>
    requires { HasWindow t.now }
    ensures decides { IfOk result (λ action. Decides cores.old.items cores.new.items row status t.now action) }
    ensures fits { IfOk result (FitsAgain t.now) }
    ensures memory { OnErr result (cores.new.items ≡ cores.old.items) }
{
    if can_note(cores, row.owner) {
        note(cores, row, status, t)
    } else {
        Ok(Action::Rest)
    }
}
