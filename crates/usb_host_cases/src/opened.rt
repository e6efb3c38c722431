//! A host of two passes is made, used in two threads and closed.
ghost use Rattle.std.specs.Prelude.{◌≡◌, ◌<◌, ◌∷◌, [], ℕ, IfOk, Option};
ghost use Rattle.usb_types.specs.declared.errno.Code.{Code};
ghost use Rattle.usb_machine.specs.declared.entry.TheConstants.{SERVER, HUB};
ghost use Rattle.usb_machine.specs.Plain.{IsLayout};
ghost use Rattle.usb_machine.specs.Replay.{machine_for};
ghost use Rattle.usb_machine.specs.Calls.{kill_entries, poison_entries};
ghost use Rattle.usb_machine.specs.History.{HasHome};
ghost use Rattle.usb_machine.specs.Legal.{IsLegal};
ghost use Rattle.usb_machine.specs.Parts.{part_of};
ghost use Rattle.usb_machine.specs.HostCalls.{IsUrb};
ghost use Rattle.usb_machine.specs.Tokens.{unused};

use crate::closes::used_and_closed;
use std::alloc::Global;
use std::sync::Wait;
use std::thread::Threads;
use usb_machine::{Layout, Opens, Parts};
use usb_types::{Memory, UrbId};

/// A host and its two passes, beside the vector that they stood in.
pub(crate) fn open_two<H: Opens, R: Wait>(
    rt: &R,
    alloc: Global,
    layout: Layout,
) -> Result<(Parts<H, H::Server, H::Hub, H::Pass>, (H::Pass, H::Pass)), Memory>
    requires layout { IsLayout layout }
    ensures machine { IfOk result (λ t. H.machine t.0.host ≡ machine_for layout 2) }
    ensures none { IfOk result (λ t. t.0.passes.items ≡ []) }
    ensures here { IfOk result (λ t. H.is_of t.0.host (H.Server.own t.0.server) × H.is_of t.0.host (H.Hub.own t.0.hub) × H.is_of t.0.host t.1.0 × H.is_of t.0.host t.1.1) }
    ensures tokens { IfOk result (λ t. (H.known (H.Server.own t.0.server) ≡ unused SERVER) × (H.known (H.Hub.own t.0.hub) ≡ unused HUB)) }
    ensures passes { IfOk result (λ t. (H.known t.1.0 ≡ unused 2) × (H.known t.1.1 ≡ unused 3)) }
{
    let mut parts = H::new(rt, alloc, layout, 2)?;
    let Some(b) = parts.passes.pop() else {
        unreachable!()
    };
    let Some(a) = parts.passes.pop() else {
        unreachable!()
    };
    Ok((parts, (a, b)))
}

/// The whole run: of a host over this layout, whatever host it is, the history is legal, and the parts of passes 2 and 3
/// are a poison and a kill.
pub fn opened_and_closed<H: Opens + Sync, R: Threads + Wait + Sync>(
    rt: &R,
    alloc: Global,
    layout: Layout,
    urb: UrbId,
) -> Result<H::Closed, Memory>
    requires layout { IsLayout layout }
    requires urb { IsUrb (machine_for layout 2) urb.0 }
    requires only { (u : ℕ) → HasHome (machine_for layout 2) u → u ≡ urb.0 }
    ensures legal { IfOk result (λ c. IsLegal (machine_for layout 2) (H.history c)) }
    ensures poison { IfOk result (λ c. (m : Code) × (x : Option ℕ) × part_of (H.history c) 2 ≡ poison_entries 2 urb.0 m x) }
    ensures kill { IfOk result (λ c. (m : Code) × (x : Option ℕ) × part_of (H.history c) 3 ≡ kill_entries 3 urb.0 m x) }
{
    let (parts, two) = open_two::<H, R>(rt, alloc, layout)?;
    let (a, b) = two;
    let Parts {
        host,
        server,
        hub,
        passes,
    } = parts;
    let Ok(closed) = used_and_closed(rt, host, server, hub, passes, a, b, urb) else {
        return Err(Memory);
    };
    Ok(closed)
}
