//! A host is made, raced on by two threads beside its server's, and closed.
ghost use Rattle.std.specs.Prelude.{◌≡◌, ◌<◌, ℕ, All, IfOk};
ghost use Rattle.usb_machine.specs.declared.layout.Shape.{Shape};
ghost use Rattle.usb_machine.specs.Parts.{part_of};
ghost use Rattle.usb_machine.specs.Plain.{IsLayout};
ghost use Rattle.usb_machine.specs.Replay.{machine_for};
ghost use Rattle.usb_machine.specs.History.{HasHome};
ghost use Rattle.usb_machine.specs.Legal.{IsLegal};
ghost use Rattle.usb_machine.specs.Laws.{submits, gives, ends, IsKept};
ghost use Rattle.usb_side_cases.specs.Rounds.{TakesAll, IsSubmit, Times, KilledOut};

use crate::opened::open_race;
use crate::race::race_and_serve;
use std::alloc::Global;
use std::sync::Wait;
use std::thread::Threads;
use usb_host_cases::close_two;
use usb_machine::{Layout, Opens, Parts};
use usb_turn::Ended;
use usb_turn_host::{Stock, TurnHost};
use usb_types::{Memory, UrbId};

/// The whole run, of whatever host: pass 2 submits the URB so many times, and pass 3 kills it as often and then poisons it,
/// while a third thread makes the controller's turns. All of it is one legal history. Each accepted submit has come back
/// once and was handled once, and nothing has stirred the URB since the poison saw it quiet.
pub fn race_in_threads<H: Opens + Sync, R: Threads + Wait + Sync>(
    rt: &R,
    alloc: Global,
    layout: Layout,
    urb: UrbId,
    times: u32,
) -> Result<H::Closed, Memory>
    requires layout { IsLayout layout }
    requires device { All (λ (shape : Shape). shape.device < 1) layout.shapes }
    requires urb { HasHome (machine_for layout 2) urb.0 }
    requires only { (u : ℕ) → HasHome (machine_for layout 2) u → u ≡ urb.0 }
    requires takes { TakesAll (machine_for layout 2) urb.0 }
    ensures legal { IfOk result (λ c. IsLegal (machine_for layout 2) (H.history c)) }
    ensures submitted { IfOk result (λ c. Times (IsSubmit 2 urb.0) times (part_of (H.history c) 2)) }
    ensures killed { IfOk result (λ c. KilledOut 3 urb.0 times (part_of (H.history c) 3)) }
    ensures back { IfOk result (λ c. (gives (H.history c) urb.0 ≡ submits (H.history c) urb.0) × (ends (H.history c) urb.0 ≡ submits (H.history c) urb.0)) }
    ensures kept { IfOk result (λ c. IsKept (H.history c) 3 urb.0) }
{
    let (opened, two) = open_race::<H, R>(rt, alloc, layout)?;
    let (parts, controller) = opened;
    let (a, b) = two;
    let Parts {
        host,
        server,
        hub,
        passes,
    } = parts;
    let (server, raced) = race_and_serve(
        rt, alloc, &host, server, controller, hub, a, b, urb, times,
    );
    let (hub, (a, b)) = raced;
    let Ok(closed) = close_two(host, server, hub, passes, a, b) else {
        return Err(Memory);
    };
    Ok(closed)
}

/// The same over the host that callers take by turns.
pub fn race_by_turns<R: Threads + Wait + Sync>(
    rt: &R,
    alloc: Global,
    layout: Layout,
    urb: UrbId,
    times: u32,
) -> Result<Ended<Stock>, Memory>
    requires layout { IsLayout layout }
    requires device { All (λ (shape : Shape). shape.device < 1) layout.shapes }
    requires urb { HasHome (machine_for layout 2) urb.0 }
    requires only { (u : ℕ) → HasHome (machine_for layout 2) u → u ≡ urb.0 }
    requires takes { TakesAll (machine_for layout 2) urb.0 }
    ensures legal { IfOk result (λ c. IsLegal (machine_for layout 2) c) }
    ensures submitted { IfOk result (λ c. Times (IsSubmit 2 urb.0) times (part_of c 2)) }
    ensures killed { IfOk result (λ c. KilledOut 3 urb.0 times (part_of c 3)) }
    ensures back { IfOk result (λ c. (gives c urb.0 ≡ submits c urb.0) × (ends c urb.0 ≡ submits c urb.0)) }
    ensures kept { IfOk result (λ c. IsKept c 3 urb.0) }
{
    race_in_threads::<TurnHost, R>(rt, alloc, layout, urb, times)
}
