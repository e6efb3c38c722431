//! Drives the URB machine by hand: of two URBs of one endpoint, A comes back with its data, and B is killed while it
//! waits. Each event is printed with its answer, and with the reason where the answer is a refusal.
#![tactic(auto)]

mod events;
mod words;

ghost use Rattle.std.specs.Prelude.{IfOk, IfSome, IfNone, List, Option, ◌++◌, ◌∷◌, []};
ghost use Rattle.usb_machine.specs.declared.entry.Entry.{Entry};
ghost use Rattle.usb_machine.specs.declared.transfer.Transfer.{Transfer};
ghost use Rattle.usb_machine.specs.History.{Machine, state_of};
ghost use Rattle.usb_machine.specs.Legal.{urb_of};
ghost use Rattle.usb_machine.specs.Plain.{IsLayout, IsNext, Fits, Stands};
ghost use Rattle.example_urb.specs.Reasons.{Explains};

use events::{EVENTS, who};
use std::alloc::{AllocError, Global};
use std::io;
use usb_machine::{Answer, EndKind, Event, Layout, Plain, Shape};
use usb_types::List;
use words::{Reason, Said, Told, reason_for};

/// Two URBs of one bulk endpoint.
fn layout(alloc: Global) -> Result<Layout, AllocError>
    ensures { IfOk result IsLayout }
{
    let bulk = Shape {
        device: 0,
        address: 0x81,
        kind: EndKind::Bulk,
        max: 64,
        interval: 0,
    };
    Ok(Layout {
        homes: List::of(vec![in alloc; Some(0u32), Some(0)]?),
        shapes: List::of(vec![in alloc; bulk]?),
    })
}

/// Makes the event where it may come next.
fn make(plain: &mut Plain, pass: u32, event: Event) -> Option<(Answer, Option<Reason>)>
    // The reason is true of the URB before the event.
    ensures reason { (g : Machine) (h : List Entry) → Stands plain.old g h → IfSome result (λ made. IfSome made.1 (λ why. Explains why (state_of h (urb_of event)))) }
    // The object stands for one entry more.
    ensures stands { (g : Machine) (h : List Entry) (carried : Option Transfer) → Stands plain.old g h → IsNext g h pass event carried → IfSome result (λ made. Stands plain.new g (h ++ record { pass = pass; event = event; answer = made.0; carried = carried } ∷ [])) }
    // It is made exactly where the rules let it come.
    ensures may { (g : Machine) (h : List Entry) → Stands plain.old g h → IfSome result (λ made. Fits plain.old g h pass event) }
    ensures may_not { (g : Machine) (h : List Entry) → Stands plain.old g h → IfNone result (Fits plain.old g h pass event → ⊥) }
{
    if !plain.is_next(pass, event) {
        return None;
    }
    let answer = plain.step(pass, event);
    Some((answer, reason_for(event, answer)))
}

fn main(rt: HostRuntime) -> io::Result<()> {
    let alloc = rt.alloc();
    let layout = layout(alloc)?;
    let mut plain = Plain::new(alloc, &layout, 2).map_err(|_| AllocError)?;
    for (pass, event) in EVENTS {
        let (who, said) = (who(*pass), Said(*event));
        match make(&mut plain, *pass, *event) {
            None => println!(rt; "{who}: {said}: may not come yet")?,
            Some((answer, None)) => println!(rt; "{who}: {said}: {}", Told(answer))?,
            Some((answer, Some(why))) => println!(rt; "{who}: {said}: {}, {why}", Told(answer))?,
        }
    }
    Ok(())
}
