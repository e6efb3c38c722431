//! A host is made with a seat for each thread, and closed when all seats are back.
ghost use Rattle.std.specs.Prelude.{◌≡◌, ◌<◌, ◌≤◌, ◌+◌, ◌∷◌, Option, IfSome, IfOk, All, length, map};
ghost use Rattle.usb_machine.specs.declared.entry.TheConstants.{SERVER, HUB};
ghost use Rattle.usb_machine.specs.Fresh.{Begins};
ghost use Rattle.usb_machine.specs.Parts.{part_of};
ghost use Rattle.usb_machine.specs.Plain.{IsLayout};
ghost use Rattle.usb_machine.specs.Replay.{machine_for};
ghost use Rattle.usb_machine.specs.Tokens.{IsWholeServer, OneKeeps, IsClosed, unused, unused_from};
ghost use Rattle.usb_seat.specs.Dealing.{in_order, hubs, AreNumbered};
ghost use Rattle.usb_seat.specs.Sitting.{known_in, IsSeat};

use crate::dealing::{Gathered, Seats, deal, gather};
use std::alloc::Global;
use std::sync::Wait;
use usb_machine::{Layout, Opens, Parts};
use usb_types::Memory;

/// A host, its server's token and the seats of its threads.
#[derive(Drop)]
pub struct Opened<H, S, P, U> {
    pub host: H,
    pub server: S,
    pub seats: Seats<P, U>,
}

/// A host with nothing in it, and a seat for each of so many threads.
pub fn open<H: Opens, R: Wait>(
    rt: &R,
    alloc: Global,
    layout: Layout,
    threads: u32,
    hub_thread: Option<u32>,
) -> Result<Opened<H, H::Server, H::Pass, H::Hub>, Memory>
    requires threads { (0 < threads) × (threads ≤ 64) }
    requires layout { IsLayout layout }
    requires hub { IfSome hub_thread (λ i. i < threads) }
    ensures machine { IfOk result (λ o. H.machine o.host ≡ machine_for layout threads) }
    ensures server { IfOk result (λ o. H.is_of o.host (H.Server.own o.server) × (H.known (H.Server.own o.server) ≡ unused SERVER) × IsWholeServer (H.machine o.host) (unused SERVER) (H.Server.pending o.server) (H.Server.given o.server) (H.Server.has_room o.server)) }
    ensures seats { IfOk result (λ o. All (IsSeat (H.machine o.host) (H.is_of o.host) H.known H.Hub.own H.Hub.flags H.Hub.has_room) o.seats.threads.items × IsSeat (H.machine o.host) (H.is_of o.host) H.known H.Hub.own H.Hub.flags H.Hub.has_room o.seats.spare) }
    ensures numbers { IfOk result (λ o. AreNumbered hub_thread (map (known_in H.known H.Hub.own) o.seats.threads.items) (known_in H.known H.Hub.own o.seats.spare)) }
    ensures new { IfOk result (λ o. (map (known_in H.known H.Hub.own) o.seats.threads.items ≡ in_order hub_thread (unused_from 2 threads) (unused HUB)) × (known_in H.known H.Hub.own o.seats.spare ≡ hubs hub_thread (unused_from 2 threads) (unused HUB))) }
{
    let Parts {
        host,
        server,
        hub,
        passes,
    } = H::new(rt, alloc, layout, threads)?;
    let seats = deal(alloc, hub, passes, hub_thread)?;
    Ok(Opened {
        host,
        server,
        seats,
    })
}

/// Ends the host, with the server's token and all seats in hand, of which one keeps each URB quiet.
pub fn close<H: Opens>(
    alloc: Global,
    host: H,
    server: H::Server,
    seats: Seats<H::Pass, H::Hub>,
    hub_thread: Option<u32>,
) -> Result<H::Closed, Memory>
    requires server { H.is_of host (H.Server.own server) × ((H.known (H.Server.own server)).number ≡ SERVER) }
    requires seats { All (IsSeat (H.machine host) (H.is_of host) H.known H.Hub.own H.Hub.flags H.Hub.has_room) seats.threads.items × IsSeat (H.machine host) (H.is_of host) H.known H.Hub.own H.Hub.flags H.Hub.has_room seats.spare }
    requires hub { IfSome hub_thread (λ i. i < length seats.threads.items) }
    requires numbers { AreNumbered hub_thread (map (known_in H.known H.Hub.own) seats.threads.items) (known_in H.known H.Hub.own seats.spare) }
    requires all { (H.machine host).passes ≡ 2 + length seats.threads.items }
    requires quiet { OneKeeps (H.machine host) (map (known_in H.known H.Hub.own) seats.threads.items) }
    ensures closed { IfOk result (λ c. IsClosed (H.machine host) (H.history c) (H.known (H.Server.own server) ∷ hubs hub_thread (map (known_in H.known H.Hub.own) seats.threads.items) (known_in H.known H.Hub.own seats.spare) ∷ in_order hub_thread (map (known_in H.known H.Hub.own) seats.threads.items) (known_in H.known H.Hub.own seats.spare))) }
    ensures threads { IfOk result (λ c. All (λ p. Begins (H.history c) p.seen × (part_of (H.history c) p.number ≡ p.mine)) (map (known_in H.known H.Hub.own) seats.threads.items)) }
{
    let Gathered { hub, passes } = gather(alloc, seats, hub_thread)?;
    Ok(host.close(server, hub, passes))
}
