//! How the passes and the hub's token of a new host become seats, and what they were again.
ghost use Rattle.std.specs.Prelude.{◌≡◌, ◌<◌, Option, IfSome, IfOk, All, length, map};
ghost use Rattle.usb_seat.specs.declared.seats.Seat.TheVariants.{Own, Hub};
ghost use Rattle.usb_seat.specs.Dealing.{in_order, hubs};
ghost use Rattle.usb_seat.specs.Sitting.{IsOwn, IsHubs};

use crate::seats::Seat;
use std::alloc::Global;
use std::mem::swap;
use usb_types::Memory;

/// The seats of the threads, in order, and the one that no thread has.
#[derive(Drop)]
pub struct Seats<P, U> {
    pub threads: Vec<Seat<P, U>>,
    pub spare: Seat<P, U>,
}

/// The hub's token, and the passes from number 2 on, in order.
#[derive(Drop)]
pub struct Gathered<P, U> {
    pub hub: U,
    pub passes: Vec<P>,
}

/// The hub's thread and the spare one change seats.
fn change_seats<P: Drop, U: Drop>(
    threads: &mut [Seat<P, U>],
    spare: &mut Seat<P, U>,
    hub_thread: Option<u32>,
)
    requires { IfSome hub_thread (λ i. i < length threads.old) }
    ensures threads { threads.new ≡ in_order hub_thread threads.old spare.old }
    ensures spare { spare.new ≡ hubs hub_thread threads.old spare.old }
{
    if let Some(i) = hub_thread {
        swap(&mut threads[i as usize], spare);
    }
}

/// A seat for each pass.
fn own_seats<P: Drop, U: Drop>(alloc: Global, passes: Vec<P>) -> Result<Vec<Seat<P, U>>, Memory>
    ensures { IfOk result (λ seats. seats.items ≡ map Own passes.items) }
{
    let mut seats = Vec::new(alloc);
    for pass in passes {
        seats.push(Seat::Own(pass))?;
    }
    Ok(seats)
}

/// Deals seats: each thread has the pass of its place, but the thread that is the hub has the hub's token, and its pass
/// is left over.
pub fn deal<P: Drop, U: Drop>(
    alloc: Global,
    hub: U,
    passes: Vec<P>,
    hub_thread: Option<u32>,
) -> Result<Seats<P, U>, Memory>
    requires { IfSome hub_thread (λ i. i < length passes.items) }
    ensures threads { IfOk result (λ seats. seats.threads.items ≡ in_order hub_thread (map Own passes.items) (Hub hub)) }
    ensures spare { IfOk result (λ seats. seats.spare ≡ hubs hub_thread (map Own passes.items) (Hub hub)) }
{
    let mut threads = own_seats(alloc, passes)?;
    let mut spare = Seat::Hub(hub);
    change_seats(&mut threads, &mut spare, hub_thread);
    Ok(Seats { threads, spare })
}

/// The passes of these seats.
fn passes_of<P: Drop, U: Drop>(alloc: Global, seats: Vec<Seat<P, U>>) -> Result<Vec<P>, Memory>
    requires { All IsOwn seats.items }
    ensures { IfOk result (λ passes. map Own passes.items ≡ seats.items) }
{
    let mut passes = Vec::new(alloc);
    for seat in seats {
        match seat {
            Seat::Own(pass) => passes.push(pass)?,
            Seat::Hub(_hub) => unreachable!(),
        }
    }
    Ok(passes)
}

/// The hub's token, which this seat has.
fn token_of<P: Drop, U: Drop>(seat: Seat<P, U>) -> U
    requires { IsHubs seat }
    ensures { Hub result ≡ seat }
{
    match seat {
        Seat::Hub(hub) => hub,
        Seat::Own(_pass) => unreachable!(),
    }
}

/// Gathers what was dealt: the passes in the order of their numbers, and the hub's token.
pub fn gather<P: Drop, U: Drop>(
    alloc: Global,
    seats: Seats<P, U>,
    hub_thread: Option<u32>,
) -> Result<Gathered<P, U>, Memory>
    requires thread { IfSome hub_thread (λ i. i < length seats.threads.items) }
    requires own { All IsOwn (in_order hub_thread seats.threads.items seats.spare) }
    requires hub { IsHubs (hubs hub_thread seats.threads.items seats.spare) }
    ensures passes { IfOk result (λ g. map Own g.passes.items ≡ in_order hub_thread seats.threads.items seats.spare) }
    ensures hub { IfOk result (λ g. Hub g.hub ≡ hubs hub_thread seats.threads.items seats.spare) }
{
    let Seats {
        mut threads,
        mut spare,
    } = seats;
    change_seats(&mut threads, &mut spare, hub_thread);
    let passes = passes_of(alloc, threads)?;
    Ok(Gathered {
        hub: token_of(spare),
        passes,
    })
}
