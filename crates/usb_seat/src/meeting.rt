//! Seats that learn from one another.
ghost use Rattle.usb_machine.specs.Fresh.{Looked, Begins};
ghost use Rattle.usb_machine.specs.Tokens.{IsWholeHub};
ghost use Rattle.usb_seat.specs.Sitting.{known_in, IsSeat};

use crate::seats::Seat;
use std::sync::Wait;
use usb_machine::{Meets, Token};

fn hub_meets<H: Meets, R: Wait>(rt: &R, host: &H, hub: &mut H::Hub, other: &mut H::Pass)
    requires here { H.is_of host.now (H.Hub.own hub.old) × H.is_of host.now other.old }
    requires whole { IsWholeHub (H.machine host.now) (H.known (H.Hub.own hub.old)) (H.Hub.flags hub.old) (H.Hub.has_room hub.old) }
    ensures here { H.is_of host.now (H.Hub.own hub.new) × H.is_of host.now other.new }
    ensures whole { IsWholeHub (H.machine host.now) (H.known (H.Hub.own hub.new)) (H.Hub.flags hub.new) (H.Hub.has_room hub.new) }
    ensures pass { Looked (H.machine host.now) (H.known (H.Hub.own hub.old)) (H.known (H.Hub.own hub.new)) }
    ensures other { Looked (H.machine host.now) (H.known other.old) (H.known other.new) }
    ensures met { Begins (H.known (H.Hub.own hub.new)).seen (H.known other.old).seen }
{
    host.meet(rt, hub.pass(), other)
}

fn meets_hub<H: Meets, R: Wait>(rt: &R, host: &H, pass: &mut H::Pass, hub: &mut H::Hub)
    requires here { H.is_of host.now pass.old × H.is_of host.now (H.Hub.own hub.old) }
    requires whole { IsWholeHub (H.machine host.now) (H.known (H.Hub.own hub.old)) (H.Hub.flags hub.old) (H.Hub.has_room hub.old) }
    ensures here { H.is_of host.now pass.new × H.is_of host.now (H.Hub.own hub.new) }
    ensures whole { IsWholeHub (H.machine host.now) (H.known (H.Hub.own hub.new)) (H.Hub.flags hub.new) (H.Hub.has_room hub.new) }
    ensures pass { Looked (H.machine host.now) (H.known pass.old) (H.known pass.new) }
    ensures other { Looked (H.machine host.now) (H.known (H.Hub.own hub.old)) (H.known (H.Hub.own hub.new)) }
    ensures met { Begins (H.known pass.new).seen (H.known (H.Hub.own hub.old)).seen }
{
    host.meet(rt, pass, hub.pass())
}

fn hub_meets_hub<H: Meets, R: Wait>(rt: &R, host: &H, hub: &mut H::Hub, other: &mut H::Hub)
    requires here { H.is_of host.now (H.Hub.own hub.old) × H.is_of host.now (H.Hub.own other.old) }
    requires whole { IsWholeHub (H.machine host.now) (H.known (H.Hub.own hub.old)) (H.Hub.flags hub.old) (H.Hub.has_room hub.old) }
    requires whole_other { IsWholeHub (H.machine host.now) (H.known (H.Hub.own other.old)) (H.Hub.flags other.old) (H.Hub.has_room other.old) }
    ensures here { H.is_of host.now (H.Hub.own hub.new) × H.is_of host.now (H.Hub.own other.new) }
    ensures whole { IsWholeHub (H.machine host.now) (H.known (H.Hub.own hub.new)) (H.Hub.flags hub.new) (H.Hub.has_room hub.new) }
    ensures whole_other { IsWholeHub (H.machine host.now) (H.known (H.Hub.own other.new)) (H.Hub.flags other.new) (H.Hub.has_room other.new) }
    ensures pass { Looked (H.machine host.now) (H.known (H.Hub.own hub.old)) (H.known (H.Hub.own hub.new)) }
    ensures other { Looked (H.machine host.now) (H.known (H.Hub.own other.old)) (H.known (H.Hub.own other.new)) }
    ensures met { Begins (H.known (H.Hub.own hub.new)).seen (H.known (H.Hub.own other.old)).seen }
{
    hub_meets(rt, host, hub, other.pass())
}

/// Afterwards a pass that is in no seat has seen all that it and the seat had seen.
pub fn meet_seat<H: Meets, R: Wait>(
    rt: &R,
    host: &H,
    pass: &mut H::Pass,
    other: &mut Seat<H::Pass, H::Hub>,
)
    requires here { H.is_of host.now pass.old }
    requires there { IsSeat (H.machine host.now) (H.is_of host.now) H.known H.Hub.own H.Hub.flags H.Hub.has_room other.old }
    ensures here { H.is_of host.now pass.new }
    ensures there { IsSeat (H.machine host.now) (H.is_of host.now) H.known H.Hub.own H.Hub.flags H.Hub.has_room other.new }
    ensures pass { Looked (H.machine host.now) (H.known pass.old) (H.known pass.new) }
    ensures other { Looked (H.machine host.now) (known_in H.known H.Hub.own other.old) (known_in H.known H.Hub.own other.new) }
    ensures met { Begins (H.known pass.new).seen (known_in H.known H.Hub.own other.old).seen }
{
    match other {
        Seat::Own(other) => host.meet(rt, pass, other),
        Seat::Hub(other) => meets_hub(rt, host, pass, other),
    }
}

/// Afterwards a seat has seen all that both had seen.
pub fn meet<H: Meets, R: Wait>(
    rt: &R,
    host: &H,
    seat: &mut Seat<H::Pass, H::Hub>,
    other: &mut Seat<H::Pass, H::Hub>,
)
    requires here { IsSeat (H.machine host.now) (H.is_of host.now) H.known H.Hub.own H.Hub.flags H.Hub.has_room seat.old }
    requires there { IsSeat (H.machine host.now) (H.is_of host.now) H.known H.Hub.own H.Hub.flags H.Hub.has_room other.old }
    ensures here { IsSeat (H.machine host.now) (H.is_of host.now) H.known H.Hub.own H.Hub.flags H.Hub.has_room seat.new }
    ensures there { IsSeat (H.machine host.now) (H.is_of host.now) H.known H.Hub.own H.Hub.flags H.Hub.has_room other.new }
    ensures pass { Looked (H.machine host.now) (known_in H.known H.Hub.own seat.old) (known_in H.known H.Hub.own seat.new) }
    ensures other { Looked (H.machine host.now) (known_in H.known H.Hub.own other.old) (known_in H.known H.Hub.own other.new) }
    ensures met { Begins (known_in H.known H.Hub.own seat.new).seen (known_in H.known H.Hub.own other.old).seen }
{
    match seat {
        Seat::Own(pass) => match other {
            Seat::Own(other) => host.meet(rt, pass, other),
            Seat::Hub(other) => meets_hub(rt, host, pass, other),
        },
        Seat::Hub(hub) => match other {
            Seat::Own(other) => hub_meets(rt, host, hub, other),
            Seat::Hub(other) => hub_meets_hub(rt, host, hub, other),
        },
    }
}
