//! A turn of the controller over a host.
ghost use Rattle.std.specs.Prelude.{ℕ, ◌≡◌, ◌<◌, ◌^◌, List, Option, Some, None, option_map, Contains};
ghost use Rattle.usb_serve.specs.Held.{Agrees};
ghost use Rattle.usb_side.specs.Side.{IsWholeSide, side_knows};
ghost use Rattle.usb_side.specs.Round.{TurnGave};
ghost use Rattle.usb_side.specs.Went.{TurnWent};
ghost use Rattle.usb_serve.specs.SoFar.{IsSoFar};
ghost use Rattle.usb_xfer.specs.Replies.{Reply};
ghost use Rattle.usb_side.specs.Handled.{Stepped};
ghost use Rattle.usb_machine.specs.History.{HasHome};

use crate::giving::give_back;
use crate::side::HostSide;
use std::sync::Wait;
use usb_machine::Serves;
use usb_serve::{Controller, Handler, Outcome, Turn};
use usb_types::Memory;
use usb_xfer::Device;

/// Makes one turn, which gives back one URB or none. What the devices replied is told for all that are the replies so far.
pub fn turn_once<H: Serves, R: Wait, D: Device>(
    side: &mut HostSide<'_, H, R>,
    controller: &mut Controller<D>,
) -> Turn<H::Given>
    requires room { H.Server.given side.old.server < 2 ^ 63 }
    requires agrees { Agrees (side_knows (H.machine side.old.host.now) (H.known (H.Server.own side.old.server)) (H.Server.given side.old.server) (IsWholeSide (H.machine side.old.host.now) (H.is_of side.old.host.now (H.Server.own side.old.server)) (H.known (H.Server.own side.old.server)) (H.Server.pending side.old.server) (H.Server.given side.old.server) (H.Server.has_room side.old.server)) (H.is_settled side.old.host.now side.old.server)) controller.old }
    ensures agrees { Agrees (side_knows (H.machine side.new.host.now) (H.known (H.Server.own side.new.server)) (H.Server.given side.new.server) (IsWholeSide (H.machine side.new.host.now) (H.is_of side.new.host.now (H.Server.own side.new.server)) (H.known (H.Server.own side.new.server)) (H.Server.pending side.new.server) (H.Server.given side.new.server) (H.Server.has_room side.new.server)) (H.is_settled side.new.host.now side.new.server)) controller.new }
    ensures same { side.new.host.now ≡ side.old.host.now }
    ensures gave { TurnGave (H.machine side.old.host.now) (H.known (H.Server.own side.old.server)) (H.known (H.Server.own side.new.server)) (option_map (λ y. H.Given.told y) result.given) }
    ensures went { (so : ℕ → List Reply) → IsSoFar (side_knows (H.machine side.old.host.now) (H.known (H.Server.own side.old.server)) (H.Server.given side.old.server) (IsWholeSide (H.machine side.old.host.now) (H.is_of side.old.host.now (H.Server.own side.old.server)) (H.known (H.Server.own side.old.server)) (H.Server.pending side.old.server) (H.Server.given side.old.server) (H.Server.has_room side.old.server)) (H.is_settled side.old.host.now side.old.server)) so controller.old.ends.items → TurnWent D.replies (H.machine side.old.host.now) (H.known (H.Server.own side.old.server)) (H.known (H.Server.own side.new.server)) controller.old.ends.items controller.new.ends.items controller.old.devices.items controller.new.devices.items so (λ now. IsSoFar (side_knows (H.machine side.new.host.now) (H.known (H.Server.own side.new.server)) (H.Server.given side.new.server) (IsWholeSide (H.machine side.new.host.now) (H.is_of side.new.host.now (H.Server.own side.new.server)) (H.known (H.Server.own side.new.server)) (H.Server.pending side.new.server) (H.Server.given side.new.server) (H.Server.has_room side.new.server)) (H.is_settled side.new.host.now side.new.server)) now controller.new.ends.items) (option_map (λ y. H.Given.told y) result.given) }
{
    controller.turn(side)
}

/// Makes one turn, and completes what came back.
pub fn one_step<H: Serves, R: Wait, D: Device, K: Handler>(
    side: &mut HostSide<'_, H, R>,
    controller: &mut Controller<D>,
    handler: &mut K,
) -> Option<Result<Outcome, Memory>>
    requires room { H.Server.given side.old.server < 2 ^ 63 }
    requires agrees { Agrees (side_knows (H.machine side.old.host.now) (H.known (H.Server.own side.old.server)) (H.Server.given side.old.server) (IsWholeSide (H.machine side.old.host.now) (H.is_of side.old.host.now (H.Server.own side.old.server)) (H.known (H.Server.own side.old.server)) (H.Server.pending side.old.server) (H.Server.given side.old.server) (H.Server.has_room side.old.server)) (H.is_settled side.old.host.now side.old.server)) controller.old }
    requires homes { (u : ℕ) → Contains (K.asks_with handler.old) u → HasHome (H.machine side.old.host.now) u }
    ensures agrees { Agrees (side_knows (H.machine side.new.host.now) (H.known (H.Server.own side.new.server)) (H.Server.given side.new.server) (IsWholeSide (H.machine side.new.host.now) (H.is_of side.new.host.now (H.Server.own side.new.server)) (H.known (H.Server.own side.new.server)) (H.Server.pending side.new.server) (H.Server.given side.new.server) (H.Server.has_room side.new.server)) (H.is_settled side.new.host.now side.new.server)) controller.new }
    ensures same { side.new.host.now ≡ side.old.host.now }
    ensures urbs { K.asks_with handler.new ≡ K.asks_with handler.old }
    ensures stepped { Stepped (H.machine side.old.host.now) K.completes K.asks K.unasks (H.known (H.Server.own side.old.server)) (H.known (H.Server.own side.new.server)) handler.old result handler.new }
{
    let Turn {
        given,
        changed: _changed,
    } = turn_once(side, controller);
    match given {
        None => None,
        Some(given) => Some(give_back(side.rt, side.host, &mut side.server, given, handler)),
    }
}
