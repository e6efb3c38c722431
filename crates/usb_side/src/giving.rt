//! A giveback of a host is completed.
ghost use Rattle.std.specs.Prelude.{ℕ, ◌≡◌, ◌<◌, Some, Contains};
ghost use Rattle.usb_machine.specs.declared.transfer.Transfer.{Transfer};
ghost use Rattle.usb_machine.specs.Shapes.{HasWindow};
ghost use Rattle.usb_machine.specs.History.{HasHome, state_of};
ghost use Rattle.usb_machine.specs.Tokens.{IsWholeServer};
ghost use Rattle.usb_side.specs.Side.{IsWholeSide};
ghost use Rattle.usb_side.specs.Handled.{Came};

use crate::handlers::ServerSide;
use std::sync::Wait;
use usb_machine::Serves;
use usb_serve::{Handler, Outcome, complete};
use usb_types::Memory;

/// Completes a giveback on the side of the server that was lent.
fn complete_here<H: Serves, R: Wait, K: Handler>(
    side: &mut ServerSide<'_, H, R>,
    given: H::Given,
    handler: &mut K,
) -> Result<Outcome, Memory>
    requires whole { IsWholeSide (H.machine side.old.host.now) (H.is_of side.old.host.now (H.Server.own side.old.server.now)) (H.known (H.Server.own side.old.server.now)) (H.Server.pending side.old.server.now) (H.Server.given side.old.server.now) (H.Server.has_room side.old.server.now) }
    requires runs { 0 < (state_of (H.known (H.Server.own side.old.server.now)).seen (H.Given.told given).urb).handlers }
    requires home { HasHome (H.machine side.old.host.now) (H.Given.told given).urb }
    requires homes { (u : ℕ) → Contains (K.asks_with handler.old) u → HasHome (H.machine side.old.host.now) u }
    requires transfer { (t : Transfer) × ((H.Given.told given).transfer ≡ Some t) × HasWindow t }
    ensures whole { IsWholeSide (H.machine side.new.host.now) (H.is_of side.new.host.now (H.Server.own side.new.server.now)) (H.known (H.Server.own side.new.server.now)) (H.Server.pending side.new.server.now) (H.Server.given side.new.server.now) (H.Server.has_room side.new.server.now) }
    ensures same { side.new.host.now ≡ side.old.host.now }
    ensures same_reference { side.new.server.ghost_name ≡ side.old.server.ghost_name }
    ensures urbs { K.asks_with handler.new ≡ K.asks_with handler.old }
    ensures came { (t : Transfer) → (H.Given.told given).transfer ≡ Some t → Came (H.machine side.old.host.now) K.completes K.asks K.unasks (H.known (H.Server.own side.old.server.now)) (H.known (H.Server.own side.new.server.now)) (record { 0 = (H.Given.told given).urb }) (H.Given.told given).code t handler.old result handler.new }
{
    complete(side, given, handler)
}

/// Completes a giveback: the handler says what becomes of the transfer, which rests or is submitted again, and the driver
/// may ask a question. Then the handler ends, also where it lacks memory.
pub fn give_back<H: Serves, R: Wait, K: Handler>(
    rt: &R,
    host: &H,
    server: &mut H::Server,
    given: H::Given,
    handler: &mut K,
) -> Result<Outcome, Memory>
    requires here { H.is_of host.now (H.Server.own server.old) }
    requires whole { IsWholeServer (H.machine host.now) (H.known (H.Server.own server.old)) (H.Server.pending server.old) (H.Server.given server.old) (H.Server.has_room server.old) }
    requires runs { 0 < (state_of (H.known (H.Server.own server.old)).seen (H.Given.told given).urb).handlers }
    requires home { HasHome (H.machine host.now) (H.Given.told given).urb }
    requires homes { (u : ℕ) → Contains (K.asks_with handler.old) u → HasHome (H.machine host.now) u }
    requires transfer { (t : Transfer) × ((H.Given.told given).transfer ≡ Some t) × HasWindow t }
    ensures here { H.is_of host.now (H.Server.own server.new) }
    ensures whole { IsWholeServer (H.machine host.now) (H.known (H.Server.own server.new)) (H.Server.pending server.new) (H.Server.given server.new) (H.Server.has_room server.new) }
    ensures urbs { K.asks_with handler.new ≡ K.asks_with handler.old }
    ensures came { (t : Transfer) → (H.Given.told given).transfer ≡ Some t → Came (H.machine host.now) K.completes K.asks K.unasks (H.known (H.Server.own server.old)) (H.known (H.Server.own server.new)) (record { 0 = (H.Given.told given).urb }) (H.Given.told given).code t handler.old result handler.new }
{
    let mut side = ServerSide { rt, host, server };
    complete_here(&mut side, given, handler)
}
