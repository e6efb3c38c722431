//! What a wake, a call without an entry and a completion leave of what the next turn asks.
ghost use Rattle.std.specs.Prelude.{ℕ, List, Result, ◌≡◌, map};
ghost use Rattle.usb_types.specs.declared.urb.UrbId.{UrbId};
ghost use Rattle.usb_types.specs.declared.errno.Code.{Code};
ghost use Rattle.usb_types.specs.declared.outside.Memory.{Memory};
ghost use Rattle.usb_machine.specs.declared.transfer.Transfer.{Transfer};
ghost use Rattle.usb_machine.specs.Tokens.{IsWholeServer};
ghost use Rattle.usb_xfer.specs.Replies.{Reply};
ghost use Rattle.usb_serve.specs.declared.controller.Controller.{Controller};
ghost use Rattle.usb_serve.specs.declared.handler.Outcome.{Outcome};
ghost use Rattle.usb_serve.specs.Held.{Agrees, awake};
ghost use Rattle.usb_serve.specs.SoFar.{IsSoFar};
ghost use Rattle.usb_side.specs.Side.{IsWholeSide, side_knows};
ghost use Rattle.usb_side.specs.Handled.{Came};
ghost use Rattle.usb_machine.specs.Fresh.{Looked};
ghost use Rattle.usb_side.specs.Went.{first_sent};

use usb_machine::Serves;
use usb_serve::Handler;
use usb_xfer::Device;

/// A wake leaves the replies so far, and the transfers that were sent with the first URBs.
pub fn a_wake_keeps_the_replies<H: Serves, D: Device>()
    ensures { (h : H) (s : H.Server) (so : ℕ → List Reply) (c d : Controller D) → d.ends.items ≡ map awake c.ends.items → IsSoFar (side_knows (H.machine h) (H.known (H.Server.own s)) (H.Server.given s) (IsWholeSide (H.machine h) (H.is_of h (H.Server.own s)) (H.known (H.Server.own s)) (H.Server.pending s) (H.Server.given s) (H.Server.has_room s)) (H.is_settled h s)) so c.ends.items
        → IsSoFar (side_knows (H.machine h) (H.known (H.Server.own s)) (H.Server.given s) (IsWholeSide (H.machine h) (H.is_of h (H.Server.own s)) (H.known (H.Server.own s)) (H.Server.pending s) (H.Server.given s) (H.Server.has_room s)) (H.is_settled h s)) so d.ends.items × ((e : ℕ) → first_sent (H.known (H.Server.own s)).seen d.ends.items e ≡ first_sent (H.known (H.Server.own s)).seen c.ends.items e) }
{}

/// So does a call in which the server's pass makes no entry, as a meeting of passes. The controller still agrees.
pub fn a_look_keeps_the_replies<H: Serves, D: Device>()
    ensures { (h : H) (s t : H.Server) (so : ℕ → List Reply) (c : Controller D) → Looked (H.machine h) (H.known (H.Server.own s)) (H.known (H.Server.own t)) → IsWholeSide (H.machine h) (H.is_of h (H.Server.own t)) (H.known (H.Server.own t)) (H.Server.pending t) (H.Server.given t) (H.Server.has_room t)
        → Agrees (side_knows (H.machine h) (H.known (H.Server.own s)) (H.Server.given s) (IsWholeSide (H.machine h) (H.is_of h (H.Server.own s)) (H.known (H.Server.own s)) (H.Server.pending s) (H.Server.given s) (H.Server.has_room s)) (H.is_settled h s)) c → IsSoFar (side_knows (H.machine h) (H.known (H.Server.own s)) (H.Server.given s) (IsWholeSide (H.machine h) (H.is_of h (H.Server.own s)) (H.known (H.Server.own s)) (H.Server.pending s) (H.Server.given s) (H.Server.has_room s)) (H.is_settled h s)) so c.ends.items
        → Agrees (side_knows (H.machine h) (H.known (H.Server.own t)) (H.Server.given t) (IsWholeSide (H.machine h) (H.is_of h (H.Server.own t)) (H.known (H.Server.own t)) (H.Server.pending t) (H.Server.given t) (H.Server.has_room t)) (H.is_settled h t)) c × IsSoFar (side_knows (H.machine h) (H.known (H.Server.own t)) (H.Server.given t) (IsWholeSide (H.machine h) (H.is_of h (H.Server.own t)) (H.known (H.Server.own t)) (H.Server.pending t) (H.Server.given t) (H.Server.has_room t)) (H.is_settled h t)) so c.ends.items × ((e : ℕ) → first_sent (H.known (H.Server.own t)).seen c.ends.items e ≡ first_sent (H.known (H.Server.own s)).seen c.ends.items e) }
{}

/// A completion leaves the server and a controller in agreement, also where the handler lacked memory.
pub fn a_completion_keeps_the_agreement<H: Serves, D: Device, K: Handler>()
    ensures { (x : H) (s z : H.Server) (u : UrbId) (code : Code) (t : Transfer) (h k : K) (r : Result Outcome Memory) (c : Controller D)
        → Came (H.machine x) K.completes K.asks K.unasks (H.known (H.Server.own s)) (H.known (H.Server.own z)) u code t h r k
        → H.is_of x (H.Server.own z) → IsWholeServer (H.machine x) (H.known (H.Server.own z)) (H.Server.pending z) (H.Server.given z) (H.Server.has_room z)
        → Agrees (side_knows (H.machine x) (H.known (H.Server.own s)) (H.Server.given s) (IsWholeSide (H.machine x) (H.is_of x (H.Server.own s)) (H.known (H.Server.own s)) (H.Server.pending s) (H.Server.given s) (H.Server.has_room s)) (H.is_settled x s)) c
        → Agrees (side_knows (H.machine x) (H.known (H.Server.own z)) (H.Server.given z) (IsWholeSide (H.machine x) (H.is_of x (H.Server.own z)) (H.known (H.Server.own z)) (H.Server.pending z) (H.Server.given z) (H.Server.has_room z)) (H.is_settled x z)) c }
{}

/// And the replies so far stay, with the transfers that were sent with the first URBs.
pub fn a_completion_keeps_the_replies<H: Serves, D: Device, K: Handler>()
    ensures { (x : H) (s z : H.Server) (u : UrbId) (code : Code) (t : Transfer) (h k : K) (r : Result Outcome Memory) (c : Controller D) (so : ℕ → List Reply)
        → Came (H.machine x) K.completes K.asks K.unasks (H.known (H.Server.own s)) (H.known (H.Server.own z)) u code t h r k
        → Agrees (side_knows (H.machine x) (H.known (H.Server.own s)) (H.Server.given s) (IsWholeSide (H.machine x) (H.is_of x (H.Server.own s)) (H.known (H.Server.own s)) (H.Server.pending s) (H.Server.given s) (H.Server.has_room s)) (H.is_settled x s)) c
        → IsSoFar (side_knows (H.machine x) (H.known (H.Server.own s)) (H.Server.given s) (IsWholeSide (H.machine x) (H.is_of x (H.Server.own s)) (H.known (H.Server.own s)) (H.Server.pending s) (H.Server.given s) (H.Server.has_room s)) (H.is_settled x s)) so c.ends.items
        → IsSoFar (side_knows (H.machine x) (H.known (H.Server.own z)) (H.Server.given z) (IsWholeSide (H.machine x) (H.is_of x (H.Server.own z)) (H.known (H.Server.own z)) (H.Server.pending z) (H.Server.given z) (H.Server.has_room z)) (H.is_settled x z)) so c.ends.items × ((e : ℕ) → first_sent (H.known (H.Server.own z)).seen c.ends.items e ≡ first_sent (H.known (H.Server.own s)).seen c.ends.items e) }
{}
