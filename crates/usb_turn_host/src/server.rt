//! The server's token, with its pending URBs and its count of Gives.
ghost use Rattle.std.specs.Prelude.{◌≡◌, ℕ, ◌^◌, ◌<◌, ◌∷◌, ◌++◌, [], length, slice_get, slice_set};
ghost use Rattle.circular_buffer.specs.Buffer.{buffer};
ghost use Rattle.usb_machine.specs.History.{without};
ghost use Rattle.usb_turn_host.specs.Server.{pending_at};

use crate::stock::Stock;
use circular_buffer::HeapCircularBuffer;
use std::alloc::Global;
use usb_machine::{ServerToken, Token};
use usb_turn::TurnPass;
use usb_types::UrbId;

/// The server's token: its pass, the pending URBs of each endpoint, and how often it gave back.
#[derive(Drop)]
pub struct TurnServer {
    pub(crate) pass: TurnPass<Stock>,
    pub(crate) pending: Vec<HeapCircularBuffer<u32>>,
    pub(crate) given: u64,
}

impl Token for TurnServer {
    type Pass = TurnPass<Stock>;

    ghost use Rattle.std.specs.Prelude.{refl};

    ghost own = { λ t. t.pass };

    ghost with_own = { λ t p. record t { pass = p } };

    fn pass(&mut self) -> &mut TurnPass<Stock> {
        &mut self.pass
    }

    ghost puts = { λ t p. refl };
}

impl ServerToken for TurnServer {
    ghost use Rattle.std.specs.Prelude.{refl};
    ghost use Rattle.usb_turn_host.specs.Server.{pending_at, HasRooms};

    ghost pending = { λ t e. pending_at t.pending.items e };

    ghost given = { λ t. t.given };

    ghost has_room = { λ t g. HasRooms g t.pending.items };

    fn first(&self, ep: u32) -> Option<UrbId> {
        match self.pending.get(ep as usize) {
            Some(pending) => match pending.front() {
                Some(urb) => Some(UrbId(*urb)),
                None => None,
            },
            None => None,
        }
    }

    fn may_give(&self) -> bool {
        self.given < 1 << 63
    }

    ghost keeps_pending = { λ t p e. refl };

    ghost keeps_given = { λ t p. refl };

    ghost keeps_room = { λ t p g h. h };
}

/// Puts the URB last.
fn put(pending: &mut HeapCircularBuffer<u32>, urb: u32)
    ensures { length pending.old.items < pending.old.capacity → pending.new ≡ buffer (pending.old.items ++ urb ∷ []) pending.old.capacity }
{
    pending.push_back(urb);
}

/// Takes the URB out, wherever it stands.
fn take_out(pending: &mut HeapCircularBuffer<u32>, urb: u32)
    ensures { pending.new ≡ buffer (without urb pending.old.items) pending.old.capacity }
{
    for _ in 0..pending.len() {
        if let Some(first) = pending.pop_front() {
            if first != urb {
                pending.push_back(first);
            }
        }
    }
}

impl TurnServer {
    ghost use Rattle.std.specs.Prelude.{Some, ◌+◌};
    ghost use Rattle.circular_buffer.specs.Buffer.{Buffer, buffer};

    /// Notes that the URB is pending.
    pub(crate) fn push(&mut self, ep: u32, urb: UrbId)
        requires { ep < length self.old.pending.items }
        ensures pushed { (b : Buffer ℕ) → slice_get self.old.pending.items ep ≡ Some b → length b.items < b.capacity → self.new.pending.items ≡ slice_set self.old.pending.items ep (buffer (b.items ++ urb.0 ∷ []) b.capacity) }
        ensures rest { (self.new.pass ≡ self.old.pass) × (self.new.given ≡ self.old.given) }
    {
        put(&mut self.pending[ep as usize], urb.0);
    }

    /// Notes that the URB was given back.
    pub(crate) fn remove(&mut self, ep: u32, urb: UrbId)
        requires ep { ep < length self.old.pending.items }
        requires few { self.old.given < 2 ^ 63 }
        ensures removed { (b : Buffer ℕ) → slice_get self.old.pending.items ep ≡ Some b → self.new.pending.items ≡ slice_set self.old.pending.items ep (buffer (without urb.0 b.items) b.capacity) }
        ensures pass { self.new.pass ≡ self.old.pass }
        ensures given { self.new.given ≡ self.old.given + 1 }
    {
        take_out(&mut self.pending[ep as usize], urb.0);
        self.given += 1;
    }
}
