//! A turn begins by taking all that the lines give.
ghost use Rattle.std.specs.Prelude.{◌≡◌, ◌<◌, ◌≤◌, ◌∷◌, ◌++◌, [], ℕ, List, length, slice_get, slice_set, Some, nat_lt, ◌||◌};
ghost use Rattle.usb_serve.specs.declared.controller.EndRow.{EndRow};
ghost use Rattle.usb_serve.specs.Held.{Agrees, with_held, serving};
ghost use Rattle.usb_serve.specs.Taking.{TakesLine, TakesBelow};
ghost use Rattle.usb_serve.specs.SoFar.{IsSoFar};
ghost use Rattle.usb_xfer.specs.Replies.{Reply};

use crate::controller::{Controller, Held};
use crate::side::Side;

pub(crate) fn either(a: bool, b: bool) -> bool
    ensures { result ≡ a || b }
{
    a || b
}

impl<D> Controller<D> {
    // Adds a pending URB after the others of its endpoint.
    fn add(&mut self, ep: u32, held: Held)
        requires { ep < length self.old.ends.items }
        ensures added { (row : EndRow) → slice_get self.old.ends.items ep ≡ Some row → length row.held.items < row.held.capacity → self.new.ends.items ≡ slice_set self.old.ends.items ep (with_held (row.held.items ++ held ∷ []) row) }
        ensures devices { self.new.devices ≡ self.old.devices }
    {
        self.ends[ep as usize].held.push_back(held);
    }

    // Takes all that the line of an endpoint gives. Answers whether that was something.
    fn take_line<S: Side>(&mut self, side: &mut S, ep: u32) -> bool
        requires there { ep < length self.old.ends.items }
        requires agrees { Agrees (S.knows side.old) self.old }
        ensures agrees { Agrees (S.knows side.new) self.new }
        ensures ends { length self.new.ends.items ≡ length self.old.ends.items }
        ensures room { (S.knows side.old).may_give → (S.knows side.new).may_give }
        ensures so_far { (so : ℕ → List Reply) → IsSoFar (S.knows side.old) so self.old.ends.items → IsSoFar (S.knows side.new) so self.new.ends.items }
        ensures taken { (n : ℕ) × TakesLine S.takes ep (serving side.old self.old) n (serving side.new self.new) × (result ≡ nat_lt 0 n) }
    {
        let mut taken = false;
        loop {
            match side.take(ep) {
                None => return taken,
                Some((urb, transfer)) => {
                    self.add(ep, Held { urb, transfer });
                    taken = true;
                }
            }
        }
    }

    // Takes all that each line gives, in endpoint order. Answers whether that was something.
    pub(crate) fn take_all<S: Side>(&mut self, side: &mut S) -> bool
        requires agrees { Agrees (S.knows side.old) self.old }
        ensures agrees { Agrees (S.knows side.new) self.new }
        ensures ends { length self.new.ends.items ≡ length self.old.ends.items }
        ensures room { (S.knows side.old).may_give → (S.knows side.new).may_give }
        ensures so_far { (so : ℕ → List Reply) → IsSoFar (S.knows side.old) so self.old.ends.items → IsSoFar (S.knows side.new) so self.new.ends.items }
        ensures taken { (n : ℕ) × TakesBelow S.takes (serving side.old self.old) (length self.old.ends.items) n (serving side.new self.new) × (result ≡ nat_lt 0 n) }
    {
        let mut taken = false;
        for ep in 0..self.ends.len() {
            let more = self.take_line(side, ep as u32);
            taken = either(taken, more);
        }
        taken
    }
}
