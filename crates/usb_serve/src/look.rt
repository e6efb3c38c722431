//! The server looks at the marks of the pending URBs, one after another.
ghost use Rattle.std.specs.Prelude.{◌≡◌, ◌<◌, ◌≤◌, ◌+◌, ◌==◌, ◌∷◌, ◌++◌, [], ℕ, length, slice_get, slice_set, Some, None, true, List, if◌then◌else◌, All, IfSome};
ghost use Rattle.usb_serve.specs.declared.controller.EndRow.{EndRow};
ghost use Rattle.usb_serve.specs.declared.controller.Held.{Held};
ghost use Rattle.usb_serve.specs.Knows.{IsPending};
ghost use Rattle.usb_serve.specs.Held.{Agrees, CleanIsOpen, serving};
ghost use Rattle.usb_serve.specs.SoFar.{AreSoFar, IsSoFar};
ghost use Rattle.usb_xfer.specs.Replies.{Reply};
ghost use Rattle.usb_serve.specs.Looking.{is_clean, has_reason, with_clean, Stays, LooksThrough, LooksEnd, LooksAll, SettledAt};

use crate::controller::{Controller, Held};
use crate::side::Side;
use circular_buffer::HeapCircularBuffer;
use usb_machine::Look;

// Whether the first URB is clean, after a look at the one at this place.
fn clean_first(clean: bool, place: usize, look: Look) -> bool
    ensures { result ≡ (if place == 0 then is_clean look else clean) }
{
    if place == 0 {
        matches!(look, Look::Clean)
    } else {
        clean
    }
}

fn has_reason(look: Look) -> bool
    ensures { result ≡ has_reason look }
{
    matches!(look, Look::Marked(_))
}

// Looks at these URBs, up to the first that is marked. Answers its place, and whether the first URB was clean.
fn look_through<S: Side>(side: &mut S, held: &HeapCircularBuffer<Held>) -> (Option<usize>, bool)
    requires whole { (S.knows side.old).is_whole }
    requires pending { All (λ (h : Held). IsPending (S.knows side.old) h.urb.0 × ((S.knows side.old).is_finished h.urb.0 → ⊥)) held.now.items }
    ensures whole { (S.knows side.new).is_whole }
    ensures stays { Stays (S.knows side.old) (S.knows side.new) }
    ensures looked { LooksThrough S.looks side.old held.now.items result.0 result.1 side.new }
    ensures clean { (h : Held) (others : List Held) → result.1 ≡ true → held.now.items ≡ h ∷ others → (S.knows side.old).is_marked h.urb.0 → ⊥ }
    ensures settled { IfSome result.0 (λ place. (h : Held) → slice_get held.now.items place ≡ Some h → (S.knows side.new).is_settled h.urb.0) }
{
    let mut clean = false;
    for place in 0..held.len() {
        let Some(h) = held.get(place) else {
            unreachable!()
        };
        let look = side.look(h.urb);
        if has_reason(look) {
            return (Some(place), clean);
        }
        clean = clean_first(clean, place, look);
    }
    (None, clean)
}

impl<D> Controller<D> {
    // Notes whether the first pending URB of an endpoint is clean.
    fn note_clean(&mut self, ep: u32, clean: bool)
        requires { ep < length self.old.ends.items }
        ensures noted { (row : EndRow) → slice_get self.old.ends.items ep ≡ Some row → self.new.ends.items ≡ slice_set self.old.ends.items ep (with_clean clean row) }
        ensures devices { self.new.devices ≡ self.old.devices }
    {
        self.ends[ep as usize].clean = clean;
    }

    // Looks at the pending URBs of an endpoint, up to the first that is marked. Answers its place.
    fn look_end<S: Side>(&mut self, side: &mut S, ep: u32) -> Option<usize>
        requires there { ep < length self.old.ends.items }
        requires agrees { Agrees (S.knows side.old) self.old }
        ensures agrees { Agrees (S.knows side.new) self.new }
        ensures ends { length self.new.ends.items ≡ length self.old.ends.items }
        ensures stays { Stays (S.knows side.old) (S.knows side.new) }
        ensures so_far { (so : ℕ → List Reply) → AreSoFar (S.knows side.old) (λ f. f < ep) so self.old.ends.items → AreSoFar (S.knows side.new) (λ f. f < ep) so self.new.ends.items }
        ensures open_so_far { result ≡ None → (so : ℕ → List Reply) → AreSoFar (S.knows side.old) (λ f. f < ep) so self.old.ends.items → AreSoFar (S.knows side.new) (λ f. f < ep + 1) so self.new.ends.items }
        ensures opens { (row : EndRow) → result ≡ None → slice_get self.new.ends.items ep ≡ Some row → CleanIsOpen (S.knows side.new) row }
        ensures looked { LooksEnd S.looks ep result (serving side.old self.old) (serving side.new self.new) }
        ensures settled { IfSome result (SettledAt (S.knows side.new) self.new.ends.items ep) }
    {
        let (marked, clean) = look_through(side, &self.ends[ep as usize].held);
        match marked {
            Some(place) => Some(place),
            None => {
                self.note_clean(ep, clean);
                None
            }
        }
    }

    // Looks at the pending URBs in endpoint order and pending order, up to the first that is marked. Answers where it is.
    pub(crate) fn first_marked<S: Side>(&mut self, side: &mut S) -> Option<(u32, usize)>
        requires agrees { Agrees (S.knows side.old) self.old }
        ensures agrees { Agrees (S.knows side.new) self.new }
        ensures ends { length self.new.ends.items ≡ length self.old.ends.items }
        ensures room { (S.knows side.old).may_give → (S.knows side.new).may_give }
        ensures so_far { (so : ℕ → List Reply) → IsSoFar (S.knows side.old) so self.old.ends.items → IsSoFar (S.knows side.new) so self.new.ends.items }
        ensures open_so_far { result ≡ None → (so : ℕ → List Reply) → IsSoFar (S.knows side.old) so self.old.ends.items → AreSoFar (S.knows side.new) (λ f. 0 ≤ f) so self.new.ends.items }
        ensures opens { (e : ℕ) (row : EndRow) → result ≡ None → slice_get self.new.ends.items e ≡ Some row → CleanIsOpen (S.knows side.new) row }
        ensures looked { LooksAll S.looks (length self.old.ends.items) result (serving side.old self.old) (serving side.new self.new) }
        ensures settled { IfSome result (λ p. SettledAt (S.knows side.new) self.new.ends.items p.0 p.1) }
    {
        for ep in 0..self.ends.len() {
            match self.look_end(side, ep as u32) {
                Some(place) => return Some((ep as u32, place)),
                None => {}
            }
        }
        None
    }
}
