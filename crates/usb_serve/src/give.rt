//! The controller gives back an URB that is marked.
ghost use Rattle.std.specs.Prelude.{◌≡◌, ◌<◌, ◌≤◌, ◌∷◌, ◌++◌, [], ℕ, List, length, take, drop, slice_get, slice_set, Some};
ghost use Rattle.usb_serve.specs.declared.controller.EndRow.{EndRow};
ghost use Rattle.usb_serve.specs.declared.controller.Held.{Held};
ghost use Rattle.usb_serve.specs.Held.{Agrees, with_held, serving};
ghost use Rattle.usb_serve.specs.Looking.{SettledAt};
ghost use Rattle.usb_serve.specs.Serving.{GivesMarked};
ghost use Rattle.usb_serve.specs.SoFar.{IsSoFar, without_place};
ghost use Rattle.usb_xfer.specs.Replies.{Reply};

use crate::controller::{Controller, EndRow, Held};
use crate::side::Side;

impl EndRow {
    // Puts the first pending transfer after the others.
    fn turn_over(&mut self)
        ensures { (h : Held) (others : List Held) → self.old.held.items ≡ h ∷ others → length self.old.held.items ≤ self.old.held.capacity → self.new ≡ with_held (others ++ h ∷ []) self.old }
    {
        if let Some(first) = self.held.pop_front() {
            self.held.push_back(first);
        }
    }

    // Puts the first so many after the others.
    fn rotate(&mut self, count: usize)
        requires count { count ≤ length self.old.held.items }
        requires room { length self.old.held.items ≤ self.old.held.capacity }
        ensures { self.new ≡ with_held (drop count self.old.held.items ++ take count self.old.held.items) self.old }
    {
        for _ in 0..count {
            self.turn_over();
        }
    }

    // Takes out the pending transfer at this place.
    fn take_at(&mut self, place: usize) -> Option<Held>
        requires place { place < length self.old.held.items }
        requires room { length self.old.held.items ≤ self.old.held.capacity }
        ensures { (before after : List Held) (h : Held) → self.old.held.items ≡ before ++ h ∷ after → length before ≡ place → (result ≡ Some h) × (self.new ≡ with_held (before ++ after) self.old) }
    {
        self.rotate(place);
        let held = self.held.pop_front();
        let rest = self.held.len() - place;
        self.rotate(rest);
        held
    }
}

impl<D> Controller<D> {
    // Takes out the pending transfer at this place of an endpoint.
    fn take_out(&mut self, ep: u32, place: usize) -> Option<Held>
        requires there { ep < length self.old.ends.items }
        requires place { (row : EndRow) → slice_get self.old.ends.items ep ≡ Some row → place < length row.held.items }
        requires room { (row : EndRow) → slice_get self.old.ends.items ep ≡ Some row → length row.held.items ≤ row.held.capacity }
        ensures out { (row : EndRow) (before after : List Held) (h : Held) → slice_get self.old.ends.items ep ≡ Some row → row.held.items ≡ before ++ h ∷ after → length before ≡ place
            → (result ≡ Some h) × (self.new.ends.items ≡ slice_set self.old.ends.items ep (with_held (before ++ after) row)) }
        ensures devices { self.new.devices ≡ self.old.devices }
    {
        self.ends[ep as usize].take_at(place)
    }

    // Gives back the URB at this place of an endpoint, whose status is settled.
    pub(crate) fn give_marked<S: Side>(&mut self, side: &mut S, ep: u32, place: usize) -> S::Given
        requires there { ep < length self.old.ends.items }
        requires place { (row : EndRow) → slice_get self.old.ends.items ep ≡ Some row → place < length row.held.items }
        requires agrees { Agrees (S.knows side.old) self.old }
        requires room { (S.knows side.old).may_give }
        requires settled { SettledAt (S.knows side.old) self.old.ends.items ep place }
        ensures agrees { Agrees (S.knows side.new) self.new }
        ensures so_far { (so : ℕ → List Reply) → IsSoFar (S.knows side.old) so self.old.ends.items → IsSoFar (S.knows side.new) (without_place ep place so) self.new.ends.items }
        ensures gave { GivesMarked S.gives ep place (serving side.old self.old) result (serving side.new self.new) }
    {
        match self.take_out(ep, place) {
            Some(held) => side.give(held.urb, held.transfer),
            None => unreachable!(),
        }
    }
}
