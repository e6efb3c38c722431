//! The controller moves the first pending transfer of each endpoint, up to one that comes back.
ghost use Rattle.std.specs.Prelude.{◌≡◌, ◌≢◌, ◌<◌, ◌≤◌, ◌==◌, ◌+◌, ◌&&◌, ◌||◌, ◌∷◌, ◌++◌, [], ℕ, List, length, slice_get, slice_set, Option, Some, None, true, false, not, MatchOption};
ghost use Rattle.usb_machine.specs.declared.transfer.Transfer.{Transfer};
ghost use Rattle.usb_machine.specs.Shapes.{HasWindow};
ghost use Rattle.usb_serve.specs.declared.controller.EndRow.{EndRow};
ghost use Rattle.usb_serve.specs.declared.controller.Held.{Held};
ghost use Rattle.usb_serve.specs.Held.{Agrees, with_held, CleanIsOpen, serving};
ghost use Rattle.usb_serve.specs.SoFar.{GoesOn, ServesEnd, ServesAll};
ghost use Rattle.usb_serve.specs.Serving.{code_of, has_changed, RowFirst, FirstOut, MovedOn, FirstMoves};

use crate::controller::{Controller, EndRow, Held};
use crate::side::Side;
use crate::take::either;
use usb_machine::{Shape, Transfer};
use usb_types::Code;
use usb_xfer::{Device, Step, advance_on};

/// A pending URB whose transfer was moved: how far, and whether that changed something.
#[derive(Drop)]
pub struct MovedFirst {
    pub held: Held,
    pub step: Step,
    pub changed: bool,
}

/// What a turn did.
pub struct Turn<G> {
    /// What was given back, if something was.
    pub given: Option<G>,
    /// Whether something was taken, moved, used of a script or given back.
    pub changed: bool,
}

fn ended(step: Step) -> Option<Code>
    ensures { result ≡ code_of step }
{
    match step {
        Step::Ended(code) => Some(code),
        _ => None,
    }
}

// Whether a transfer moved, or an item was used.
fn has_changed(actual: (u32, u32), used: (u64, u64)) -> bool
    ensures { result ≡ has_changed actual.0 actual.1 used.0 used.1 }
{
    !(actual.0 == actual.1 && used.0 == used.1)
}

impl EndRow {
    // Takes the first pending transfer out, where the endpoint is awake and the URB clean.
    fn take_first(&mut self) -> Option<Held>
        ensures { RowFirst self.old self.new result }
    {
        if self.asleep {
            return None;
        }
        if !self.clean {
            return None;
        }
        self.held.pop_front()
    }
}

impl<D> Controller<D> {
    // Takes the first pending transfer of an endpoint out, where it is awake and clean.
    fn take_first(&mut self, ep: u32) -> Option<Held>
        requires { ep < length self.old.ends.items }
        ensures first { (row : EndRow) → slice_get self.old.ends.items ep ≡ Some row → FirstOut self.old.ends.items self.new.ends.items ep row result }
        ensures devices { self.new.devices ≡ self.old.devices }
    {
        self.ends[ep as usize].take_first()
    }

    // Puts it back before the others, and the endpoint sleeps or not.
    fn put_first(&mut self, ep: u32, held: Held, asleep: bool)
        requires { ep < length self.old.ends.items }
        ensures put { (row : EndRow) → slice_get self.old.ends.items ep ≡ Some row → length row.held.items < row.held.capacity
            → self.new.ends.items ≡ slice_set self.old.ends.items ep (record (with_held (held ∷ row.held.items) row) { asleep = asleep }) }
        ensures devices { self.new.devices ≡ self.old.devices }
    {
        let row = &mut self.ends[ep as usize];
        row.asleep = asleep;
        row.held.push_front(held);
    }
}

impl<D: Device> Controller<D> {
    // Moves a transfer of an endpoint of this shape until it ends or waits. Answers that, and whether it changed something.
    fn move_on(&mut self, shape: &Shape, t: &mut Transfer) -> (Step, bool)
        requires window { HasWindow t.old }
        requires size { 0 < shape.now.max }
        requires device { shape.now.device < length self.old.devices.items }
        ensures moved { MovedOn D.replies D.items_used shape.now t.old t.new self.old.devices.items self.new.devices.items result.0 result.1 }
        ensures ends { self.new.ends ≡ self.old.ends }
    {
        let device = &mut self.devices[shape.device as usize];
        let used = device.used();
        let actual = t.actual;
        let step = advance_on(t, shape, device);
        let changed = has_changed((actual, t.actual), (used, device.used()));
        (step, changed)
    }

    // Takes the first pending transfer of an endpoint out, where it is awake and clean, and moves it until it ends or waits.
    fn move_first(&mut self, ep: u32) -> Option<MovedFirst>
        requires there { ep < length self.old.ends.items }
        requires device { (row : EndRow) → slice_get self.old.ends.items ep ≡ Some row → row.shape.device < length self.old.devices.items }
        requires first { (row : EndRow) (h : Held) (others : List Held) → slice_get self.old.ends.items ep ≡ Some row → row.clean ≡ true → row.held.items ≡ h ∷ others → HasWindow h.transfer × (0 < row.shape.max) }
        ensures { FirstMoves D.replies D.items_used ep self.old.devices.items self.new.devices.items self.old.ends.items self.new.ends.items result }
    {
        match self.take_first(ep) {
            None => None,
            Some(mut held) => {
                let shape = self.ends[ep as usize].shape;
                let (step, changed) = self.move_on(&shape, &mut held.transfer);
                Some(MovedFirst {
                    held,
                    step,
                    changed,
                })
            }
        }
    }

    // Moves the first pending transfer of an endpoint, where it is awake and clean, and gives its URB back where the transfer
    // ends.
    fn serve_end<S: Side>(&mut self, side: &mut S, ep: u32) -> Turn<S::Given>
        requires there { ep < length self.old.ends.items }
        requires agrees { Agrees (S.knows side.old) self.old }
        requires room { (S.knows side.old).may_give }
        requires opens { (row : EndRow) → slice_get self.old.ends.items ep ≡ Some row → CleanIsOpen (S.knows side.old) row }
        ensures agrees { Agrees (S.knows side.new) self.new }
        ensures ends { length self.new.ends.items ≡ length self.old.ends.items }
        ensures room { result.given ≡ None → (S.knows side.new).may_give }
        ensures opens { (e : ℕ) (row : EndRow) → e ≢ ep → result.given ≡ None → slice_get self.new.ends.items e ≡ Some row → CleanIsOpen (S.knows side.old) row → CleanIsOpen (S.knows side.new) row }
        ensures served { ServesEnd S.finishes D.replies D.items_used S.gives (GoesOn (S.knows side.old) self.old.ends.items ep (S.knows side.new) self.new.ends.items (ep + 1)) ep (serving side.old self.old) result.given result.changed (serving side.new self.new) }
    {
        match self.move_first(ep) {
            None => Turn {
                given: None,
                changed: false,
            },
            Some(moved) => match ended(moved.step) {
                None => {
                    self.put_first(ep, moved.held, true);
                    Turn {
                        given: None,
                        changed: moved.changed,
                    }
                }
                Some(code) => {
                    if side.finish(moved.held.urb, code) {
                        return Turn {
                            given: Some(side.give(moved.held.urb, moved.held.transfer)),
                            changed: true,
                        };
                    }
                    self.put_first(ep, moved.held, false);
                    Turn {
                        given: None,
                        changed: moved.changed,
                    }
                }
            },
        }
    }

    // Goes through the endpoints in their order, up to one whose first pending transfer comes back.
    pub(crate) fn serve_all<S: Side>(&mut self, side: &mut S) -> Turn<S::Given>
        requires agrees { Agrees (S.knows side.old) self.old }
        requires room { (S.knows side.old).may_give }
        requires opens { (e : ℕ) (row : EndRow) → slice_get self.old.ends.items e ≡ Some row → CleanIsOpen (S.knows side.old) row }
        ensures agrees { Agrees (S.knows side.new) self.new }
        ensures served { ServesAll S.finishes D.replies D.items_used S.gives (GoesOn (S.knows side.old) self.old.ends.items 0 (S.knows side.new) self.new.ends.items (length self.old.ends.items)) (length self.old.ends.items) (serving side.old self.old) result.given result.changed (serving side.new self.new) }
    {
        let mut changed = false;
        for ep in 0..self.ends.len() {
            let Turn {
                given,
                changed: more,
            } = self.serve_end(side, ep as u32);
            match given {
                Some(given) => {
                    return Turn {
                        given: Some(given),
                        changed: more,
                    };
                }
                None => changed = either(changed, more),
            }
        }
        Turn {
            given: None,
            changed,
        }
    }
}
