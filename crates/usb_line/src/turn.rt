//! The turns of a run in line order.
ghost use Rattle.std.specs.Prelude.{◌≡◌, ◌<◌, ℕ, [], length, slice_get, Some, true, IfOk};
ghost use Rattle.usb_machine.specs.Plain.{ends_of, urbs_of};
ghost use Rattle.usb_machine.specs.Shapes.{HasWindow};
ghost use Rattle.usb_scene.specs.declared.scene.Scene.{Scene};
ghost use Rattle.usb_scene.specs.WellFormed.{IsWellFormed};
ghost use Rattle.usb_line.specs.declared.run.EndRow.{EndRow};
ghost use Rattle.usb_line.specs.Line.{Progress, marked_of};
ghost use Rattle.usb_line.specs.Shows.{Shows, IsShown, turns_left, Turned, Served};
ghost use Rattle.usb_line.specs.Turned.{code_of, TakesOut, MovedOn, FallsAsleep, FirstAwake, UnlinkedFirst, GaveUnlinked, IsUnmarked, EndServed, EndsServed, TurnsFall};

use crate::run::LineRun;
use crate::take::take_all;
use crate::unlinked::first_marked;
use std::alloc::Global;
use usb_machine::Transfer;
use usb_types::{Code, Memory};
use usb_xfer::{Step, advance_on};

fn ended(step: Step) -> Option<Code>
    ensures { result ≡ code_of step }
{
    match step {
        Step::Ended(code) => Some(code),
        _ => None,
    }
}

impl LineRun<'_> {
    // Takes the transfer of an URB out of its row.
    fn take_out(&mut self, urb: u32) -> Option<Transfer>
        requires { urb < length self.old.urbs.items }
        ensures { TakesOut self.old self.new urb result }
    {
        self.urbs[urb as usize].transfer.take()
    }

    // The first pending URB of an endpoint, where it is awake and has one.
    fn first_awake(&self, ep: u32) -> Option<u32>
        requires there { ep < length self.now.ends.items }
        requires known { ep < ends_of self.now.plain }
        ensures { (s : Scene) (f : Progress) → Shows s f self.now → FirstAwake s f ep result }
    {
        if self.ends[ep as usize].asleep {
            return None;
        }
        self.plain.pending(ep, 0)
    }

    // Moves a transfer at an endpoint until it ends or waits. Answers the code that it ended with.
    fn move_on(&mut self, ep: u32, t: &mut Transfer) -> Option<Code>
        requires there { ep < length self.old.ends.items }
        requires window { HasWindow t.old }
        requires size { (end : EndRow) → slice_get self.old.ends.items ep ≡ Some end → 0 < end.shape.max }
        requires device { (end : EndRow) → slice_get self.old.ends.items ep ≡ Some end → end.shape.device < length self.old.devices.items }
        ensures { MovedOn self.old self.new ep t.old t.new result }
    {
        let shape = self.ends[ep as usize].shape;
        ended(advance_on(t, &shape, &mut self.devices[shape.device as usize]))
    }

    // The transfer waits with its URB, and the endpoint sleeps.
    fn fall_asleep(&mut self, ep: u32, urb: u32, t: Transfer)
        requires there { ep < length self.old.ends.items }
        requires known { urb < length self.old.urbs.items }
        ensures { FallsAsleep self.old self.new ep urb t }
    {
        self.ends[ep as usize].asleep = true;
        self.urbs[urb as usize].transfer = Some(t);
    }

    // Gives back the URB, which is the first that was unlinked.
    fn give_unlinked(&mut self, alloc: Global, urb: u32) -> Result<(), Memory>
        requires { UnlinkedFirst self.old urb }
        ensures falls { IfOk result (λ _. turns_left self.new < turns_left self.old) }
        ensures given { IfOk result (λ _. (s : Scene) (f : Progress) → IsWellFormed s → Shows s f self.old → slice_get (marked_of s f.history) 0 ≡ Some urb → GaveUnlinked s f self.new) }
    {
        let Some(t) = self.take_out(urb) else {
            return Ok(());
        };
        self.give_back(alloc, urb, None, t)?;
        Ok(())
    }

    // Moves the first pending transfer of an endpoint that is awake. Answers whether it came back.
    fn serve_end(&mut self, alloc: Global, ep: u32) -> Result<bool, Memory>
        requires there { ep < length self.old.ends.items }
        requires unmarked { IsUnmarked self.old }
        ensures falls { IfOk result (λ back. TurnsFall back self.old self.new) }
        ensures served { IfOk result (λ back. (s : Scene) (f : Progress) → IsWellFormed s → Shows s f self.old → marked_of s f.history ≡ [] → EndServed s f ep back self.new) }
    {
        let Some(urb) = self.first_awake(ep) else {
            return Ok(false);
        };
        let Some(mut t) = self.take_out(urb) else {
            return Ok(false);
        };
        let Some(code) = self.move_on(ep, &mut t) else {
            self.fall_asleep(ep, urb, t);
            return Ok(false);
        };
        self.give_back(alloc, urb, Some(code), t)?;
        Ok(true)
    }

    // Goes through the endpoints in their order, up to one whose first pending transfer comes back. Answers whether one did.
    fn serve_ends(&mut self, alloc: Global) -> Result<bool, Memory>
        requires { IsUnmarked self.old }
        ensures falls { IfOk result (λ back. TurnsFall back self.old self.new) }
        ensures served { IfOk result (λ back. (s : Scene) (f : Progress) → IsWellFormed s → Shows s f self.old → marked_of s f.history ≡ [] → EndsServed s f back self.new) }
    {
        for ep in 0..self.ends.len() {
            if self.serve_end(alloc, ep as u32)? {
                return Ok(true);
            }
        }
        Ok(false)
    }

    /// Takes what stands in the lines, and gives one URB back with its handler: the first that was unlinked, and where
    /// there is none, the first whose transfer ends. Answers whether one came back.
    pub fn turn(&mut self, alloc: Global) -> Result<bool, Memory>
        requires { IsShown self.old }
        ensures shown { IfOk result (λ back. IsShown self.new) }
        ensures falls { IfOk result (λ back. back ≡ true → turns_left self.new < turns_left self.old) }
        ensures turned { IfOk result (λ back. (s : Scene) (f : Progress) → IsWellFormed s → Shows s f self.old → Turned s f back self.new) }
    {
        let ends = self.ends.len() as u32;
        take_all(&mut self.plain, ends);
        if let Some(urb) = first_marked(&self.plain, ends) {
            self.give_unlinked(alloc, urb)?;
            return Ok(true);
        }
        let back = self.serve_ends(alloc)?;
        Ok(back)
    }

    /// Wakes all endpoints, and turns until one gives nothing back.
    pub fn serve(&mut self, alloc: Global) -> Result<(), Memory>
        requires { IsShown self.old }
        ensures shown { IfOk result (λ _. IsShown self.new) }
        ensures served { IfOk result (λ _. (s : Scene) (f : Progress) → IsWellFormed s → Shows s f self.old → Served s f self.new) }
    {
        self.wake();
        loop {
            if !self.turn(alloc)? {
                return Ok(());
            }
        }
    }
}
