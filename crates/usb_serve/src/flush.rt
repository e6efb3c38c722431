//! A shutdown of some URBs under a flag, on a host for one caller.
ghost use Rattle.std.specs.Prelude.{ℕ, ◌≡◌, ◌<◌, ◌++◌, ◌∷◌, [], List, length, All};
ghost use Rattle.usb_types.specs.declared.errno.Code.{Code};
ghost use Rattle.usb_types.specs.declared.urb.UrbId.{UrbId};
ghost use Rattle.usb_types.specs.declared.urb.Why.TheVariants.{Shutdown};
ghost use Rattle.usb_machine.specs.declared.entry.TheConstants.{HUB};
ghost use Rattle.usb_machine.specs.declared.entry.Entry.{Entry};
ghost use Rattle.usb_machine.specs.Calls.{mark_entry, marks_of};
ghost use Rattle.usb_machine.specs.History.{Machine};
ghost use Rattle.usb_machine.specs.Plain.{urbs_of};
ghost use Rattle.usb_serve.specs.Solo.{IsSoloAt};
ghost use Rattle.usb_serve.specs.Flushing.{ids, flags_of, MayFlush, CanFlush, MaySettle, CanSettle, SettlesBy, Flushed};

use crate::handler::Handler;
use crate::solo::{Solo, Waited};
use usb_machine::{Event, HUB};
use usb_types::{Flag, Memory, UrbId, Why};
use usb_xfer::Device;

impl<D: Device, H: Handler> Solo<'_, D, H> {
    // Sets the flag on all URBs.
    fn flag_all(&mut self, urbs: &[UrbId], flag: Flag)
        requires { All (λ (u : UrbId). u.0 < urbs_of self.old.side.plain) urbs.now }
        ensures flagged { (g : Machine) (h : List Entry) → IsSoloAt H.asks_with self.old g h → MayFlush g h flag (ids urbs.now) → IsSoloAt H.asks_with self.new g (h ++ flags_of flag (ids urbs.now)) }
        ensures counts { urbs_of self.new.side.plain ≡ urbs_of self.old.side.plain }
    {
        for urb in urbs {
            self.call(HUB, Event::Flag { urb: *urb, flag });
        }
    }

    // Unlinks all URBs, in order.
    fn mark_all(&mut self, urbs: &[UrbId])
        requires { All (λ (u : UrbId). u.0 < urbs_of self.old.side.plain) urbs.now }
        ensures marked { (g : Machine) (h : List Entry) → IsSoloAt H.asks_with self.old g h → HUB < g.passes → (answers : List Code) × (length answers ≡ length urbs.now) × IsSoloAt H.asks_with self.new g (h ++ marks_of HUB Shutdown (ids urbs.now) answers) }
        ensures counts { urbs_of self.new.side.plain ≡ urbs_of self.old.side.plain }
    {
        for urb in urbs {
            self.mark(*urb);
        }
    }

    // Waits for each URB, in order, and claims what rests with it, up to one whose wait ends early.
    fn settle_all(&mut self, urbs: &[UrbId], rests: &mut [Option<u64>]) -> Result<Waited, Memory>
        requires urbs { All (λ (u : UrbId). u.0 < urbs_of self.old.side.plain) urbs.now }
        requires can { CanSettle H.asks_with self.old (ids urbs.now) }
        requires room { length rests.old ≡ length urbs.now }
        ensures settled { (g : Machine) (h : List Entry) → IsSoloAt H.asks_with self.old g h → MaySettle g h (ids urbs.now) → (es : List Entry) × SettlesBy g h (ids urbs.now) result rests.new es × IsSoloAt H.asks_with self.new g (h ++ es) }
        ensures counts { urbs_of self.new.side.plain ≡ urbs_of self.old.side.plain }
    {
        for i in 0..urbs.len() {
            match self.wait_for(urbs[i]) {
                Err(memory) => return Err(memory),
                Ok(Waited::Quiet) => rests[i] = self.claim(HUB, urbs[i]),
                Ok(Waited::Idle) => return Ok(Waited::Idle),
                Ok(Waited::Busy) => return Ok(Waited::Busy),
            }
        }
        Ok(Waited::Quiet)
    }

    // Unlinks the URB for a shutdown.
    fn mark(&mut self, urb: UrbId)
        requires { urb.0 < urbs_of self.old.side.plain }
        ensures marked { (g : Machine) (h : List Entry) → IsSoloAt H.asks_with self.old g h → HUB < g.passes → (a : Code) × IsSoloAt H.asks_with self.new g (h ++ mark_entry HUB Shutdown urb.0 a ∷ []) }
        ensures counts { urbs_of self.new.side.plain ≡ urbs_of self.old.side.plain }
    {
        self.call(
            HUB,
            Event::Mark {
                urb,
                why: Why::Shutdown,
            },
        );
    }

    /// Sets a flag on all URBs, unlinks all of them, and then waits for each in order and claims what rests with it: the
    /// number of that transfer. Answers how the last wait ended: where that is not `Quiet`, the URBs before it are claimed.
    pub fn flush(
        &mut self,
        urbs: &[UrbId],
        flag: Flag,
        rests: &mut [Option<u64>],
    ) -> Result<Waited, Memory>
        requires urbs { All (λ (u : UrbId). u.0 < urbs_of self.old.side.plain) urbs.now }
        requires can { CanFlush H.asks_with self.old flag (ids urbs.now) }
        requires room { length rests.old ≡ length urbs.now }
        ensures flushed { (g : Machine) (h : List Entry) → IsSoloAt H.asks_with self.old g h → MayFlush g h flag (ids urbs.now) → (es : List Entry) × Flushed g h flag (ids urbs.now) result rests.new es × IsSoloAt H.asks_with self.new g (h ++ es) }
        ensures counts { urbs_of self.new.side.plain ≡ urbs_of self.old.side.plain }
    {
        self.flag_all(urbs, flag);
        self.mark_all(urbs);
        self.settle_all(urbs, rests)
    }
}
