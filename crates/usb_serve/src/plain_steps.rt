//! The steps of a handler on a machine with its transfers.
ghost use Rattle.std.specs.Prelude.{ℕ, ◌≡◌, ◌<◌, ◌++◌, ◌∷◌, [], List, length, slice_get, slice_set, Some, None};
ghost use Rattle.usb_machine.specs.declared.transfer.Transfer.{Transfer};
ghost use Rattle.usb_machine.specs.Shapes.{HasWindow, Accepts, shape_fault as fault_of};
ghost use Rattle.usb_machine.specs.declared.layout.Shape.{Shape};
ghost use Rattle.usb_machine.specs.declared.entry.Entry.{Entry};
ghost use Rattle.usb_machine.specs.History.{Machine, home_of};
ghost use Rattle.usb_serve.specs.declared.plain_side.Slots.{Slots};
ghost use Rattle.usb_machine.specs.HostCalls.{HandsBack};
ghost use Rattle.usb_serve.specs.Handlers.{StillRuns, refusal_in};
ghost use Rattle.usb_serve.specs.Plain.{IsPlain, IsPlainAt};
ghost use Rattle.usb_serve.specs.PlainHandlers.{plain_runs, PlainRests, PlainEnds, SubmitsAs, QueuedBy};

use crate::plain_side::{PlainSide, code_in};
use usb_machine::{Event, Refused, SERVER, Transfer, shape_fault};
use usb_types::{Code, Errno, UrbId};

impl PlainSide<'_> {
    // Keeps a transfer at rest.
    fn keep(&mut self, urb: UrbId, t: Transfer)
        requires { urb.0 < length self.old.urbs.items }
        ensures kept { (row : Slots) → slice_get self.old.urbs.items urb.0 ≡ Some row → self.new.urbs.items ≡ slice_set self.old.urbs.items urb.0 (record row { rest = Some t }) }
        ensures same { (self.new.plain ≡ self.old.plain) × (self.new.layout ≡ self.old.layout) }
    {
        self.urbs[urb.0 as usize].rest = Some(t);
    }

    /// Leaves a transfer to rest with an URB of which a handler runs.
    pub fn rest_transfer(&mut self, urb: UrbId, t: Transfer)
        requires whole { IsPlain self.old }
        requires handles { (plain_runs self.old).handles urb.0 }
        requires window { HasWindow t }
        ensures rests { PlainRests self.old urb t self.new }
        ensures still { StillRuns (plain_runs self.old) (plain_runs self.new) }
    {
        self.plain.step(
            SERVER,
            Event::Rest {
                urb,
                number: t.number,
            },
        );
        self.keep(urb, t);
    }

    /// Ends a handler of an URB.
    pub fn end_handler(&mut self, urb: UrbId)
        requires whole { IsPlain self.old }
        requires handles { (plain_runs self.old).handles urb.0 }
        ensures ends { PlainEnds self.old urb self.new }
        ensures whole { IsPlain self.new }
    {
        self.plain.step(SERVER, Event::End { urb });
    }

    // Puts a transfer into the line's slot of its URB.
    fn put_line(&mut self, urb: UrbId, t: Transfer)
        requires { urb.0 < length self.old.urbs.items }
        ensures put { (row : Slots) → slice_get self.old.urbs.items urb.0 ≡ Some row → self.new.urbs.items ≡ slice_set self.old.urbs.items urb.0 (record row { line = Some t; number = t.number }) }
        ensures same { (self.new.plain ≡ self.old.plain) × (self.new.layout ≡ self.old.layout) }
    {
        let row = &mut self.urbs[urb.0 as usize];
        row.number = t.number;
        row.line = Some(t);
    }

    // Why the URB's endpoint does not take the transfer, if it does not.
    fn fault(&self, urb: UrbId, t: &Transfer) -> Option<Errno>
        requires whole { IsPlain self.now }
        requires home { (plain_runs self.now).has_home urb.0 }
        ensures { (e : ℕ) (shape : Shape) → slice_get self.now.plain.homes.items urb.0 ≡ Some (Some e) → slice_get self.now.layout.now.shapes e ≡ Some shape → result ≡ fault_of shape t.now }
    {
        match self.layout.homes.items()[urb.0 as usize] {
            Some(ep) => shape_fault(&self.layout.shapes.items()[ep as usize], t),
            None => unreachable!(),
        }
    }

    // Submits a transfer that the URB's endpoint takes, and links the URB where the gate takes it too.
    fn queue(&mut self, pass: u32, urb: UrbId, t: Transfer) -> Result<(), Refused>
        requires whole { IsPlain self.old }
        requires pass { pass < self.old.plain.passes }
        requires home { (plain_runs self.old).has_home urb.0 }
        requires transfer { HasWindow t × (t.actual ≡ 0) }
        requires fits { (g : Machine) (h : List Entry) → IsPlainAt self.old g h → Accepts (slice_get g.layout.shapes (home_of g urb.0)) t }
        ensures queued { QueuedBy pass self.old urb t result self.new }
        ensures still { StillRuns (plain_runs self.old) (plain_runs self.new) }
    {
        let asked = self.plain.step(
            pass,
            Event::Submit {
                urb,
                number: t.number,
            },
        );
        match code_in(asked) {
            Code::Fault(errno) => Err(Refused { errno, transfer: t }),
            Code::Zero => {
                self.plain.step(pass, Event::Link { urb });
                self.put_line(urb, t);
                Ok(())
            }
        }
    }

    /// Submits a transfer by this pass, and links its URB where it is accepted. One that is refused is handed back.
    pub fn submit_by(&mut self, pass: u32, urb: UrbId, t: Transfer) -> Result<(), Refused>
        requires whole { IsPlain self.old }
        requires pass { pass < self.old.plain.passes }
        requires home { (plain_runs self.old).has_home urb.0 }
        requires transfer { HasWindow t × (t.actual ≡ 0) }
        ensures submits { SubmitsAs pass self.old urb t (refusal_in result) self.new }
        ensures back { HandsBack t result }
        ensures still { StillRuns (plain_runs self.old) (plain_runs self.new) }
    {
        match self.fault(urb, &t) {
            Some(errno) => Err(Refused { errno, transfer: t }),
            None => self.queue(pass, urb, t),
        }
    }
}
