//! The submits of a run in line order.
ghost use Rattle.std.specs.Prelude.{◌≡◌, ◌<◌, ◌++◌, ℕ, List, length, slice_get, Some};
ghost use Rattle.usb_machine.specs.declared.entry.Entry.{Entry};
ghost use Rattle.usb_machine.specs.declared.transfer.Transfer.{Transfer};
ghost use Rattle.usb_machine.specs.Shapes.{shape_fault as fault_of};
ghost use Rattle.usb_machine.specs.State.{refusal};
ghost use Rattle.usb_machine.specs.History.{state_of};
ghost use Rattle.usb_machine.specs.Calls.{submit_entries};
ghost use Rattle.usb_machine.specs.Plain.{Stands, urbs_of};
ghost use Rattle.usb_scene.specs.declared.scene.Scene.{Scene};
ghost use Rattle.usb_scene.specs.declared.scene.Call.{Call};
ghost use Rattle.usb_line.specs.declared.run.UrbRow.{UrbRow};
ghost use Rattle.usb_line.specs.declared.run.EndRow.{EndRow};
ghost use Rattle.usb_trace.specs.declared.rows.HostCall.TheVariants as host_call;
ghost use Rattle.usb_prepare.specs.Ends.{shape_at};
ghost use Rattle.usb_prepare.specs.Layout.{home};
ghost use Rattle.usb_trace.specs.Plan.{machine_of, fresh};
ghost use Rattle.usb_line.specs.Line.{Progress};
ghost use Rattle.usb_line.specs.Shows.{Shows};
ghost use Rattle.usb_line.specs.Steps.{AsMany};
ghost use Rattle.usb_line.specs.Calls.{MayMake, Made};
ghost use Rattle.usb_line.specs.Sent.{MayAsk, MaySend, Sent, Keeps, CanSubmit};

use crate::run::LineRun;
use crate::steps::{code_in, enter};
use usb_machine::{Event, Plain, Transfer, shape_fault};
use usb_trace::CallAnswer;
use usb_types::{Code, Errno, UrbId};

/// Asks the URB's gate, which accepts or refuses submits, and links the URB where it was accepted. Answers what the gate says.
pub fn submit_and_link(plain: &mut Plain, pass: u32, urb: UrbId, number: u64) -> Code
    requires { urb.0 < urbs_of plain.old }
    ensures counts { AsMany plain.old plain.new }
    ensures asked { (s : Scene) (h : List Entry) (t : Transfer) → Stands plain.old (machine_of s) h → MayAsk s h pass urb.0 t → t.number ≡ number
        → (result ≡ refusal (state_of h urb.0)) × Stands plain.new (machine_of s) (h ++ submit_entries pass urb.0 t result) }
{
    let code = code_in(enter(plain, pass, Event::Submit { urb, number }));
    if let Code::Fault(_) = code {
        return code;
    }
    enter(plain, pass, Event::Link { urb });
    code
}

impl LineRun<'_> {
    /// Why the URB's endpoint does not take the transfer, if it does not.
    pub fn fault(&self, urb: UrbId, t: &Transfer) -> Option<Errno>
        requires there { urb.0 < length self.now.urbs.items }
        requires home { (row : UrbRow) → slice_get self.now.urbs.items urb.0 ≡ Some row → row.home < length self.now.ends.items }
        ensures exact { (row : UrbRow) (end : EndRow) → slice_get self.now.urbs.items urb.0 ≡ Some row → slice_get self.now.ends.items row.home ≡ Some end → result ≡ fault_of end.shape t.now }
        ensures shown { (s : Scene) (f : Progress) → Shows s f self.now → result ≡ fault_of (shape_at s (home s urb.0)) t.now }
    {
        let home = self.urbs[urb.0 as usize].home;
        shape_fault(&self.ends[home as usize].shape, t)
    }

    // Keeps the transfer in the URB's row.
    fn keep(&mut self, urb: UrbId, t: Transfer)
        requires { urb.0 < length self.old.urbs.items }
        ensures { Keeps self.old self.new urb.0 t }
    {
        self.urbs[urb.0 as usize].transfer = Some(t);
    }

    /// Sends the transfer, and keeps it where the gate accepted it. Answers what the gate says.
    pub fn send(&mut self, pass: u32, urb: UrbId, t: Transfer) -> Code
        requires known { urb.0 < urbs_of self.old.plain }
        requires there { urb.0 < length self.old.urbs.items }
        ensures { (s : Scene) (f : Progress) → MaySend s f self.old pass urb.0 t → Sent s f pass urb.0 t result self.new }
    {
        let code = submit_and_link(&mut self.plain, pass, urb, t.number);
        if let Code::Fault(_) = code {
            return code;
        }
        self.keep(urb, t);
        code
    }

    /// Submits the URB with the transfer of a call, where its endpoint takes that.
    pub fn submit(&mut self, pass: u32, urb: UrbId, t: Transfer) -> CallAnswer
        requires { CanSubmit self.old pass urb.0 t }
        ensures { (s : Scene) (f : Progress) (i : ℕ) (c : Call) → MayMake s f i c self.old pass (host_call.Submit urb.0) → t ≡ fresh s urb.0 c → Made s f i c result self.new }
    {
        if let Some(errno) = self.fault(urb, &t) {
            return CallAnswer::Code(Code::Fault(errno));
        }
        CallAnswer::Code(self.send(pass, urb, t))
    }
}
