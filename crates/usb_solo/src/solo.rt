//! A host for one thread: its only pass has the machine with it, and a diary.
ghost use Rattle.std.specs.Prelude.{◌≡◌, ℕ, ◌<◌, [], ◌∷◌, ◌++◌, slice_get, length, Some, None, true, MatchBool};
ghost use Rattle.usb_machine.specs.declared.event.Event.TheVariants.{Submit, Quiet, Claim};
ghost use Rattle.usb_machine.specs.declared.event.Answer.TheVariants.{Code as Status, Number};
ghost use Rattle.usb_machine.specs.State.{answer_of};
ghost use Rattle.usb_machine.specs.History.{HasHome, state_of, line_of};
ghost use Rattle.usb_machine.specs.Parts.{keeps};
ghost use Rattle.usb_machine.specs.Legal.{May, urb_of, end_of};
ghost use Rattle.usb_machine.specs.Plain.{HasRoom};
ghost use Rattle.usb_machine.specs.Shapes.{HasWindow, Accepts};
ghost use Rattle.usb_machine.specs.Replay.{IsWithin, machine_for};
ghost use Rattle.usb_machine.specs.Calls.{entry, plain_entry};
ghost use Rattle.usb_machine.specs.Fresh.{Fresh, Looked};
ghost use Rattle.usb_machine.specs.HostCalls.{IsUrb, answer_of_submit, HandsBack, fault_at, shape_of, number_of, RestedBeforeLast};
ghost use Rattle.usb_turn_host.specs.Stock.{IsStill, IsBusy};
ghost use Rattle.usb_solo.specs.Solo.{IsSolo, known_of};

use crate::diary::Diary;
use std::snapshot::Snapshot;
use usb_machine::{Answer, Event, Layout, Refused, Transfer, shape_fault};
use usb_turn_host::Stock;
use usb_types::{Code, Errno, UrbId};

/// The only pass, which has the machine with it.
#[derive(Drop)]
pub struct SoloPass {
    pub(crate) stock: Stock,
    pub(crate) diary: Diary,
    pub(crate) number: u32,
}

/// A host of one pass.
#[derive(Drop)]
pub struct SoloHost {
    pub(crate) layout: Layout,
    pub(crate) passes: u32,
    ghost homed: { (u e : ℕ) → slice_get layout.homes u ≡ Some (Some e) → e < length layout.shapes },
}

impl SoloHost {
    /// Makes an event that moves no transfer.
    pub(crate) fn make(&self, pass: &mut SoloPass, event: Event) -> Answer
        requires here { IsSolo (machine_for self.now.layout self.now.passes) pass.old }
        requires within { IsWithin (machine_for self.now.layout self.now.passes) event }
        requires still { IsStill event }
        requires may { May (machine_for self.now.layout self.now.passes) pass.old.diary pass.old.number event × HasRoom pass.old.diary pass.old.number event }
        ensures here { IsSolo (machine_for self.now.layout self.now.passes) pass.new }
        ensures fresh { Fresh (machine_for self.now.layout self.now.passes) (known_of pass.old) (known_of pass.new) (entry pass.old.number event result None ∷ []) }
        ensures answer { result ≡ answer_of event (state_of pass.old.diary (urb_of event)) (line_of (machine_for self.now.layout self.now.passes) pass.old.diary (end_of event)) }
    {
        let answer = pass.stock.make(pass.number, event);
        pass.diary.note(pass.number, event, answer, None);
        answer
    }

    pub(crate) fn see(&self, pass: &mut SoloPass, urb: UrbId) -> bool
        requires here { IsSolo (machine_for self.now.layout self.now.passes) pass.old }
        requires urb { IsUrb (machine_for self.now.layout self.now.passes) urb.0 }
        ensures here { IsSolo (machine_for self.now.layout self.now.passes) pass.new }
        ensures fresh { MatchBool result (Fresh (machine_for self.now.layout self.now.passes) (known_of pass.old) (known_of pass.new) (plain_entry pass.old.number (Quiet urb) ∷ [])) (Looked (machine_for self.now.layout self.now.passes) (known_of pass.old) (known_of pass.new) × IsBusy pass.new.diary urb.0) }
    {
        if pass.stock.quiet(pass.number, urb) {
            pass.diary
                .note(pass.number, Event::Quiet { urb }, Answer::Nothing, None);
            true
        } else {
            false
        }
    }

    pub(crate) fn take_rest(&self, pass: &mut SoloPass, urb: UrbId) -> Option<Transfer>
        requires here { IsSolo (machine_for self.now.layout self.now.passes) pass.old }
        requires urb { IsUrb (machine_for self.now.layout self.now.passes) urb.0 }
        requires kept { keeps pass.old.diary urb.0 ≡ true }
        ensures here { IsSolo (machine_for self.now.layout self.now.passes) pass.new }
        ensures fresh { Fresh (machine_for self.now.layout self.now.passes) (known_of pass.old) (known_of pass.new) (entry pass.old.number (Claim urb) (Number (number_of result)) None ∷ []) }
        ensures rested { RestedBeforeLast pass.new.diary urb.0 result }
    {
        let rested = pass.stock.claim(pass.number, urb);
        let number = match &rested {
            Some(t) => Some(t.number),
            None => None,
        };
        pass.diary.note(
            pass.number,
            Event::Claim { urb },
            Answer::Number(number),
            None,
        );
        rested
    }

    pub(crate) fn ask(&self, pass: &mut SoloPass, urb: UrbId, t: Transfer) -> Result<(), Refused>
        requires here { IsSolo (machine_for self.now.layout self.now.passes) pass.old }
        requires home { HasHome (machine_for self.now.layout self.now.passes) urb.0 }
        requires transfer { HasWindow t × (t.actual ≡ 0) × Accepts (shape_of (machine_for self.now.layout self.now.passes) urb.0) t }
        ensures here { IsSolo (machine_for self.now.layout self.now.passes) pass.new }
        ensures fresh { Fresh (machine_for self.now.layout self.now.passes) (known_of pass.old) (known_of pass.new) (entry pass.old.number (Submit urb t.number) (Status (answer_of_submit result)) (Some t) ∷ []) }
        ensures back { HandsBack t result }
    {
        let carried = Snapshot::of(&t);
        let event = Event::Submit {
            urb,
            number: t.number,
        };
        let asked = pass.stock.submit(pass.number, urb, t);
        let code = match &asked {
            Ok(()) => Code::Zero,
            Err(refused) => Code::Fault(refused.errno),
        };
        pass.diary
            .note(pass.number, event, Answer::Code(code), Some(carried));
        asked
    }

    pub(crate) fn fault(&self, urb: UrbId, t: &Transfer) -> Option<Errno>
        requires { HasHome (machine_for self.now.layout self.now.passes) urb.0 }
        ensures { result ≡ fault_at (shape_of (machine_for self.now.layout self.now.passes) urb.0) t.now }
    {
        match self.layout.homes.items()[urb.0 as usize] {
            Some(ep) => shape_fault(&self.layout.shapes.items()[ep as usize], t),
            None => None,
        }
    }
}
