//! The side over a machine with its transfers, for one caller at a time.
ghost use Rattle.std.specs.Prelude.{ℕ, ◌≡◌, ◌<◌, ◌≤◌, IfOk, ◌++◌, ◌∷◌, [], List, length, slice_get, slice_set, Some, None, Option};
ghost use Rattle.usb_machine.specs.declared.entry.Entry.{Entry};
ghost use Rattle.usb_machine.specs.History.{Machine};
ghost use Rattle.usb_machine.specs.Plain.{Stands, IsLayout};
ghost use Rattle.usb_machine.specs.Replay.{machine_for};
ghost use Rattle.usb_serve.specs.Plain.{IsPlainAt};
ghost use Rattle.usb_serve.specs.declared.plain_side.Slots.{Slots};
ghost use Rattle.usb_serve.specs.Plain.{answered_urb, answered_truth, answered_code, IsPlain, plain_knows, PlainTakes, PlainLooks, PlainFinishes, PlainGives};

use crate::side::Side;
use std::alloc::{AllocError, Global};
use usb_machine::{Answer, Event, Layout, Look, Plain, SERVER, Transfer};
use usb_types::{Code, Memory, UrbId};

/// The transfers of an URB: in its line, and at rest.
#[derive(Drop)]
pub struct Slots {
    /// The transfer while the URB is in the line.
    pub line: Option<Transfer>,
    /// The number of the transfer that was submitted last.
    pub number: u64,
    /// The transfer that rests with the URB.
    pub rest: Option<Transfer>,
}

/// A machine with its transfers.
#[derive(Drop)]
pub struct PlainSide<'a> {
    pub(crate) layout: &'a Layout,
    pub(crate) plain: Plain,
    pub(crate) urbs: Vec<Slots>,
}

/// An URB that was given back.
#[derive(Drop)]
pub struct PlainGiven {
    pub urb: UrbId,
    pub code: Code,
    pub transfer: Option<Transfer>,
}

// The URB that a Take answers.
fn urb_in(answer: Answer) -> UrbId
    ensures { result ≡ answered_urb answer }
{
    match answer {
        Answer::Urb(urb) => urb,
        _ => UrbId(0),
    }
}

// What a Finish answers.
fn truth_in(answer: Answer) -> bool
    ensures { result ≡ answered_truth answer }
{
    match answer {
        Answer::Truth(truth) => truth,
        _ => false,
    }
}

// The status that a Give answers.
pub(crate) fn code_in(answer: Answer) -> Code
    ensures { result ≡ answered_code answer }
{
    match answer {
        Answer::Code(code) => code,
        _ => Code::Zero,
    }
}

fn empty_slots(alloc: Global, count: usize) -> Result<Vec<Slots>, AllocError>
    ensures { IfOk result (λ v. length v.items ≡ count) }
{
    let mut urbs = Vec::with_capacity(alloc, count)?;
    for _ in 0..count {
        urbs.push(Slots {
            line: None,
            number: 0,
            rest: None,
        })?;
    }
    Ok(urbs)
}

impl<'a> PlainSide<'a> {
    /// A machine before any event.
    pub fn new(alloc: Global, layout: &'a Layout, passes: u32) -> Result<PlainSide<'a>, Memory>
        requires passes { (0 < passes) × (passes ≤ 64) }
        requires layout { IsLayout layout.now }
        ensures layout { IfOk result (λ s. s.layout.now ≡ layout.now) }
        ensures opens { IfOk result (λ s. IsPlainAt s (machine_for layout.now passes) []) }
    {
        let plain = Plain::new(alloc, layout, passes)?;
        let urbs = empty_slots(alloc, layout.homes.items().len())?;
        Ok(PlainSide {
            layout,
            plain,
            urbs,
        })
    }
}

impl PlainSide<'_> {
    // Takes the transfer of an URB out of its line.
    fn take_line(&mut self, urb: UrbId) -> Option<Transfer>
        requires { urb.0 < length self.old.urbs.items }
        ensures line { (row : Slots) → slice_get self.old.urbs.items urb.0 ≡ Some row → (result ≡ row.line) × (self.new.urbs.items ≡ slice_set self.old.urbs.items urb.0 (record row { line = None })) }
        ensures same { (self.new.plain ≡ self.old.plain) × (self.new.layout ≡ self.old.layout) }
    {
        self.urbs[urb.0 as usize].line.take()
    }
}

impl Side for PlainSide<'_> {
    type Given = PlainGiven;

    ghost knows = { plain_knows };

    ghost takes = { PlainTakes };

    ghost looks = { PlainLooks };

    ghost finishes = { PlainFinishes };

    ghost gives = { PlainGives };

    fn take(&mut self, ep: u32) -> Option<(UrbId, Transfer)> {
        if self.plain.waiting(ep) == 0 {
            return None;
        }
        let urb = urb_in(self.plain.step(SERVER, Event::Take { ep }));
        match self.take_line(urb) {
            Some(t) => Some((urb, t)),
            None => unreachable!(),
        }
    }

    fn look(&mut self, urb: UrbId) -> Look {
        match self.plain.mark(urb) {
            Some(why) => Look::Marked(why),
            None => Look::Clean,
        }
    }

    fn finish(&mut self, urb: UrbId, code: Code) -> bool {
        truth_in(self.plain.step(SERVER, Event::Finish { urb, code }))
    }

    fn give(&mut self, urb: UrbId, t: Transfer) -> PlainGiven {
        PlainGiven {
            urb,
            code: code_in(self.plain.step(SERVER, Event::Give { urb })),
            transfer: Some(t),
        }
    }

    fn may_give(&self) -> bool {
        for urb in 0..self.urbs.len() {
            if self.plain.handlers(UrbId(urb as u32)) >= 1 << 63 {
                return false;
            }
        }
        true
    }
}
