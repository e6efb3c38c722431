//! The server gives an URB back, and its completion handler runs.
ghost use Rattle.std.specs.Prelude.{◌≡◌, ◌<◌, ◌++◌, ◌∷◌, [], ℕ, List, true, length, slice_get, Some, IfSome, IfOk, OnErr};
ghost use Rattle.usb_machine.specs.declared.entry.Entry.{Entry};
ghost use Rattle.usb_machine.specs.Plain.{Stands, urbs_of};
ghost use Rattle.usb_machine.specs.Shapes.{HasWindow};
ghost use Rattle.usb_scene.specs.declared.scene.Scene.{Scene};
ghost use Rattle.usb_line.specs.declared.run.UrbRow.{UrbRow};
ghost use Rattle.usb_trace.specs.Plan.{machine_of};
ghost use Rattle.usb_trace.specs.Run.{Giveback, given_entries};
ghost use Rattle.usb_trace.specs.declared.rows.GivebackRow.{GivebackRow};
ghost use Rattle.usb_line.specs.Steps.{AsMany};
ghost use Rattle.usb_line.specs.Back.{is_again, CanAsk, CanPoseQuestion, QuestionBy, PosesQuestion, CanSettle, Settled, Finished, Acted, Resubmitted, GaveStatus, Handled, left_by, CanGiveBack, Kept, KeptAndNoted, HandlerRan, GaveBack, GaveUp};
ghost use Rattle.usb_class.specs.Handlers.{CanNote, Noted};

use crate::run::{LineRun, UrbRow};
use crate::steps::{code_in, enter};
use crate::submit::submit_and_link;
use std::alloc::Global;
use usb_class::{Owner, goes_again, with_window};
use usb_machine::{Event, Plain, SERVER, Transfer};
use usb_trace::{GivebackRow, Outcome, brought};
use usb_types::{Action, Code, Errno, Memory, UrbId};

// Marks the URB as finished where its transfer ended with a code.
fn finish(plain: &mut Plain, urb: UrbId, ended: Option<Code>)
    requires { urb.0 < urbs_of plain.old }
    ensures counts { AsMany plain.old plain.new }
    ensures finished { Finished plain.old plain.new urb.0 ended }
{
    if let Some(code) = ended {
        enter(plain, SERVER, Event::Finish { urb, code });
    }
}

// Gives the URB back, whose transfer ended with a code or was unlinked. Answers the status.
fn give(plain: &mut Plain, urb: UrbId, ended: Option<Code>) -> Code
    requires { urb.0 < urbs_of plain.old }
    ensures counts { AsMany plain.old plain.new }
    ensures given { GaveStatus plain.old plain.new urb.0 ended result }
{
    finish(plain, urb, ended);
    code_in(enter(plain, SERVER, Event::Give { urb }))
}

// The handler submits the transfer with this number again, and rests it where that is refused. Answers what the gate says.
fn resubmit(plain: &mut Plain, urb: UrbId, number: u64) -> Code
    requires { urb.0 < urbs_of plain.old }
    ensures counts { AsMany plain.old plain.new }
    ensures resubmitted { Resubmitted plain.old plain.new urb.0 number result }
{
    let code = code_in(enter(plain, SERVER, Event::Submit { urb, number }));
    if let Code::Fault(_) = code {
        enter(plain, SERVER, Event::Rest { urb, number });
        return code;
    }
    enter(plain, SERVER, Event::Link { urb });
    code
}

/// A driver-initiated transfer about to be submitted (printer: GET_PORT_STATUS): the place of its binding, the URB that it is
/// asked with, its transfer, and why the URB's endpoint does not take it, if it does not.
#[derive(Drop)]
pub struct PosedQuestion {
    pub place: u32,
    pub urb: UrbId,
    pub transfer: Transfer,
    pub fault: Option<Errno>,
}

// Asks a question of a driver, where its endpoint takes it. Answers the fault, or what the gate says.
fn pose(plain: &mut Plain, posed_question: &PosedQuestion) -> Code
    requires { posed_question.now.urb.0 < urbs_of plain.old }
    ensures counts { AsMany plain.old plain.new }
    ensures asked { PosesQuestion plain.old plain.new posed_question.now result }
{
    if let Some(errno) = posed_question.fault {
        return Code::Fault(errno);
    }
    submit_and_link(
        plain,
        SERVER,
        posed_question.urb,
        posed_question.transfer.number,
    )
}

// What the handler does: it submits the transfer with this number again, or rests it, and asks a question where there is one.
fn act(
    plain: &mut Plain,
    urb: UrbId,
    again: bool,
    number: u64,
    posed_question: &Option<PosedQuestion>,
) -> Outcome
    requires known { urb.0 < urbs_of plain.old }
    requires asks { IfSome posed_question.now (λ q. q.urb.0 < urbs_of plain.old) }
    ensures counts { AsMany plain.old plain.new }
    ensures acted { Acted plain.old plain.new urb.0 again number posed_question.now result }
{
    if again {
        return Outcome::Again(resubmit(plain, urb, number));
    }
    enter(plain, SERVER, Event::Rest { urb, number });
    match posed_question {
        Some(posed_question) => Outcome::Asked(pose(plain, posed_question)),
        None => Outcome::Rest,
    }
}

// Runs the handler of an URB that came back, which ends. Answers what it did.
fn handle(
    plain: &mut Plain,
    urb: UrbId,
    again: bool,
    number: u64,
    posed_question: &Option<PosedQuestion>,
) -> Outcome
    requires known { urb.0 < urbs_of plain.old }
    requires asks { IfSome posed_question.now (λ q. q.urb.0 < urbs_of plain.old) }
    ensures counts { AsMany plain.old plain.new }
    ensures handled { Handled plain.old plain.new urb.0 again number posed_question.now result }
{
    let outcome = act(plain, urb, again, number, posed_question);
    enter(plain, SERVER, Event::End { urb });
    outcome
}

// What a handler leaves with its URB of the transfer that came back.
fn left_with(outcome: Outcome, action: Action, t: Transfer) -> Option<Transfer>
    ensures { result ≡ left_by outcome action t }
{
    match outcome {
        Outcome::Again(Code::Zero) => Some(with_window(action, t)),
        _ => None,
    }
}

// The row that was kept last has what the handler did.
fn fill_in(given: &mut Vec<GivebackRow>, outcome: Outcome)
    requires { 0 < length given.old.items }
    ensures { (rows : List GivebackRow) (row : GivebackRow) → given.old.items ≡ rows ++ row ∷ [] → given.new.items ≡ rows ++ record row { outcome = outcome } ∷ [] }
{
    let last = given.len() - 1;
    given[last].outcome = outcome;
}

impl LineRun<'_> {
    // What becomes of a transfer that came back with this status: what the core of its driver says, and without one it goes
    // on with the same window where it may.
    fn decide(
        &mut self,
        owner: Option<Owner>,
        may: bool,
        status: Code,
        t: &Transfer,
    ) -> Result<Action, Memory>
        requires core { CanNote self.old.cores.items owner }
        requires window { HasWindow t.now }
        ensures noted { IfOk result (λ action. Noted self.old.cores.items self.new.cores.items owner may status t.now action) }
        ensures rest { self.new ≡ record self.old { cores = self.new.cores } }
    {
        match owner {
            Some(owner) => self.cores[owner.place as usize].complete(owner.role, status, t),
            None if may => Ok(Action::Again {
                from: t.from,
                len: t.len,
            }),
            None => Ok(Action::Rest),
        }
    }

    // The question of the driver that has the URB, where the action asks one that is not out.
    fn posed_question(&mut self, owner: Option<Owner>, action: Action) -> Option<PosedQuestion>
        requires core { CanPoseQuestion self.old.cores.items owner }
        requires near { CanAsk self.old owner }
        ensures asked { QuestionBy self.old self.new owner action result }
        ensures rest { self.new ≡ record self.old { cores = self.new.cores } }
    {
        let (Action::Ask, Some(owner)) = (action, owner) else {
            return None;
        };
        let urb = owner.ctl?;
        let transfer = self.cores[owner.place as usize].ask()?;
        Some(PosedQuestion {
            place: owner.place,
            urb,
            fault: self.fault(urb, &transfer),
            transfer,
        })
    }

    // Keeps the transfer of a question that was accepted with its URB, and gives back one that was not.
    fn settle(&mut self, posed_question: Option<PosedQuestion>, outcome: Outcome)
        requires { CanSettle self.old posed_question }
        ensures settled { Settled self.old self.new posed_question outcome }
    {
        let Some(posed_question) = posed_question else {
            return;
        };
        if let Outcome::Asked(Code::Zero) = outcome {
            self.urbs[posed_question.urb.0 as usize].transfer = Some(posed_question.transfer);
        } else {
            self.cores[posed_question.place as usize].unask(posed_question.transfer);
        }
    }

    // Keeps for the report what came back, but for what its handler does.
    fn remember(
        &mut self,
        alloc: Global,
        urb: u32,
        home: u32,
        status: Code,
        t: &Transfer,
    ) -> Result<(), Memory>
        requires home { home < length self.old.ends.items }
        requires window { HasWindow t.now }
        ensures kept { IfOk result (λ _. Kept self.old self.new urb home status t.now) }
        ensures rest { self.new ≡ record self.old { ends = self.new.ends; given = self.new.given } }
    {
        let shape = self.ends[home as usize].shape;
        let bytes = brought(alloc, &shape, t)?;
        self.ends[home as usize].received.note(&shape, t)?;
        self.given.push(GivebackRow {
            urb,
            status,
            actual: t.actual,
            outcome: Outcome::Rest,
            bytes,
        })?;
        Ok(())
    }

    // Keeps what came back, and lets the core of its driver take note.
    fn note(
        &mut self,
        alloc: Global,
        urb: u32,
        status: Code,
        t: &Transfer,
    ) -> Result<Action, Memory>
        requires there { urb < length self.old.urbs.items }
        requires home { (row : UrbRow) → slice_get self.old.urbs.items urb ≡ Some row → row.home < length self.old.ends.items }
        requires core { (row : UrbRow) → slice_get self.old.urbs.items urb ≡ Some row → CanNote self.old.cores.items row.owner }
        requires window { HasWindow t.now }
        ensures noted { IfOk result (λ action. KeptAndNoted self.old self.new urb status t.now action) }
        ensures rest { self.new ≡ record self.old { ends = self.new.ends; cores = self.new.cores; given = self.new.given } }
    {
        let row = &self.urbs[urb as usize];
        let (home, owner, again) = (row.home, row.owner, row.again);
        self.remember(alloc, urb, home, status, t)?;
        self.decide(owner, again > 0, status, t)
    }

    // Runs the handler of an URB that came back, whose core took note of it and said this.
    fn run_handler(&mut self, urb: u32, action: Action, t: Transfer)
        requires there { urb < length self.old.urbs.items }
        requires known { urb < urbs_of self.old.plain }
        requires kept { 0 < length self.old.given.items }
        requires core { (row : UrbRow) → slice_get self.old.urbs.items urb ≡ Some row → CanPoseQuestion self.old.cores.items row.owner }
        requires asks { (row : UrbRow) → slice_get self.old.urbs.items urb ≡ Some row → CanAsk self.old row.owner }
        ensures ran { HandlerRan self.old self.new urb action t }
    {
        let row = &self.urbs[urb as usize];
        let (home, owner, again) = (row.home, row.owner, row.again);
        let posed_question = self.posed_question(owner, action);
        let outcome = handle(
            &mut self.plain,
            UrbId(urb),
            goes_again(action),
            t.number,
            &posed_question,
        );
        fill_in(&mut self.given, outcome);
        self.urbs[urb as usize] = UrbRow {
            home,
            owner,
            again: again.saturating_sub(1),
            transfer: left_with(outcome, action, t),
        };
        self.settle(posed_question, outcome);
    }

    /// Gives the URB back with its transfer, which ended with a code or was unlinked, and runs its handler. Where memory is lacking
    /// the transfer rests, and the handler ends.
    pub fn give_back(
        &mut self,
        alloc: Global,
        urb: u32,
        ended: Option<Code>,
        t: Transfer,
    ) -> Result<(), Memory>
        requires can { CanGiveBack self.old urb }
        requires window { HasWindow t }
        ensures back { IfOk result (λ _. GaveBack self.old self.new urb ended t) }
        ensures lacking { OnErr result (GaveUp self.old self.new urb ended t) }
    {
        let status = give(&mut self.plain, UrbId(urb), ended);
        match self.note(alloc, urb, status, &t) {
            Ok(action) => {
                self.run_handler(urb, action, t);
                Ok(())
            }
            Err(memory) => {
                handle(&mut self.plain, UrbId(urb), false, t.number, &None);
                Err(memory)
            }
        }
    }
}
