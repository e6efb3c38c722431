//! The core of a printer's driver: what its completions mean, what its transfers do next, and its question for the port's status.
ghost use Rattle.std.specs.Prelude.{◌≡◌, ◌++◌, ◌∷◌, [], true, false, if◌then◌else◌, List, Some, None, OnOk, OnErr, IfOk, ℕ};
ghost use Rattle.std.specs.Option.{ForSome, option_to_list};
ghost use Rattle.usb_printer.specs.Requests.{question_of};
ghost use Rattle.usb_printer.specs.Printer.{is_question};

use crate::event::Event;
use crate::ids::id_text;
use crate::jobs::{action, event};
use crate::requests::question;
use std::alloc::Global;
use std::marker::Model;
use usb_machine::Transfer;
use usb_types::{Action, Code, List, Memory, Role};

/// The core of a printer's driver. It keeps its question while that is not out, and all events so far.
#[derive(Drop)]
pub struct Printer {
    alloc: Global,
    number: u64,
    interface: u8,
    question: Option<Transfer>,
    events: Vec<Event>,
    ghost fresh: { ForSome question (λ t. t ≡ question_of number interface) },
}

impl Model for Printer {
    ghost use Rattle.std.specs.Option.{is_none};
    ghost use Rattle.usb_printer.specs.Printer.{PrinterState};

    ghost Value = { PrinterState };

    ghost view = { λ p. record { number = p.number; interface = p.interface; out = is_none p.question; events = p.events.items } };
}

impl Printer {
    ghost use Rattle.usb_machine.specs.Shapes.{HasWindow};
    ghost use Rattle.usb_printer.specs.Ids.{id_events};
    ghost use Rattle.usb_machine.specs.Completion.{Completion};
    ghost use Rattle.usb_printer.specs.Jobs.{action_of};
    ghost use Rattle.usb_printer.specs.Printer.{PrinterState, IsOfPrinter, IsAfter, noted};

    /// The core of a printer to which nothing came back yet. The id is the reply to GET_DEVICE_ID, and empty where there
    /// was none; the number is the question's.
    pub fn new(alloc: Global, number: u64, interface: u8, id: &[u8]) -> Result<Printer, Memory>
        ensures core { IfOk result (λ core. core ≡ record { number = number; interface = interface; out = false; events = id_events id.now }) }
        ensures stands { IfOk result (λ core. IsAfter core id.now []) }
    {
        let question = question(alloc, number, interface)?;
        let mut printer = Printer {
            alloc,
            number,
            interface,
            question: Some(question),
            events: Vec::new(alloc),
        };
        if id.len() >= 2 {
            printer.tell(Some(Event::Id {
                text: id_text(alloc, id)?,
            }))?;
        }
        Ok(printer)
    }

    /// What happened so far.
    pub fn events(&self) -> &[Event]
        ensures { result.now ≡ self.now.events }
    {
        &self.events
    }

    /// What happened so far, with its memory.
    pub fn into_events(self) -> List<Event>
        ensures { result ≡ self.events }
    {
        List::of(self.events)
    }

    /// Gives the question for the port's status, where it is not out.
    pub fn ask(&mut self) -> Option<Transfer>
        ensures question { result ≡ (if self.old.out then None else Some (question_of self.old.number self.old.interface)) }
        ensures out { self.new ≡ record self.old { out = true } }
    {
        self.question.take()
    }

    /// Takes the question back, as `ask` gave it.
    pub fn unask(&mut self, t: Transfer)
        requires out { self.old.out ≡ true }
        requires question { t ≡ question_of self.old.number self.old.interface }
        ensures { self.new ≡ record self.old { out = false } }
    {
        self.question = Some(t);
    }

    /// Takes note of an URB that came back, of a job or a control transfer, and says what becomes of its transfer. A
    /// question that came back can be asked anew. An `Err` changes nothing.
    pub fn complete(&mut self, role: Role, code: Code, t: &Transfer) -> Result<Action, Memory>
        requires role { IsOfPrinter role }
        requires window { HasWindow t.now }
        ensures action { IfOk result (λ action. action ≡ action_of role code t.now) }
        ensures core { OnOk result (self.new ≡ noted self.old record { role = role; status = code; transfer = t.now }) }
        ensures stands { (id : List ℕ) (done : List Completion) → IsAfter self.old id done → OnOk result (IsAfter self.new id (done ++ record { role = role; status = code; transfer = t.now } ∷ [])) }
        ensures memory { OnErr result (self.new ≡ self.old) }
    {
        self.note(role, code, t)?;
        Ok(action(role, code, t))
    }

    /// Takes note of an URB that came back. An `Err` changes nothing.
    fn note(&mut self, role: Role, code: Code, t: &Transfer) -> Result<(), Memory>
        requires { HasWindow t.now }
        ensures ok { OnOk result (self.new ≡ noted self.old record { role = role; status = code; transfer = t.now }) }
        ensures err { OnErr result (self.new ≡ self.old) }
    {
        let told = event(role, code, t);
        if !is_question(self.number, role, t) {
            return self.tell(told);
        }
        let question = question(self.alloc, self.number, self.interface)?;
        self.tell(told)?;
        self.question = Some(question);
        Ok(())
    }

    /// Adds an event, where there is one. An `Err` adds nothing.
    fn tell(&mut self, event: Option<Event>) -> Result<(), Memory>
        ensures ok { OnOk result (self.new ≡ record self.old { events = self.old.events ++ option_to_list event }) }
        ensures err { OnErr result (self.new ≡ self.old) }
    {
        let Some(event) = event else {
            return Ok(());
        };
        self.events.push(event)?;
        Ok(())
    }
}

fn is_question(question: u64, role: Role, t: &Transfer) -> bool
    ensures { result ≡ is_question question role t.now }
{
    role == Role::Ctl && t.number == question
}
