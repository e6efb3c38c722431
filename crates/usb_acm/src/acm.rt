//! The core of a serial port's driver: what its completions mean, and what its transfers do next.
ghost use Rattle.std.specs.Prelude.{◌≡◌, ◌++◌, ◌∷◌, [], ◌+◌, ◌<◌, ◌^◌, List, length, OnOk, OnErr, IfOk};
ghost use Rattle.usb_acm.specs.Serial.{sets_coding as sets_coding_of};
ghost use Rattle.usb_acm.specs.Acm.{action_of};

use crate::event::Event;
use crate::notifications::push_notes;
use std::alloc::{AllocError, Global};
use std::marker::Model;
use usb_ctrl::Setup;
use usb_machine::Transfer;
use usb_types::{Action, Buf, Code, List, Memory, Role};

/// The core of a serial port's driver. It keeps the notification that is not whole yet, of fewer than 72 bytes, and all
/// events so far.
#[derive(Drop)]
pub struct Acm {
    alloc: Global,
    part: Vec<u8>,
    events: Vec<Event>,
    dropped: u64,
}

impl Model for Acm {
    ghost use Rattle.usb_acm.specs.Acm.{AcmState};

    ghost Value = { AcmState };

    ghost view = { λ a. record { part = a.part.items; events = a.events.items; dropped = a.dropped } };
}

impl Acm {
    ghost use Rattle.usb_machine.specs.Shapes.{HasWindow};
    ghost use Rattle.usb_acm.specs.Notifications.{notes, unfinished, Grown};
    ghost use Rattle.usb_machine.specs.Completion.{Completion};
    ghost use Rattle.usb_acm.specs.Serial.{capped, data_events, coding_events};
    ghost use Rattle.usb_acm.specs.Acm.{Notes, IsAfter, IsOfAcm};

    /// The core of a port that has said nothing. It takes no memory.
    pub fn new(alloc: Global) -> Acm
        ensures { IsAfter result [] }
    {
        Acm {
            alloc,
            part: Vec::new(alloc),
            events: Vec::new(alloc),
            dropped: 0,
        }
    }

    /// What happened so far.
    pub fn events(&self) -> &[Event]
        ensures { result.now ≡ self.now.events }
    {
        &self.events
    }

    /// What happened so far, with its memory.
    pub fn into_events(self) -> List<Event>
        ensures { result ≡ self.events }
    {
        List::of(self.events)
    }

    /// How many bytes came with reads that failed. It stays at 2^64 - 1 once it is there.
    pub fn dropped(&self) -> u64
        ensures { result ≡ self.now.dropped }
    {
        self.dropped
    }

    /// Takes note of an URB that came back, and says what becomes of its transfer. An `Err` changes nothing.
    pub fn complete(&mut self, role: Role, code: Code, t: &Transfer) -> Result<Action, Memory>
        requires role { IsOfAcm role }
        requires window { HasWindow t.now }
        ensures action { IfOk result (λ action. action ≡ action_of role code t.now) }
        ensures stands { (done : List Completion) → IsAfter self.old done → OnOk result (IsAfter self.new (done ++ record { role = role; status = code; transfer = t.now } ∷ [])) }
        ensures memory { OnErr result (self.new ≡ self.old) }
    {
        self.take_note(role, code, t)?;
        Ok(action(role, code, t))
    }

    /// Takes note of an URB that came back. An `Err` changes nothing.
    fn take_note(&mut self, role: Role, code: Code, t: &Transfer) -> Result<(), Memory>
        requires { HasWindow t.now }
        ensures ok { OnOk result (Notes self.old self.new record { role = role; status = code; transfer = t.now }) }
        ensures err { OnErr result (self.new ≡ self.old) }
    {
        let moved = t.moved();
        match (role, code) {
            (Role::Note, Code::Zero) => self.note(moved),
            (Role::Note, Code::Fault(_)) => {
                self.part.clear();
                Ok(())
            }
            (Role::Read0 | Role::Read1, Code::Zero) => self.receive(moved),
            (Role::Read0 | Role::Read1, Code::Fault(_)) => {
                self.lose(moved.len() as u64);
                Ok(())
            }
            (Role::Write, _) => {
                let actual = moved.len() as u32;
                self.tell(Event::Tx { actual, code })
            }
            (Role::Ctl, Code::Zero) => self.control(t.setup, moved),
            _ => Ok(()),
        }
    }

    /// Reports the notifications that are whole with these bytes, and keeps what follows them. An `Err` changes nothing.
    fn note(&mut self, moved: &[u8]) -> Result<(), Memory>
        ensures ok { OnOk result (self.new ≡ record self.old { part = unfinished (self.old.part ++ moved.now); events = self.old.events ++ notes (self.old.part ++ moved.now) }) }
        ensures err { OnErr result (self.new ≡ self.old) }
    {
        let gathered = self.part.len();
        let told = self.events.len();
        if self.gather(moved).is_err() {
            self.part.truncate(gathered);
            self.events.truncate(told);
            return Err(Memory);
        }
        Ok(())
    }

    /// Reports the notifications that are whole with these bytes, and keeps what follows them. An `Err` may leave bytes
    /// and events after those that stood.
    fn gather(&mut self, moved: &[u8]) -> Result<(), AllocError>
        ensures ok { OnOk result (self.new ≡ record self.old { part = unfinished (self.old.part ++ moved.now); events = self.old.events ++ notes (self.old.part ++ moved.now) }) }
        ensures part { OnErr result (Grown self.old.part self.new.part) }
        ensures events { OnErr result (Grown self.old.events self.new.events) }
        ensures dropped { OnErr result (self.new.dropped ≡ self.old.dropped) }
    {
        self.part.extend_from_slice(moved)?;
        let at = push_notes(&mut self.events, &self.part)?;
        self.part.drain(..at);
        Ok(())
    }

    /// Reports the bytes that came, where there are any. An `Err` changes nothing.
    fn receive(&mut self, moved: &[u8]) -> Result<(), Memory>
        ensures ok { OnOk result (self.new ≡ record self.old { events = self.old.events ++ data_events moved.now }) }
        ensures err { OnErr result (self.new ≡ self.old) }
    {
        if moved.is_empty() {
            return Ok(());
        }
        let bytes = Buf::copy(self.alloc, moved)?;
        self.tell(Event::Rx { bytes })
    }

    /// Counts bytes that are not reported.
    fn lose(&mut self, count: u64)
        ensures { self.new ≡ record self.old { dropped = capped (self.old.dropped + count) } }
    {
        self.dropped = self.dropped.saturating_add(count);
    }

    /// Reports the line coding that was sent, where the control transfer sets it. An `Err` changes nothing.
    fn control(&mut self, setup: Option<[u8; 8]>, moved: &[u8]) -> Result<(), Memory>
        ensures ok { OnOk result (self.new ≡ record self.old { events = self.old.events ++ coding_events setup moved.now }) }
        ensures err { OnErr result (self.new ≡ self.old) }
    {
        let Some(packet) = setup else {
            return Ok(());
        };
        if !sets_coding(packet) {
            return Ok(());
        }
        let bytes = Buf::copy(self.alloc, moved)?;
        self.tell(Event::Coding { bytes })
    }

    /// Adds an event. An `Err` changes nothing.
    fn tell(&mut self, event: Event) -> Result<(), Memory>
        ensures ok { OnOk result (self.new ≡ record self.old { events = self.old.events ++ event ∷ [] }) }
        ensures err { OnErr result (self.new ≡ self.old) }
    {
        self.events.push(event)?;
        Ok(())
    }
}

/// Whether a control transfer with this setup packet sets the line coding.
fn sets_coding(setup: [u8; 8]) -> bool
    ensures { result ≡ sets_coding_of setup }
{
    let asked = Setup::read(setup);
    asked.kind == 0x21 && asked.request == 0x20
}

fn action(role: Role, code: Code, t: &Transfer) -> Action
    requires { length t.now.buf < 2 ^ 32 }
    ensures { result ≡ action_of role code t.now }
{
    match role {
        Role::Note | Role::Read0 | Role::Read1 => t.read_again(code),
        _ => Action::Rest,
    }
}
