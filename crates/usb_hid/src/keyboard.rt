//! The core of a boot keyboard's driver: what its completions mean, and what its transfers do next.
ghost use Rattle.std.specs.Prelude.{◌≡◌, ◌++◌, ◌∷◌, [], ◌<◌, ◌^◌, List, length, OnOk, OnErr, IfOk};
ghost use Rattle.usb_hid.specs.Keyboard.{action_of};

use crate::changes::{is_roll_over, push_codes, push_modifiers};
use crate::event::Event;
use std::alloc::{AllocError, Global};
use std::marker::Model;
use usb_machine::Transfer;
use usb_types::{Action, Code, List, Memory, Role};

/// The core of a boot keyboard's driver. It keeps what stands of the reports, and all events so far.
#[derive(Drop)]
pub struct Keyboard {
    modifiers: u8,
    codes: [u8; 6],
    events: Vec<Event>,
}

impl Model for Keyboard {
    ghost use Rattle.usb_hid.specs.Keyboard.{KeyboardState};

    ghost Value = { KeyboardState };

    ghost view = { λ k. record { modifiers = k.modifiers; codes = k.codes; events = k.events.items } };
}

impl Keyboard {
    ghost use Rattle.usb_machine.specs.Shapes.{HasWindow};
    ghost use Rattle.usb_machine.specs.Completion.{Completion};
    ghost use Rattle.usb_hid.specs.Changes.{modifier_changes, code_changes, Grown};
    ghost use Rattle.usb_hid.specs.Keyboard.{KeyboardState, Notes, IsAfter, IsOfKeyboard};
    ghost use Rattle.usb_types.specs.declared.urb.Role.TheVariants.{In, Ctl};
    ghost use Rattle.usb_types.specs.declared.errno.Code.TheVariants.{Zero};

    /// The core of a keyboard that has said nothing: no key is down.
    pub fn new(alloc: Global) -> Keyboard
        ensures { IsAfter result [] }
    {
        Keyboard {
            modifiers: 0,
            codes: [0; 6],
            events: Vec::new(alloc),
        }
    }

    /// What happened so far.
    pub fn events(&self) -> &[Event]
        ensures { result.now ≡ self.now.events }
    {
        &self.events
    }

    /// What happened so far, with its memory.
    pub fn into_events(self) -> List<Event>
        ensures { result ≡ self.events }
    {
        List::of(self.events)
    }

    /// Takes note of an URB that came back, its read or a control transfer, and says what becomes of its transfer.
    /// An `Err` changes nothing.
    pub fn complete(&mut self, role: Role, code: Code, t: &Transfer) -> Result<Action, Memory>
        requires role { IsOfKeyboard role }
        requires window { HasWindow t.now }
        ensures action { IfOk result (λ action. action ≡ action_of role code t.now) }
        ensures stands { (done : List Completion) → IsAfter self.old done → OnOk result (IsAfter self.new (done ++ record { role = role; status = code; transfer = t.now } ∷ [])) }
        ensures memory { OnErr result (self.new ≡ self.old) }
    {
        self.note(role, code, t)?;
        Ok(action(role, code, t))
    }

    /// Takes note of an URB that came back. An `Err` changes nothing.
    fn note(&mut self, role: Role, code: Code, t: &Transfer) -> Result<(), Memory>
        requires { HasWindow t.now }
        ensures ok { OnOk result (Notes self.old self.new record { role = role; status = code; transfer = t.now }) }
        ensures err { OnErr result (self.new ≡ self.old) }
    {
        match (role, code) {
            (Role::In, Code::Zero) => self.read(t),
            (Role::Ctl, Code::Zero) => self.light(t),
            _ => Ok(()),
        }
    }

    /// Takes note of a report, where the bytes that were moved begin with one. An `Err` changes nothing.
    fn read(&mut self, t: &Transfer) -> Result<(), Memory>
        requires { HasWindow t.now }
        ensures ok { OnOk result (Notes self.old self.new record { role = In; status = Zero; transfer = t.now }) }
        ensures err { OnErr result (self.new ≡ self.old) }
    {
        let moved = t.moved();
        if moved.len() < 8 {
            return Ok(());
        }
        let codes = &moved[2..8];
        self.tell(moved[0], codes)?;
        self.modifiers = moved[0];
        if !is_roll_over(codes) {
            self.codes.copy_from_slice(codes);
        }
        Ok(())
    }

    /// Adds what changes. An `Err` adds nothing.
    fn tell(&mut self, modifiers: u8, codes: &[u8]) -> Result<(), Memory>
        ensures ok { OnOk result (self.new ≡ record self.old { events = self.old.events ++ modifier_changes self.old.modifiers modifiers ++ code_changes self.old.codes codes.now }) }
        ensures err { OnErr result (self.new ≡ self.old) }
    {
        let told = self.events.len();
        if self.push_changes(modifiers, codes).is_err() {
            self.events.truncate(told);
            return Err(Memory);
        }
        Ok(())
    }

    /// Adds what changes. An `Err` may leave some of it.
    fn push_changes(&mut self, modifiers: u8, codes: &[u8]) -> Result<(), AllocError>
        ensures ok { OnOk result (self.new ≡ record self.old { events = self.old.events ++ modifier_changes self.old.modifiers modifiers ++ code_changes self.old.codes codes.now }) }
        ensures err { OnErr result (self.new ≡ record self.old { events = self.new.events }) }
        ensures grown { OnErr result (Grown self.old.events self.new.events) }
    {
        push_modifiers(&mut self.events, self.modifiers, modifiers)?;
        push_codes(&mut self.events, &self.codes, codes)
    }

    /// Takes note of the lights that were sent, where any were. An `Err` changes nothing.
    fn light(&mut self, t: &Transfer) -> Result<(), Memory>
        requires { HasWindow t.now }
        ensures ok { OnOk result (Notes self.old self.new record { role = Ctl; status = Zero; transfer = t.now }) }
        ensures err { OnErr result (self.new ≡ self.old) }
    {
        let Some(lights) = t.moved().first() else {
            return Ok(());
        };
        self.events.push(Event::Led { lights: *lights })?;
        Ok(())
    }
}

fn action(role: Role, code: Code, t: &Transfer) -> Action
    requires { length t.now.buf < 2 ^ 32 }
    ensures { result ≡ action_of role code t.now }
{
    match role {
        Role::In => t.read_again(code),
        _ => Action::Rest,
    }
}
