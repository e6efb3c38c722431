//! How a device replies to setup packets, request by request.
ghost use Rattle.std.specs.Prelude.{◌≡◌, ◌<◌, ◌^◌, ◌∷◌, [], true, if◌then◌else◌, length, MatchOption};
ghost use Rattle.usb_xfer.specs.Replies.{HearsControl, room_after, control_in_heard};
ghost use Rattle.usb_xfer.specs.declared.script.Kind.TheVariants.{Keyboard, Acm};
ghost use Rattle.usb_device.specs.Rules.{bytes_or, default_desc, config_value, named_by, is_halted, halts, gives, standard_given, class_given, given, with_address, with_configuration, standard_taken, class_taken, taken, control_rule};
ghost use Rattle.usb_device.specs.Took.{Took};

use crate::heard::put;
use crate::requests::*;
use crate::state::DeviceState;
use usb_ctrl::Setup;
use usb_types::Buf;
use usb_xfer::{CtrlReply, DeviceScript, Kind, is_in};

// The descriptor of a device that gives none.
static DEFAULT_DESC: [u8; 18] = [
    0x12, 0x01, 0x00, 0x02, 0x00, 0x00, 0x00, 0x40, 0x09, 0x12, 0x01, 0x00, 0x00, 0x01, 0x00, 0x00,
    0x00, 0x01,
];

// Bytes that may be there, or others.
fn bytes_or<'s>(bytes: &'s Option<Buf>, others: &'s [u8]) -> &'s [u8]
    ensures { result.now ≡ bytes_or bytes.now others.now }
{
    match bytes {
        Some(bytes) => bytes.bytes(),
        None => others,
    }
}

// Bytes that may be there.
fn lent(bytes: &Option<Buf>) -> Option<&[u8]>
    ensures { MatchOption result (bytes.now ≡ None) (λ some. bytes.now ≡ Some some.now) }
{
    match bytes {
        Some(bytes) => Some(bytes.bytes()),
        None => None,
    }
}

// The device's descriptor.
fn device_desc(script: &DeviceScript) -> &[u8]
    ensures { result.now ≡ bytes_or script.now.desc default_desc }
{
    bytes_or(&script.desc, &DEFAULT_DESC)
}

// The value that sets the configuration.
fn config_value(script: &DeviceScript) -> u8
    ensures { result ≡ config_value script.now }
{
    match bytes_or(&script.config, &[]).get(5) {
        Some(value) => *value,
        None => 0,
    }
}

impl DeviceState {
    // Whether the address is halted that a request names.
    fn is_halted(&self, setup: Setup) -> bool
        ensures { result ≡ is_halted self.now (named_by setup) }
    {
        self.halted[(setup.index % 256) as usize]
    }

    // The status of an endpoint (USB 2.0 §9.4.5).
    fn end_status(&self, setup: Setup) -> &[u8]
        ensures { result.now ≡ (if is_halted self.now (named_by setup) then 1 else 0) ∷ 0 ∷ [] }
    {
        if self.is_halted(setup) {
            &[1, 0]
        } else {
            &[0, 0]
        }
    }

    // What a device gives.
    fn standard_given<'s>(&'s self, script: &'s DeviceScript, setup: Setup) -> Option<&'s [u8]>
        ensures { MatchOption result (standard_given script.now self.now setup ≡ None) (λ bytes. standard_given script.now self.now setup ≡ Some bytes.now) }
    {
        match (setup.kind, setup.request) {
            (FROM_DEVICE, GET_DESCRIPTOR) if setup.value == DEVICE => Some(device_desc(script)),
            (FROM_DEVICE, GET_DESCRIPTOR) if setup.value == CONFIGURATION => lent(&script.config),
            (FROM_DEVICE, GET_CONFIGURATION) => Some(std::slice::from_ref(&self.configuration)),
            (FROM_DEVICE | FROM_INTERFACE, GET_STATUS) => Some(&[0, 0]),
            (FROM_ENDPOINT, GET_STATUS) => Some(self.end_status(setup)),
            (FROM_INTERFACE, GET_INTERFACE) => Some(&[0]),
            _ => None,
        }
    }

    // What a class gives.
    fn class_given<'s>(&'s self, script: &'s DeviceScript, setup: Setup) -> Option<&'s [u8]>
        ensures { MatchOption result (class_given script.now.kind script.now self.now setup ≡ None) (λ bytes. class_given script.now.kind script.now self.now setup ≡ Some bytes.now) }
    {
        match (script.kind, setup.request) {
            (Kind::Acm, GET_LINE_CODING) => Some(&self.coding),
            (Kind::Printer, GET_DEVICE_ID) => lent(&script.id),
            (Kind::Printer, GET_PORT_STATUS) => Some(std::slice::from_ref(&script.port)),
            _ => None,
        }
    }

    // What is given to a request for data.
    fn given<'s>(&'s self, script: &'s DeviceScript, setup: Setup) -> Option<&'s [u8]>
        ensures { MatchOption result (given script.now self.now setup ≡ None) (λ bytes. given script.now self.now setup ≡ Some bytes.now) }
    {
        if setup.kind == FROM_CLASS {
            self.class_given(script, setup)
        } else {
            self.standard_given(script, setup)
        }
    }

    // Takes an address, before a configuration.
    fn set_address(&mut self, value: u16) -> bool
        ensures { Took (with_address self.old value) self.old self.new result }
    {
        if self.configuration != 0 {
            return false;
        }
        self.address = (value % 256) as u8;
        true
    }

    // Takes a configuration, after an address.
    fn set_configuration(&mut self, script: &DeviceScript, value: u16) -> bool
        ensures { Took (with_configuration script.now self.old value) self.old self.new result }
    {
        if self.address == 0 || value != 0 && value != config_value(script) as u16 {
            return false;
        }
        self.configuration = value as u8;
        true
    }

    // Halts the address that a request names, or ends its halt.
    fn halt(&mut self, setup: Setup, halted: bool) -> bool
        ensures state { self.new ≡ halts halted setup self.old }
        ensures done { result ≡ true }
    {
        self.halted[(setup.index % 256) as usize] = halted;
        true
    }

    // Takes what a device takes. Answers whether it was.
    fn standard_taken(&mut self, script: &DeviceScript, setup: Setup) -> bool
        ensures { Took (standard_taken script.now self.old setup) self.old self.new result }
    {
        match (setup.kind, setup.request) {
            (TO_DEVICE, SET_ADDRESS) => self.set_address(setup.value),
            (TO_DEVICE, SET_CONFIGURATION) => self.set_configuration(script, setup.value),
            (TO_ENDPOINT, CLEAR_FEATURE) if setup.value == ENDPOINT_HALT => self.halt(setup, false),
            (TO_ENDPOINT, SET_FEATURE) if setup.value == ENDPOINT_HALT => self.halt(setup, true),
            (TO_INTERFACE, SET_INTERFACE) => setup.value == 0,
            _ => false,
        }
    }

    // Takes what a keyboard takes.
    fn keyboard_taken(&mut self, setup: Setup, out: &[u8]) -> bool
        ensures { Took (class_taken Keyboard self.old setup out.now) self.old self.new result }
    {
        match setup.request {
            SET_REPORT if out.len() == 1 => {
                self.leds = out[0];
                true
            }
            SET_IDLE => true,
            SET_PROTOCOL => setup.value <= 1,
            _ => false,
        }
    }

    // Takes what a modem takes.
    fn modem_taken(&mut self, setup: Setup, out: &[u8]) -> bool
        ensures { Took (class_taken Acm self.old setup out.now) self.old self.new result }
    {
        match setup.request {
            SET_LINE_CODING if out.len() == self.coding.len() => {
                self.coding.copy_from_slice(out);
                true
            }
            SET_CONTROL_LINE_STATE => {
                self.lines = setup.value;
                true
            }
            SEND_BREAK => true,
            _ => false,
        }
    }

    // Takes what a class takes.
    fn class_taken(&mut self, kind: Kind, setup: Setup, out: &[u8]) -> bool
        ensures { Took (class_taken kind self.old setup out.now) self.old self.new result }
    {
        match kind {
            Kind::Raw => false,
            Kind::Keyboard => self.keyboard_taken(setup, out),
            Kind::Acm => self.modem_taken(setup, out),
            Kind::Printer => setup.request == SOFT_RESET,
        }
    }

    // Takes what a request sets.
    fn take(&mut self, script: &DeviceScript, setup: Setup, out: &[u8]) -> bool
        ensures { Took (taken script.now self.old setup out.now) self.old self.new result }
    {
        if setup.kind == TO_CLASS {
            self.class_taken(script.kind, setup, out)
        } else {
            self.standard_taken(script, setup)
        }
    }

    // Replies to a request for data, with no more of them than it wants.
    fn give(&self, script: &DeviceScript, setup: Setup, room: &mut [u8]) -> CtrlReply
        ensures room { room.new ≡ room_after (gives self.now setup.length (given script.now self.now setup)).reply room.old }
        ensures heard { result ≡ control_in_heard (gives self.now setup.length (given script.now self.now setup)).reply }
    {
        match self.given(script, setup) {
            Some(bytes) => {
                let count = bytes.len().min(setup.length as usize);
                CtrlReply::Moved(put(&bytes[..count], room))
            }
            None => CtrlReply::Stall,
        }
    }

    /// Replies to a setup packet by the rules, and changes by them.
    pub fn reply(
        &mut self,
        script: &DeviceScript,
        setup: Setup,
        out: &[u8],
        room: &mut [u8],
    ) -> CtrlReply
        requires { length out.now < 2 ^ 32 }
        ensures state { self.new ≡ (control_rule script.now self.old setup out.now).state }
        ensures heard { HearsControl setup out.now (control_rule script.now self.old setup out.now).reply room.old room.new result }
    {
        if is_in(setup.kind) {
            self.give(script, setup, room)
        } else if self.take(script, setup, out) {
            CtrlReply::Moved(out.len() as u32)
        } else {
            CtrlReply::Stall
        }
    }
}
