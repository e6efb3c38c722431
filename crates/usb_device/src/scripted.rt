//! The scripted device.
ghost use Rattle.std.specs.Prelude.{◌≡◌, vec_len};

use crate::acked::Acked;
use crate::counted::counted;
use crate::heard::{heard_control, is_taken};
use crate::kind::{free, is_raw};
use crate::place::Place;
use crate::said::Said;
use crate::state::DeviceState;
use std::alloc::Global;
use usb_ctrl::Setup;
use usb_types::Memory;
use usb_xfer::{Answers, CtrlReply, Device, DeviceScript, InReply, OutReply, What};

// How many addresses a byte can name.
const ADDRESSES: usize = 256;

/// An address of a scripted device.
#[derive(Drop)]
pub struct ScriptedEnd<'a> {
    pub place: Place<'a>,
    pub acked: Acked,
}

impl<'a> ScriptedEnd<'a> {
    ghost use Rattle.std.specs.Prelude.{◌≡◌, true};
    ghost use Rattle.usb_device.specs.Short.{lines_are_short};
    ghost use Rattle.usb_device.specs.Fresh.{IsFresh};

    fn new(lines: &'a [Answers]) -> ScriptedEnd<'a>
        requires { lines_are_short lines.now ≡ true }
        ensures { IsFresh lines.now result }
    {
        ScriptedEnd {
            place: Place::new(lines),
            acked: Acked::new(),
        }
    }
}

/// A device that replies by its script.
#[derive(Drop)]
pub struct Scripted<'a> {
    script: &'a DeviceScript,
    /// How many more control transfers use no item.
    free: u8,
    state: DeviceState,
    /// How many items were used, at most `u64::MAX`.
    used: u64,
    /// A place and a count for each address, by its byte.
    ends: Vec<ScriptedEnd<'a>>,
    ghost all_ends: { vec_len ends ≡ 256 },
}

impl<'a> Scripted<'a> {
    ghost use Rattle.std.specs.Prelude.{ℕ, ◌≡◌, ◌≢◌, ◌-◌, ◌^◌, List, [], true, min, length, take, IfOk};
    ghost use Rattle.usb_xfer.specs.Replies.{Question};
    ghost use Rattle.usb_xfer.specs.declared.script.DeviceScript.{DeviceScript};
    ghost use Rattle.usb_device.specs.Short.{is_short, lines_are_short};
    ghost use Rattle.usb_device.specs.Device.{Call, acked_at, Stands};
    ghost use Rattle.usb_device.specs.Said.{packet_word, Uses, IsAsked, Spends};
    ghost use Rattle.usb_device.specs.Places.{next_or};
    ghost use Rattle.usb_xfer.specs.declared.script.What.TheVariants.{Nak};
    ghost use Rattle.usb_device.specs.Replied.{call_of};

    /// The device before any call. No later call takes memory.
    pub fn new(alloc: Global, script: &'a DeviceScript) -> Result<Scripted<'a>, Memory>
        requires { lines_are_short script.now.answers ≡ true }
        ensures { IfOk result (λ d. Stands d script.now []) }
    {
        let mut ends = Vec::new(alloc);
        for _ in 0..ADDRESSES {
            ends.push(ScriptedEnd::new(script.answers.items()))?;
        }
        Ok(Scripted {
            script,
            free: free(script.kind),
            state: DeviceState::new(),
            used: 0,
            ends,
        })
    }

    /// How many bytes an address acknowledged, at most `u64::MAX`, and the first 64 of them.
    pub fn received(&self, address: u8) -> (u64, &[u8])
        ensures { (script : DeviceScript) (calls : List Call) → Stands self.now script calls
            → (result.0 ≡ min (length (acked_at script calls address)) (2 ^ 64 - 1)) × (result.1.now ≡ take 64 (acked_at script calls address)) }
    {
        let acked = &self.ends[address as usize].acked;
        (acked.count, acked.kept())
    }

    // Uses an item of an address, and gives it.
    fn next(&mut self, address: u8) -> Option<&'a What>
        ensures used { Uses self.old self.new address result }
        ensures short { is_short (next_or Nak result) ≡ true }
    {
        let next = self.ends[address as usize].place.next(address);
        self.used = counted(self.used, &next);
        next
    }

    // What the script replies at 00.
    fn said_at_00(&mut self) -> Said<'a>
        ensures short { is_short (packet_word result) ≡ true }
        ensures asked { (script : DeviceScript) (calls : List Call) (question : Question) → Stands self.old script calls → IsAsked self.new script calls (call_of 0 question) result }
        ensures spends { Spends self.old self.new 0 (packet_word result) }
    {
        if self.free > 0 {
            self.free -= 1;
            return Said::Rules;
        }
        let next = self.next(0);
        if is_raw(self.script.kind) {
            Said::or_last(next, 0)
        } else {
            Said::or_rules(next)
        }
    }

    // What the script replies at another address.
    fn said_at_end(&mut self, address: u8) -> Said<'a>
        requires { address ≢ 0 }
        ensures short { is_short (packet_word result) ≡ true }
        ensures asked { (script : DeviceScript) (calls : List Call) (question : Question) → Stands self.old script calls → IsAsked self.new script calls (call_of address question) result }
        ensures spends { Spends self.old self.new address (packet_word result) }
    {
        if self.state.halted[address as usize] {
            return Said::Other(What::Stall);
        }
        let next = self.next(address);
        Said::or_last(next, address)
    }

    // What the script replies to a question at an address.
    fn said(&mut self, address: u8) -> Said<'a>
        ensures short { is_short (packet_word result) ≡ true }
        ensures asked { (script : DeviceScript) (calls : List Call) (question : Question) → Stands self.old script calls → IsAsked self.new script calls (call_of address question) result }
        ensures spends { Spends self.old self.new address (packet_word result) }
    {
        if address == 0 {
            self.said_at_00()
        } else {
            self.said_at_end(address)
        }
    }
}

impl Device for Scripted<'_> {
    ghost use Rattle.usb_device.specs.Replied.{Replied};

    ghost replies = { λ old address question r new. Replied old address question r new };

    ghost items_used = { λ d. d.used };

    ghost never_falls = { λ old address question r new is. is.rises };

    fn used(&self) -> u64 {
        self.used
    }

    fn input(&mut self, address: u8, room: &mut [u8]) -> InReply {
        self.said(address).heard_in(room)
    }

    fn output(&mut self, address: u8, packet: &[u8]) -> OutReply {
        let heard = self.said(address).heard_out();
        if is_taken(heard) {
            self.ends[address as usize].acked.add(packet);
        }
        heard
    }

    fn control(&mut self, setup: Setup, out: &[u8], room: &mut [u8]) -> CtrlReply {
        match self.said(0) {
            Said::Item(what) => heard_control(what, setup, out, room),
            Said::Other(what) => heard_control(&what, setup, out, room),
            Said::Rules => self.state.reply(self.script, setup, out, room),
        }
    }
}
