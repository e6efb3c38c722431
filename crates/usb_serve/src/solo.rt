//! A host for one caller at a time: it serves, waits, unlinks, kills, poisons and blocks.
ghost use Rattle.std.specs.Prelude.{ℕ, ◌≡◌, ◌<◌, ◌≤◌, ◌^◌, ◌-◌, ◌++◌, ◌∷◌, [], List, length, slice_get, Some, None, Option, All, IfOk, Contains, IsTrue, ◌↔◌, Ok, true, false};
ghost use Rattle.usb_machine.specs.declared.entry.Entry.{Entry};
ghost use Rattle.usb_machine.specs.declared.layout.Shape.{Shape};
ghost use Rattle.usb_machine.specs.History.{Machine, state_of};
ghost use Rattle.usb_machine.specs.Plain.{IsLayout, IsInside, IsNext, urbs_of};
ghost use Rattle.usb_machine.specs.State.{answer_of, unlinking};
ghost use Rattle.usb_machine.specs.Parts.{part_of, held_of, holds_any};
ghost use Rattle.usb_machine.specs.Legal.{urb_of};
ghost use Rattle.usb_machine.specs.Calls.{entry, claim_entries, unlink_entries, block_entries, unblock_entries};
ghost use Rattle.usb_machine.specs.Replay.{machine_for};
ghost use Rattle.usb_serve.specs.declared.solo.Waited.TheVariants.{Idle, Busy};
ghost use Rattle.usb_serve.specs.declared.solo.Stopped.TheVariants.{Left};
ghost use Rattle.usb_serve.specs.Plain.{IsPlainAt};
ghost use Rattle.usb_machine.specs.Shapes.{HasWindow};
ghost use Rattle.usb_serve.specs.PlainHandlers.{plain_runs};
ghost use Rattle.usb_machine.specs.HostCalls.{HandsBack};
ghost use Rattle.usb_serve.specs.Handlers.{refusal_in};
ghost use Rattle.usb_serve.specs.Growing.{TurnsBy, IsCall};
ghost use Rattle.usb_serve.specs.Solo.{IsSoloAt, IsSolo, Wakes, Falls, StepsBy, ServesBy, WaitsBy, IsQuiet, answered_number, SubmitsBy, MayStop, CanStop, stop_entries, PoisonsBy, KillsBy};

use crate::beginning::begin;
use crate::completing::complete;
use crate::controller::Controller;
use crate::handler::Handler;
use crate::plain_side::{PlainSide, code_in};
use crate::serve::Turn;
use std::alloc::Global;
use usb_machine::{Answer, Event, Layout, Refused, SERVER, Transfer};
use usb_types::{Code, Memory, UrbId, Why};
use usb_xfer::Device;

/// How a wait ended.
#[derive(Clone, Copy)]
pub enum Waited {
    /// The URB is quiet.
    Quiet,
    /// A turn gave nothing back, and the URB is not quiet.
    Idle,
    /// 2^64 - 1 turns gave something back, and the URB is not quiet.
    Busy,
}

/// The result of a kill or a poison: the transfer that rested is claimed, and this is its number; or the wait ended
/// before the URB was quiet.
#[derive(Clone, Copy)]
pub enum Stopped {
    Claimed(Option<u64>),
    Left(Waited),
}

// The number that a Claim answers.
fn number_in(answer: Answer) -> Option<u64>
    ensures { result ≡ answered_number answer }
{
    match answer {
        Answer::Number(number) => number,
        _ => None,
    }
}

/// A host for one caller at a time: a machine with its transfers, a controller, and the handler of what comes back.
#[derive(Drop)]
pub struct Solo<'a, D, H> {
    pub(crate) side: PlainSide<'a>,
    pub(crate) controller: Controller<D>,
    pub(crate) handler: H,
}

impl<'a, D: Device + Drop, H: Handler + Drop> Solo<'a, D, H> {
    /// A host before any event.
    pub fn new(
        alloc: Global,
        layout: &'a Layout,
        passes: u32,
        devices: Vec<D>,
        handler: H,
    ) -> Result<Solo<'a, D, H>, Memory>
        requires passes { (0 < passes) × (passes ≤ 64) }
        requires layout { IsLayout layout.now }
        requires devices { All (λ (shape : Shape). shape.device < length devices.items) layout.now.shapes }
        requires homes { (u : ℕ) → Contains (H.asks_with handler) u → (e : ℕ) × (slice_get layout.now.homes u ≡ Some (Some e)) }
        ensures opens { IfOk result (λ s. IsSoloAt H.asks_with s (machine_for layout.now passes) []) }
        ensures devices { IfOk result (λ s. s.controller.devices.items ≡ devices.items) }
        ensures handler { IfOk result (λ s. s.handler ≡ handler) }
    {
        let (side, controller) = begin(alloc, layout, passes, devices)?;
        Ok(Solo {
            side,
            controller,
            handler,
        })
    }
}

impl<D: Device, H: Handler> Solo<'_, D, H> {
    /// Wakes all endpoints.
    pub fn wake(&mut self)
        ensures stays { (g : Machine) (h : List Entry) → IsSoloAt H.asks_with self.old g h → IsSoloAt H.asks_with self.new g h }
        ensures wakes { Wakes self.old self.new }
    {
        self.controller.wake();
    }

    /// Submits a transfer by this pass. One that is refused is handed back.
    pub fn submit(&mut self, pass: u32, urb: UrbId, t: Transfer) -> Result<(), Refused>
        requires whole { IsSolo H.asks_with self.old }
        requires pass { pass < self.old.side.plain.passes }
        requires home { (plain_runs self.old.side).has_home urb.0 }
        requires transfer { HasWindow t × (t.actual ≡ 0) }
        ensures submitted { (g : Machine) (h : List Entry) → IsSoloAt H.asks_with self.old g h → (es : List Entry) × SubmitsBy pass urb t (refusal_in result) es × IsSoloAt H.asks_with self.new g (h ++ es) }
        ensures back { HandsBack t result }
    {
        self.side.submit_by(pass, urb, t)
    }

    /// Makes a turn. Where it gives an URB back, that is completed by the handler. Answers whether one was given back.
    pub fn turn(&mut self) -> Result<bool, Memory>
        requires { IsSolo H.asks_with self.old }
        ensures turned { (g : Machine) (h : List Entry) → IsSoloAt H.asks_with self.old g h → (es : List Entry) × TurnsBy g h result es × IsSoloAt H.asks_with self.new g (h ++ es) }
        ensures steps { StepsBy D.replies D.items_used H.completes H.asks H.unasks self.old result self.new }
    {
        let Turn { given, changed } = self.controller.turn(&mut self.side);
        match given {
            None => Ok(false),
            Some(given) => match complete(&mut self.side, given, &mut self.handler) {
                Ok(_) => Ok(true),
                Err(memory) => Err(memory),
            },
        }
    }

    /// Wakes all endpoints, and makes turns until one gives nothing back, or 2^64 - 1 have given something back. Answers
    /// whether the last gave nothing back.
    pub fn serve(&mut self) -> Result<bool, Memory>
        requires whole { IsSolo H.asks_with self.old }
        ensures served { (g : Machine) (h : List Entry) → IsSoloAt H.asks_with self.old g h → (es : List Entry) × ServesBy g h result es × IsSoloAt H.asks_with self.new g (h ++ es) }
        ensures ends { (f : Falls D.replies D.items_used H.completes H.asks H.unasks H.asks_with) → f.left self.old < 2 ^ 64 - 1 → result ≡ Ok false → ⊥ }
    {
        self.wake();
        for _ in 0..u64::MAX {
            match self.turn() {
                Err(memory) => return Err(memory),
                Ok(false) => return Ok(true),
                Ok(true) => {}
            }
        }
        Ok(false)
    }

    // Whether the URB is neither queued nor in a handler.
    fn is_quiet(&self, urb: UrbId) -> bool
        requires { urb.0 < urbs_of self.now.side.plain }
        ensures { (g : Machine) (h : List Entry) → IsPlainAt self.now.side g h → (IsTrue result ↔ IsQuiet (state_of h urb.0)) }
    {
        self.side.plain.may(SERVER, Event::Quiet { urb })
    }

    // Makes turns until the URB, which is not quiet, is so, or one gives nothing back.
    fn turn_until(&mut self, urb: UrbId) -> Result<Waited, Memory>
        requires whole { IsSolo H.asks_with self.old }
        requires urb { urb.0 < urbs_of self.old.side.plain }
        requires waits { (g : Machine) (h : List Entry) → IsPlainAt self.old.side g h → IsQuiet (state_of h urb.0) → ⊥ }
        ensures waited { (g : Machine) (h : List Entry) → IsSoloAt H.asks_with self.old g h → (es : List Entry) × WaitsBy g h urb.0 result es × IsSoloAt H.asks_with self.new g (h ++ es) }
        ensures ends { (f : Falls D.replies D.items_used H.completes H.asks H.unasks H.asks_with) → f.left self.old < 2 ^ 64 - 1 → result ≡ Ok Busy → ⊥ }
        ensures counts { urbs_of self.new.side.plain ≡ urbs_of self.old.side.plain }
    {
        for _ in 0..u64::MAX {
            match self.turn() {
                Err(memory) => return Err(memory),
                Ok(false) => return Ok(Waited::Idle),
                Ok(true) => {
                    if self.is_quiet(urb) {
                        return Ok(Waited::Quiet);
                    }
                }
            }
        }
        Ok(Waited::Busy)
    }

    /// Waits until the URB is quiet: wakes all endpoints, and makes turns until it is, or one gives nothing back, or
    /// 2^64 - 1 have given something back.
    pub fn wait_for(&mut self, urb: UrbId) -> Result<Waited, Memory>
        requires whole { IsSolo H.asks_with self.old }
        requires urb { urb.0 < urbs_of self.old.side.plain }
        ensures waited { (g : Machine) (h : List Entry) → IsSoloAt H.asks_with self.old g h → (es : List Entry) × WaitsBy g h urb.0 result es × IsSoloAt H.asks_with self.new g (h ++ es) }
        ensures ends { (f : Falls D.replies D.items_used H.completes H.asks H.unasks H.asks_with) → f.left self.old < 2 ^ 64 - 1 → result ≡ Ok Busy → ⊥ }
        ensures counts { urbs_of self.new.side.plain ≡ urbs_of self.old.side.plain }
    {
        if self.is_quiet(urb) {
            return Ok(Waited::Quiet);
        }
        self.wake();
        self.turn_until(urb)
    }

    // Makes a step of a call, where it may come.
    pub(crate) fn call(&mut self, pass: u32, event: Event) -> Answer
        requires inside { IsInside self.old.side.plain event }
        requires step { IsCall event }
        ensures called { (g : Machine) (h : List Entry) → IsSoloAt H.asks_with self.old g h → IsNext g h pass event None → (result ≡ answer_of event (state_of h (urb_of event)) []) × IsSoloAt H.asks_with self.new g (h ++ entry pass event result None ∷ []) }
        ensures counts { urbs_of self.new.side.plain ≡ urbs_of self.old.side.plain }
    {
        self.side.plain.step(pass, event)
    }

    /// Unlinks the URB. Answers what the machine says.
    pub fn unlink(&mut self, pass: u32, urb: UrbId) -> Code
        requires { urb.0 < urbs_of self.old.side.plain }
        ensures unlinks { (g : Machine) (h : List Entry) → IsSoloAt H.asks_with self.old g h → pass < g.passes → (result ≡ unlinking (state_of h urb.0)) × IsSoloAt H.asks_with self.new g (h ++ unlink_entries pass urb.0 result) }
    {
        code_in(self.call(
            pass,
            Event::Mark {
                urb,
                why: Why::Unlink,
            },
        ))
    }

    /// Rejects submits of the URB until the pass withdraws it.
    pub fn block(&mut self, pass: u32, urb: UrbId)
        requires { urb.0 < urbs_of self.old.side.plain }
        ensures blocks { (g : Machine) (h : List Entry) → IsSoloAt H.asks_with self.old g h → pass < g.passes → (held_of (part_of h pass) urb.0).rejects < 255 → IsSoloAt H.asks_with self.new g (h ++ block_entries pass urb.0) }
    {
        self.call(pass, Event::Reject { urb });
    }

    /// Withdraws a reject that the pass holds.
    pub fn unblock(&mut self, pass: u32, urb: UrbId)
        requires { urb.0 < urbs_of self.old.side.plain }
        ensures unblocks { (g : Machine) (h : List Entry) → IsSoloAt H.asks_with self.old g h → pass < g.passes → 0 < (held_of (part_of h pass) urb.0).rejects → IsSoloAt H.asks_with self.new g (h ++ unblock_entries pass urb.0) }
    {
        self.call(pass, Event::Withdraw { urb });
    }

    // Rejects the URB and unlinks it.
    fn begin_stop(&mut self, pass: u32, urb: UrbId) -> Code
        requires { urb.0 < urbs_of self.old.side.plain }
        ensures stops { (g : Machine) (h : List Entry) → IsSoloAt H.asks_with self.old g h → MayStop g h pass urb.0 → (result ≡ unlinking (state_of h urb.0)) × IsSoloAt H.asks_with self.new g (h ++ stop_entries pass urb.0 result) }
        ensures counts { urbs_of self.new.side.plain ≡ urbs_of self.old.side.plain }
    {
        self.call(pass, Event::Reject { urb });
        code_in(self.call(
            pass,
            Event::Mark {
                urb,
                why: Why::Kill,
            },
        ))
    }

    // Sees the URB quiet, and claims what rests with it.
    pub(crate) fn claim(&mut self, pass: u32, urb: UrbId) -> Option<u64>
        requires { urb.0 < urbs_of self.old.side.plain }
        ensures claims { (g : Machine) (h : List Entry) → IsSoloAt H.asks_with self.old g h → pass < g.passes → IsQuiet (state_of h urb.0) → holds_any (held_of (part_of h pass) urb.0) ≡ true
            → (result ≡ (state_of h urb.0).rest) × IsSoloAt H.asks_with self.new g (h ++ claim_entries pass urb.0 result) }
        ensures counts { urbs_of self.new.side.plain ≡ urbs_of self.old.side.plain }
    {
        self.call(pass, Event::Quiet { urb });
        number_in(self.call(pass, Event::Claim { urb }))
    }

    /// Rejects the URB, unlinks it, waits until it is quiet, and claims what rests with it.
    pub fn poison(&mut self, pass: u32, urb: UrbId) -> Result<Stopped, Memory>
        requires urb { urb.0 < urbs_of self.old.side.plain }
        requires can { CanStop H.asks_with self.old pass urb.0 }
        ensures poisoned { (g : Machine) (h : List Entry) → IsSoloAt H.asks_with self.old g h → MayStop g h pass urb.0 → (es : List Entry) × PoisonsBy g h pass urb.0 result es × IsSoloAt H.asks_with self.new g (h ++ es) }
        ensures counts { urbs_of self.new.side.plain ≡ urbs_of self.old.side.plain }
        ensures never_idle { result ≡ Ok (Left Idle) → ⊥ }
    {
        self.begin_stop(pass, urb);
        match self.wait_for(urb) {
            Err(memory) => Err(memory),
            Ok(Waited::Quiet) => Ok(Stopped::Claimed(self.claim(pass, urb))),
            Ok(Waited::Idle) => Ok(Stopped::Left(Waited::Idle)),
            Ok(Waited::Busy) => Ok(Stopped::Left(Waited::Busy)),
        }
    }

    /// Poisons the URB, and withdraws the reject where it became quiet.
    pub fn kill(&mut self, pass: u32, urb: UrbId) -> Result<Stopped, Memory>
        requires urb { urb.0 < urbs_of self.old.side.plain }
        requires can { CanStop H.asks_with self.old pass urb.0 }
        ensures killed { (g : Machine) (h : List Entry) → IsSoloAt H.asks_with self.old g h → MayStop g h pass urb.0 → (es : List Entry) × KillsBy g h pass urb.0 result es × IsSoloAt H.asks_with self.new g (h ++ es) }
        ensures never_idle { result ≡ Ok (Left Idle) → ⊥ }
    {
        match self.poison(pass, urb) {
            Err(memory) => Err(memory),
            Ok(Stopped::Left(waited)) => Ok(Stopped::Left(waited)),
            Ok(Stopped::Claimed(rest)) => {
                self.unblock(pass, urb);
                Ok(Stopped::Claimed(rest))
            }
        }
    }
}
