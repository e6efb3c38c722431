//! The calls of any caller.
ghost use Rattle.std.specs.Prelude.{◌≡◌};

use crate::hub::SoloHub;
use crate::solo::{SoloHost, SoloPass};
use std::sync::Wait;
use usb_machine::{Answer, Event, Host, Refused, Transfer};
use usb_types::{Code, Errno, Flag, UrbId, Why};

impl Host for SoloHost {
    type Pass = SoloPass;

    type Hub = SoloHub;

    ghost use Rattle.std.proofs.Common.{subst};
    ghost use Rattle.usb_machine.specs.Legal.{IsLegal};
    ghost use Rattle.usb_machine.specs.Replay.{machine_for};
    ghost use Rattle.usb_turn_host.specs.Stock.{IsBusy};
    ghost use Rattle.usb_solo.specs.Solo.{IsSolo, known_of};

    ghost machine = { λ h. machine_for h.layout h.passes };

    ghost known = { known_of };

    ghost is_of = { λ h p. IsSolo (machine_for h.layout h.passes) p };

    ghost is_busy = { λ h p q u. IsBusy q.diary u };

    fn submit<R: Wait>(
        &self,
        _rt: &R,
        pass: &mut SoloPass,
        urb: UrbId,
        t: Transfer,
    ) -> Result<(), Refused> {
        match self.fault(urb, &t) {
            Some(errno) => Err(Refused { errno, transfer: t }),
            None => {
                self.ask(pass, urb, t)?;
                self.make(pass, Event::Link { urb });
                Ok(())
            }
        }
    }

    fn unlink<R: Wait>(&self, _rt: &R, pass: &mut SoloPass, urb: UrbId, why: Why) -> Errno {
        match self.make(pass, Event::Mark { urb, why }) {
            Answer::Code(Code::Fault(errno)) => errno,
            _ => unreachable!(),
        }
    }

    fn reject<R: Wait>(&self, _rt: &R, pass: &mut SoloPass, urb: UrbId) {
        self.make(pass, Event::Reject { urb });
    }

    fn withdraw<R: Wait>(&self, _rt: &R, pass: &mut SoloPass, urb: UrbId) {
        self.make(pass, Event::Withdraw { urb });
    }

    fn quiet<R: Wait>(&self, _rt: &R, pass: &mut SoloPass, urb: UrbId) -> bool {
        self.see(pass, urb)
    }

    fn claim<R: Wait>(&self, _rt: &R, pass: &mut SoloPass, urb: UrbId) -> Option<Transfer> {
        self.take_rest(pass, urb)
    }

    fn flag<R: Wait>(&self, _rt: &R, hub: &mut SoloHub, urb: UrbId, flag: Flag) {
        self.make(&mut hub.pass, Event::Flag { urb, flag });
        hub.set(urb, flag, true);
    }

    fn unflag<R: Wait>(&self, _rt: &R, hub: &mut SoloHub, urb: UrbId, flag: Flag) {
        self.make(&mut hub.pass, Event::Unflag { urb, flag });
        hub.set(urb, flag, false);
    }

    ghost sound = { λ h p k. record { legal = subst (λ g. IsLegal g p.diary) k.machine k.stock.plain.legal; own = k.own } };
}
