//! The calls of any caller.
ghost use Rattle.std.specs.Prelude.{◌≡◌};

use crate::host::TurnHost;
use crate::hub::TurnHub;
use crate::stock::Stock;
use std::sync::Wait;
use usb_machine::{Answer, Event, Host, Meets, Refused, Transfer};
use usb_turn::TurnPass;
use usb_types::{Code, Errno, Flag, UrbId, Why};

impl Host for TurnHost {
    type Pass = TurnPass<Stock>;

    type Hub = TurnHub;

    ghost use Rattle.usb_turn.specs.Shown.{id_of};
    ghost use Rattle.usb_turn_host.specs.Setup.{setup_of};
    ghost use Rattle.usb_turn_host.specs.Stock.{machine_of, IsBusy};
    ghost use Rattle.usb_turn_host.specs.Turning.{IsOf, known_of};

    ghost machine = { λ h. machine_of (setup_of h.turns) };

    ghost known = { known_of };

    ghost is_of = { λ h p. IsOf (id_of h.turns) (setup_of h.turns) p };

    ghost is_busy = { λ h p q u. IsBusy q.seen u };

    fn submit<R: Wait>(
        &self,
        rt: &R,
        pass: &mut TurnPass<Stock>,
        urb: UrbId,
        t: Transfer,
    ) -> Result<(), Refused> {
        match self.fault(urb, &t) {
            Some(errno) => Err(Refused { errno, transfer: t }),
            None => {
                self.ask(rt, pass, urb, t)?;
                self.make(rt, pass, Event::Link { urb });
                Ok(())
            }
        }
    }

    fn unlink<R: Wait>(&self, rt: &R, pass: &mut TurnPass<Stock>, urb: UrbId, why: Why) -> Errno {
        match self.make(rt, pass, Event::Mark { urb, why }) {
            Answer::Code(Code::Fault(errno)) => errno,
            _ => unreachable!(),
        }
    }

    fn reject<R: Wait>(&self, rt: &R, pass: &mut TurnPass<Stock>, urb: UrbId) {
        self.make(rt, pass, Event::Reject { urb });
    }

    fn withdraw<R: Wait>(&self, rt: &R, pass: &mut TurnPass<Stock>, urb: UrbId) {
        self.make(rt, pass, Event::Withdraw { urb });
    }

    fn quiet<R: Wait>(&self, rt: &R, pass: &mut TurnPass<Stock>, urb: UrbId) -> bool {
        self.see(rt, pass, urb)
    }

    fn claim<R: Wait>(&self, rt: &R, pass: &mut TurnPass<Stock>, urb: UrbId) -> Option<Transfer> {
        self.take_rest(rt, pass, urb)
    }

    fn flag<R: Wait>(&self, rt: &R, hub: &mut TurnHub, urb: UrbId, flag: Flag) {
        self.make(rt, &mut hub.pass, Event::Flag { urb, flag });
        hub.set(urb, flag, true);
    }

    fn unflag<R: Wait>(&self, rt: &R, hub: &mut TurnHub, urb: UrbId, flag: Flag) {
        self.make(rt, &mut hub.pass, Event::Unflag { urb, flag });
        hub.set(urb, flag, false);
    }

    ghost sound = { λ h p k. record { legal = k.legal; own = k.own } };
}

impl Meets for TurnHost {
    fn meet<R: Wait>(&self, _rt: &R, pass: &mut TurnPass<Stock>, other: &mut TurnPass<Stock>) {
        self.turns.meet(pass, other);
    }
}
