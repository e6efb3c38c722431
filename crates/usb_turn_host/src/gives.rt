//! The server's calls.
ghost use Rattle.std.specs.Prelude.{◌≡◌, ◌<◌, ◌^◌, ◌∷◌, [], Some, None, length, false, IsTrue};
ghost use Rattle.usb_machine.specs.declared.event.Event.TheVariants.{Finish, Give, Rest, End};
ghost use Rattle.usb_machine.specs.declared.event.Answer.TheVariants.{Truth, Nothing, Code as Status};
ghost use Rattle.usb_machine.specs.Calls.{entry, plain_entry};
ghost use Rattle.usb_machine.specs.Shapes.{HasWindow};
ghost use Rattle.usb_machine.specs.History.{home_of, pending_of, state_of, line_of};
ghost use Rattle.usb_machine.specs.Legal.{IsFirst};
ghost use Rattle.usb_machine.specs.HostCalls.{IsUrb, Took, Finds, IfMarked};
ghost use Rattle.usb_machine.specs.declared.entry.TheConstants.{SERVER};
ghost use Rattle.usb_machine.specs.Fresh.{Fresh, Looked};
ghost use Rattle.usb_machine.specs.Tokens.{IsPending, gives_of, is_finished};
ghost use Rattle.usb_machine.specs.State.{is_clear, why_of};
ghost use Rattle.usb_turn.specs.Shown.{id_of};
ghost use Rattle.usb_turn_host.specs.Setup.{setup_of};
ghost use Rattle.usb_turn_host.specs.Stock.{machine_of};
ghost use Rattle.usb_turn_host.specs.Turning.{IsOf, known_of};
ghost use Rattle.usb_turn_host.specs.Whole.{IsServer};

use crate::given::TurnGiven;
use crate::host::TurnHost;
use crate::server::TurnServer;
use crate::stock::Stock;
use std::sync::Wait;
use usb_machine::{Answer, Event, Look, Transfer};
use usb_turn::TurnPass;
use usb_types::{Code, UrbId, Why};

impl TurnHost {
    /// Marks the first pending URB as finished, where no mark stands.
    pub fn finish<R: Wait>(&self, rt: &R, server: &mut TurnServer, urb: UrbId, code: Code) -> bool
        requires here { IsOf (id_of self.now.turns) (setup_of self.now.turns) server.old.pass }
        requires whole { IsServer (machine_of (setup_of self.now.turns)) server.old }
        requires urb { IsUrb (machine_of (setup_of self.now.turns)) urb.0 }
        requires first { IsFirst urb.0 (pending_of (machine_of (setup_of self.now.turns)) server.old.pass.mine (home_of (machine_of (setup_of self.now.turns)) urb.0)) }
        ensures here { IsOf (id_of self.now.turns) (setup_of self.now.turns) server.new.pass }
        ensures whole { IsServer (machine_of (setup_of self.now.turns)) server.new }
        ensures fresh { Fresh (machine_of (setup_of self.now.turns)) (known_of server.old.pass) (known_of server.new.pass) (entry server.old.pass.number (Finish urb code) (Truth result) None ∷ []) }
        ensures settled { IsTrue result → is_clear (state_of server.new.pass.seen urb.0).mark ≡ false }
    {
        match self.make(rt, &mut server.pass, Event::Finish { urb, code }) {
            Answer::Truth(finished) => finished,
            _ => unreachable!(),
        }
    }

    /// Ends a handler of the URB.
    pub fn end<R: Wait>(&self, rt: &R, server: &mut TurnServer, urb: UrbId)
        requires here { IsOf (id_of self.now.turns) (setup_of self.now.turns) server.old.pass }
        requires whole { IsServer (machine_of (setup_of self.now.turns)) server.old }
        requires urb { IsUrb (machine_of (setup_of self.now.turns)) urb.0 }
        requires runs { 0 < (state_of server.old.pass.seen urb.0).handlers }
        ensures here { IsOf (id_of self.now.turns) (setup_of self.now.turns) server.new.pass }
        ensures whole { IsServer (machine_of (setup_of self.now.turns)) server.new }
        ensures fresh { Fresh (machine_of (setup_of self.now.turns)) (known_of server.old.pass) (known_of server.new.pass) (plain_entry server.old.pass.number (End urb) ∷ []) }
    {
        self.make(rt, &mut server.pass, Event::End { urb });
    }

    /// Leaves the transfer to rest with the URB, by a handler of it.
    pub fn rest<R: Wait>(&self, rt: &R, server: &mut TurnServer, urb: UrbId, t: Transfer)
        requires here { IsOf (id_of self.now.turns) (setup_of self.now.turns) server.old.pass }
        requires whole { IsServer (machine_of (setup_of self.now.turns)) server.old }
        requires urb { IsUrb (machine_of (setup_of self.now.turns)) urb.0 }
        requires runs { 0 < (state_of server.old.pass.seen urb.0).handlers }
        requires transfer { HasWindow t }
        ensures here { IsOf (id_of self.now.turns) (setup_of self.now.turns) server.new.pass }
        ensures whole { IsServer (machine_of (setup_of self.now.turns)) server.new }
        ensures fresh { Fresh (machine_of (setup_of self.now.turns)) (known_of server.old.pass) (known_of server.new.pass) (entry server.old.pass.number (Rest urb t.number) Nothing (Some t) ∷ []) }
    {
        self.put_rest(rt, &mut server.pass, urb, t);
    }

    fn put_rest<R: Wait>(&self, rt: &R, pass: &mut TurnPass<Stock>, urb: UrbId, t: Transfer)
        requires here { IsOf (id_of self.now.turns) (setup_of self.now.turns) pass.old }
        requires server { pass.old.number ≡ SERVER }
        requires urb { IsUrb (machine_of (setup_of self.now.turns)) urb.0 }
        requires runs { 0 < (state_of pass.old.seen urb.0).handlers }
        requires transfer { HasWindow t }
        ensures here { IsOf (id_of self.now.turns) (setup_of self.now.turns) pass.new }
        ensures fresh { Fresh (machine_of (setup_of self.now.turns)) (known_of pass.old) (known_of pass.new) (entry pass.old.number (Rest urb t.number) Nothing (Some t) ∷ []) }
    {
        let mut stock = self.turns.enter(rt, pass);
        stock.rest(urb, t);
        self.turns.leave(pass, stock);
    }

    /// Takes the first URB of the endpoint's line, in a turn, if there is one.
    fn take_first<R: Wait>(
        &self,
        rt: &R,
        pass: &mut TurnPass<Stock>,
        ep: u32,
    ) -> Option<(UrbId, Transfer)>
        requires here { IsOf (id_of self.now.turns) (setup_of self.now.turns) pass.old }
        requires server { pass.old.number ≡ SERVER }
        requires end { ep < length (machine_of (setup_of self.now.turns)).layout.shapes }
        ensures here { IsOf (id_of self.now.turns) (setup_of self.now.turns) pass.new }
        ensures took { Took (machine_of (setup_of self.now.turns)) (known_of pass.old) (known_of pass.new) ep result (line_of (machine_of (setup_of self.now.turns)) pass.new.seen ep ≡ []) }
    {
        let mut stock = self.turns.enter(rt, pass);
        let taken = stock.take(ep);
        self.turns.leave(pass, stock);
        taken
    }

    /// Takes the first URB of the endpoint's line, with its transfer, if there is one.
    pub fn take<R: Wait>(
        &self,
        rt: &R,
        server: &mut TurnServer,
        ep: u32,
    ) -> Option<(UrbId, Transfer)>
        requires here { IsOf (id_of self.now.turns) (setup_of self.now.turns) server.old.pass }
        requires whole { IsServer (machine_of (setup_of self.now.turns)) server.old }
        requires end { ep < length (machine_of (setup_of self.now.turns)).layout.shapes }
        ensures here { IsOf (id_of self.now.turns) (setup_of self.now.turns) server.new.pass }
        ensures whole { IsServer (machine_of (setup_of self.now.turns)) server.new }
        ensures took { Took (machine_of (setup_of self.now.turns)) (known_of server.old.pass) (known_of server.new.pass) ep result (line_of (machine_of (setup_of self.now.turns)) server.new.pass.seen ep ≡ []) }
    {
        match self.take_first(rt, &mut server.pass, ep) {
            Some((urb, t)) => {
                server.push(ep, urb);
                Some((urb, t))
            }
            None => None,
        }
    }

    /// Gives a pending URB back, in a turn.
    fn hand_back<R: Wait>(&self, rt: &R, pass: &mut TurnPass<Stock>, urb: UrbId) -> Code
        requires here { IsOf (id_of self.now.turns) (setup_of self.now.turns) pass.old }
        requires server { pass.old.number ≡ SERVER }
        requires urb { IsUrb (machine_of (setup_of self.now.turns)) urb.0 }
        requires pending { IsPending (machine_of (setup_of self.now.turns)) (known_of pass.old) urb.0 }
        requires marked { is_clear (state_of pass.old.seen urb.0).mark ≡ false }
        requires few { gives_of pass.old.mine < 2 ^ 63 }
        ensures here { IsOf (id_of self.now.turns) (setup_of self.now.turns) pass.new }
        ensures fresh { Fresh (machine_of (setup_of self.now.turns)) (known_of pass.old) (known_of pass.new) (entry pass.old.number (Give urb) (Status result) None ∷ []) }
    {
        let mut stock = self.turns.enter(rt, pass);
        let code = stock.give(urb);
        self.turns.leave(pass, stock);
        code
    }

    fn find<R: Wait>(&self, rt: &R, pass: &mut TurnPass<Stock>, urb: UrbId) -> Option<Why>
        requires here { IsOf (id_of self.now.turns) (setup_of self.now.turns) pass.old }
        requires urb { IsUrb (machine_of (setup_of self.now.turns)) urb.0 }
        ensures here { IsOf (id_of self.now.turns) (setup_of self.now.turns) pass.new }
        ensures looked { Looked (machine_of (setup_of self.now.turns)) (known_of pass.old) (known_of pass.new) }
        ensures why { result ≡ why_of (state_of pass.new.seen urb.0).mark }
    {
        let mut stock = self.turns.enter(rt, pass);
        let why = stock.why(urb);
        self.turns.leave(pass, stock);
        why
    }

    /// Gives a pending URB back, which a finish or a look found marked.
    pub fn give<R: Wait>(
        &self,
        rt: &R,
        server: &mut TurnServer,
        urb: UrbId,
        t: Transfer,
    ) -> TurnGiven
        requires here { IsOf (id_of self.now.turns) (setup_of self.now.turns) server.old.pass }
        requires whole { IsServer (machine_of (setup_of self.now.turns)) server.old }
        requires urb { IsUrb (machine_of (setup_of self.now.turns)) urb.0 }
        requires pending { IsPending (machine_of (setup_of self.now.turns)) (known_of server.old.pass) urb.0 }
        requires marked { is_clear (state_of server.old.pass.seen urb.0).mark ≡ false }
        requires few { server.old.given < 2 ^ 63 }
        ensures here { IsOf (id_of self.now.turns) (setup_of self.now.turns) server.new.pass }
        ensures whole { IsServer (machine_of (setup_of self.now.turns)) server.new }
        ensures fresh { Fresh (machine_of (setup_of self.now.turns)) (known_of server.old.pass) (known_of server.new.pass) (entry server.old.pass.number (Give urb) (Status result.code) None ∷ []) }
        ensures given { (result.urb ≡ urb) × (result.transfer ≡ Some t) }
    {
        let Some(ep) = self.layout.homes.items()[urb.0 as usize] else {
            unreachable!()
        };
        let code = self.hand_back(rt, &mut server.pass, urb);
        server.remove(ep, urb);
        TurnGiven {
            urb,
            code,
            transfer: Some(t),
        }
    }

    /// Looks at the mark of a pending URB that is not finished.
    pub fn look<R: Wait>(&self, rt: &R, server: &mut TurnServer, urb: UrbId) -> Look
        requires here { IsOf (id_of self.now.turns) (setup_of self.now.turns) server.old.pass }
        requires whole { IsServer (machine_of (setup_of self.now.turns)) server.old }
        requires urb { IsUrb (machine_of (setup_of self.now.turns)) urb.0 }
        requires unfinished { is_finished (state_of server.old.pass.seen urb.0).mark ≡ false }
        ensures here { IsOf (id_of self.now.turns) (setup_of self.now.turns) server.new.pass }
        ensures whole { IsServer (machine_of (setup_of self.now.turns)) server.new }
        ensures looked { Looked (machine_of (setup_of self.now.turns)) (known_of server.old.pass) (known_of server.new.pass) }
        ensures finds { Finds (state_of server.new.pass.seen urb.0).mark result ⊥ }
        ensures settled { IfMarked result (is_clear (state_of server.new.pass.seen urb.0).mark ≡ false) }
    {
        match self.find(rt, &mut server.pass, urb) {
            Some(why) => Look::Marked(why),
            None => Look::Clean,
        }
    }
}
