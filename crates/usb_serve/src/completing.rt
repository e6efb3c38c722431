//! A giveback is completed: the handler's action, and then its end.
ghost use Rattle.std.specs.Prelude.{ℕ, ◌≡◌, Some, None, IfOk, IfErr, Contains, Ok};
ghost use Rattle.usb_machine.specs.declared.transfer.Transfer.{Transfer};
ghost use Rattle.usb_machine.specs.Shapes.{HasWindow};
ghost use Rattle.usb_serve.specs.declared.handler.Outcome.TheVariants.{Rested};
ghost use Rattle.usb_serve.specs.Handlers.{told_urb, StillRuns, windowed};
ghost use Rattle.usb_serve.specs.Completing.{Asks, Acts, Again, Completes};

use crate::handler::{Handler, HandlerSide, Outcome};
use usb_machine::{GivenBack, Transfer};
use usb_types::{Action, Code, Memory, UrbId};

// The transfer with another window.
fn windowed(t: Transfer, from: u32, len: u32) -> Transfer
    ensures { result ≡ windowed from len t }
{
    Transfer {
        from,
        len,
        actual: 0,
        ..t
    }
}

// Asks the driver's question, if it has one.
fn ask<B: HandlerSide, H: Handler>(side: &mut B, handler: &mut H) -> Outcome
    requires whole { (B.runs side.old).is_whole }
    requires homes { (u : ℕ) → Contains (H.asks_with handler.old) u → (B.runs side.old).has_home u }
    ensures asked { Asks B.submits H.asks H.unasks side.old handler.old result side.new handler.new }
    ensures urbs { H.asks_with handler.new ≡ H.asks_with handler.old }
    ensures still { StillRuns (B.runs side.old) (B.runs side.new) }
{
    match handler.ask() {
        None => Outcome::Rested,
        Some((urb, question)) => match side.submit(urb, question) {
            Ok(()) => Outcome::Asked(Code::Zero),
            Err(refused) => {
                handler.unask(refused.transfer);
                Outcome::Asked(Code::Fault(refused.errno))
            }
        },
    }
}

// Leaves the transfer to rest.
fn rest<B: HandlerSide>(side: &mut B, given: &mut B::Given, t: Transfer) -> Outcome
    requires whole { (B.runs side.old).is_whole }
    requires handles { (B.runs side.old).handles (B.Given.told given.old).urb }
    requires window { HasWindow t }
    ensures rests { B.rests side.old (told_urb (B.Given.told given.old)) t side.new }
    ensures given { B.Given.told given.new ≡ B.Given.told given.old }
    ensures still { StillRuns (B.runs side.old) (B.runs side.new) }
    ensures outcome { result ≡ Rested }
{
    side.rest(given, t);
    Outcome::Rested
}

// Submits the transfer of an URB that was given back again, and rests it where that is refused.
fn resubmit<B: HandlerSide>(side: &mut B, given: &mut B::Given, t: Transfer) -> Outcome
    requires whole { (B.runs side.old).is_whole }
    requires handles { (B.runs side.old).handles (B.Given.told given.old).urb }
    requires home { (B.runs side.old).has_home (B.Given.told given.old).urb }
    requires transfer { HasWindow t × (t.actual ≡ 0) }
    ensures again { Again B.rests B.submits (told_urb (B.Given.told given.old)) t side.old result side.new }
    ensures given { B.Given.told given.new ≡ B.Given.told given.old }
    ensures still { StillRuns (B.runs side.old) (B.runs side.new) }
{
    match side.submit(given.urb(), t) {
        Ok(()) => Outcome::Again(Code::Zero),
        Err(refused) => {
            rest(side, given, refused.transfer);
            Outcome::Again(Code::Fault(refused.errno))
        }
    }
}

// What the handler does before its end.
fn act<B: HandlerSide, H: Handler>(
    side: &mut B,
    given: &mut B::Given,
    handler: &mut H,
    t: Transfer,
) -> Result<Outcome, Memory>
    requires whole { (B.runs side.old).is_whole }
    requires handles { (B.runs side.old).handles (B.Given.told given.old).urb }
    requires home { (B.runs side.old).has_home (B.Given.told given.old).urb }
    requires homes { (u : ℕ) → Contains (H.asks_with handler.old) u → (B.runs side.old).has_home u }
    requires window { HasWindow t }
    ensures urbs { H.asks_with handler.new ≡ H.asks_with handler.old }
    ensures acted { Acts B.rests B.submits H.completes H.asks H.unasks (told_urb (B.Given.told given.old)) (B.Given.told given.old).code t side.old handler.old result side.new handler.new }
    ensures given { B.Given.told given.new ≡ B.Given.told given.old }
    ensures still { StillRuns (B.runs side.old) (B.runs side.new) }
{
    match handler.complete(given.urb(), given.code(), &t) {
        Err(memory) => {
            rest(side, given, t);
            Err(memory)
        }
        Ok(Action::Rest) => Ok(rest(side, given, t)),
        Ok(Action::Again { from, len }) => Ok(resubmit(side, given, windowed(t, from, len))),
        Ok(Action::Ask) => {
            rest(side, given, t);
            Ok(ask(side, handler))
        }
    }
}

/// Completes a giveback: the handler says what becomes of the transfer, which rests or is submitted again, and the driver may
/// ask a question. Then the handler ends, also where it lacks memory.
pub fn complete<B: HandlerSide, H: Handler>(
    side: &mut B,
    given: B::Given,
    handler: &mut H,
) -> Result<Outcome, Memory>
    requires whole { (B.runs side.old).is_whole }
    requires handles { (B.runs side.old).handles (B.Given.told given).urb }
    requires home { (B.runs side.old).has_home (B.Given.told given).urb }
    requires homes { (u : ℕ) → Contains (H.asks_with handler.old) u → (B.runs side.old).has_home u }
    requires transfer { (t : Transfer) × ((B.Given.told given).transfer ≡ Some t) × HasWindow t }
    ensures whole { (B.runs side.new).is_whole }
    ensures urbs { H.asks_with handler.new ≡ H.asks_with handler.old }
    ensures completed { (t : Transfer) → (B.Given.told given).transfer ≡ Some t → Completes B.rests B.submits B.ends H.completes H.asks H.unasks (told_urb (B.Given.told given)) (B.Given.told given).code t side.old handler.old result side.new handler.new }
{
    let mut given = given;
    match given.take_transfer() {
        None => unreachable!(),
        Some(t) => {
            let outcome = act(side, &mut given, handler, t);
            side.end(given);
            outcome
        }
    }
}
