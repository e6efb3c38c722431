//! Events, answers and reasons in words.
ghost use Rattle.std.specs.Prelude.{◌≡◌, IsSome, IfSome, IsSomeAnd, List, ℕ};
ghost use Rattle.usb_types.specs.declared.errno.Code.TheVariants.{Fault};
ghost use Rattle.usb_machine.specs.declared.state.UrbState.{UrbState};
ghost use Rattle.usb_machine.specs.State.{answer_of, refusal, unlinking};
ghost use Rattle.example_urb.specs.Reasons.{Explains, IsRefusal};

use std::fmt;
use usb_machine::{Answer, Event};
use usb_types::{Code, Errno, UrbId};

/// What a refusal, or the answer of a Mark, says of the URB.
#[derive(Clone, Copy)]
pub enum Reason {
    Queued,
    NotQueued,
    Gone,
    Rejected,
    Unbound,
    Down,
    Marked,
    /// Queued, and without a mark before this one.
    Unmarked,
}

impl fmt::Display for Reason {
    fn fmt<W: fmt::Write>(&self, f: &mut fmt::Formatter<W>) -> fmt::Result {
        f.write_str(match self {
            Reason::Queued => "it is queued",
            Reason::NotQueued => "it is not queued",
            Reason::Gone => "its device is gone",
            Reason::Rejected => "a reject stands",
            Reason::Unbound => "its interface was unbound",
            Reason::Down => "the host is down",
            Reason::Marked => "a mark stands",
            Reason::Unmarked => "it is queued, and comes back later",
        })
    }
}

fn refused(errno: Errno) -> Option<Reason>
    ensures { (s : UrbState) → Fault errno ≡ refusal s → IsSomeAnd result (λ why. Explains why s) }
{
    match errno {
        Errno::EBUSY => Some(Reason::Queued),
        Errno::ENODEV => Some(Reason::Gone),
        Errno::EPERM => Some(Reason::Rejected),
        Errno::ENOENT => Some(Reason::Unbound),
        Errno::ESHUTDOWN => Some(Reason::Down),
        _ => None,
    }
}

fn not_unlinked(errno: Errno) -> Option<Reason>
    ensures { (s : UrbState) → Fault errno ≡ unlinking s → IsSomeAnd result (λ why. Explains why s) }
{
    match errno {
        Errno::EIDRM => Some(Reason::NotQueued),
        Errno::EBUSY => Some(Reason::Marked),
        Errno::EINPROGRESS => Some(Reason::Unmarked),
        _ => None,
    }
}

/// What the answer of an event says of its URB.
pub fn reason_for(event: Event, answer: Answer) -> Option<Reason>
    ensures holds { (s : UrbState) (line : List ℕ) → answer ≡ answer_of event s line → IfSome result (λ why. Explains why s) }
    ensures some { (s : UrbState) (line : List ℕ) → answer ≡ answer_of event s line → IsRefusal event answer → IsSome result }
{
    match (event, answer) {
        (Event::Submit { .. }, Answer::Code(Code::Fault(errno))) => refused(errno),
        (Event::Mark { .. }, Answer::Code(Code::Fault(errno))) => not_unlinked(errno),
        (Event::Finish { .. }, Answer::Truth(false)) => Some(Reason::Marked),
        _ => None,
    }
}

fn name(urb: UrbId) -> &'static str {
    if urb.0 == 0 { "A" } else { "B" }
}

/// An event in words.
#[derive(Clone, Copy)]
pub struct Said(pub Event);

impl fmt::Display for Said {
    fn fmt<W: fmt::Write>(&self, f: &mut fmt::Formatter<W>) -> fmt::Result {
        let (event, urb) = match self.0 {
            Event::Take { .. } => return f.write_str("take"),
            Event::Submit { urb, .. } => ("submit", urb),
            Event::Link { urb } => ("link", urb),
            Event::Mark { urb, .. } => ("mark", urb),
            Event::Finish { urb, .. } => ("finish", urb),
            Event::Give { urb } => ("give", urb),
            Event::Rest { urb, .. } => ("rest", urb),
            Event::End { urb } => ("end", urb),
            Event::Reject { urb } => ("reject", urb),
            Event::Withdraw { urb } => ("withdraw", urb),
            Event::Quiet { urb } => ("quiet", urb),
            Event::Claim { urb } => ("claim", urb),
            Event::Flag { urb, .. } => ("flag", urb),
            Event::Unflag { urb, .. } => ("unflag", urb),
        };
        let urb = name(urb);
        write!(f, "{event} {urb}")
    }
}

/// An answer in words.
#[derive(Clone, Copy)]
pub struct Told(pub Answer);

impl fmt::Display for Told {
    fn fmt<W: fmt::Write>(&self, f: &mut fmt::Formatter<W>) -> fmt::Result {
        match self.0 {
            Answer::Nothing => f.write_str("done"),
            Answer::Code(code) => f.write_str(code.text()),
            Answer::Truth(truth) => write!(f, "{truth}"),
            Answer::Urb(urb) => f.write_str(name(urb)),
            Answer::Number(Some(number)) => write!(f, "transfer {number}"),
            Answer::Number(None) => f.write_str("no transfer"),
        }
    }
}
