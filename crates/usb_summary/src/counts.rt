//! The counts of a run: how many transfers were accepted, refused and given back, and how many bytes were moved.
ghost use Rattle.std.specs.Prelude.{◌≡◌, map};
ghost use Rattle.usb_machine.specs.State.{is_zero};
ghost use Rattle.usb_generate.specs.Summary.{bytes_in};
ghost use Rattle.usb_line.specs.declared.made.GivebackRow.{GivebackRow};
ghost use Rattle.usb_summary.specs.Counts.{submit_code, again_code, is_fault, is_some_of, submits_in, counts_of};

use usb_line::{CallAnswer, CallMade, GivebackRow, LineOutcome, Outcome};
use usb_scene::Operation;
use usb_types::Code;

/// The numbers of a summary.
#[derive(Clone, Copy)]
pub struct Counts {
    pub accepted: u64,
    pub refused: u64,
    pub given: u64,
    pub bytes: u64,
}

// What an URB's gate, which accepts or refuses submits, answered a call, if the call submitted.
fn submit_code(made: &CallMade) -> Option<Code>
    ensures { result ≡ submit_code made.now }
{
    match (made.operation, made.answer) {
        (Operation::Submit, CallAnswer::Code(code)) => Some(code),
        _ => None,
    }
}

// What the gate answered a handler that submitted its transfer again. Here no handler asks a question, since no driver has an URB.
fn again_code(outcome: Outcome) -> Option<Code>
    ensures { result ≡ again_code outcome }
{
    match outcome {
        Outcome::Again(code) => Some(code),
        Outcome::Rest | Outcome::Asked(_) => None,
    }
}

fn is_accepted(code: Option<Code>) -> bool
    ensures { result ≡ is_some_of is_zero code }
{
    match code {
        Some(Code::Zero) => true,
        Some(Code::Fault(_)) | None => false,
    }
}

fn is_refused(code: Option<Code>) -> bool
    ensures { result ≡ is_some_of is_fault code }
{
    match code {
        Some(Code::Fault(_)) => true,
        Some(Code::Zero) | None => false,
    }
}

fn accepted(made: &[CallMade], given: &[GivebackRow]) -> u64
    ensures { result ≡ submits_in is_zero made.now given.now }
{
    let called = made.iter().filter(|m| is_accepted(submit_code(m))).count();
    let again = given
        .iter()
        .filter(|g| is_accepted(again_code(g.outcome)))
        .count();
    called as u64 + again as u64
}

fn refused(made: &[CallMade], given: &[GivebackRow]) -> u64
    ensures { result ≡ submits_in is_fault made.now given.now }
{
    let called = made.iter().filter(|m| is_refused(submit_code(m))).count();
    let again = given
        .iter()
        .filter(|g| is_refused(again_code(g.outcome)))
        .count();
    called as u64 + again as u64
}

fn bytes_moved(given: &[GivebackRow]) -> u64
    ensures { result ≡ bytes_in (map (λ (g : GivebackRow). g.actual) given.now) }
{
    let mut bytes: u64 = 0;
    for g in given {
        bytes = bytes.saturating_add(g.actual as u64);
    }
    bytes
}

/// The counts of a run's calls and givebacks.
pub(crate) fn count(outcome: &LineOutcome) -> Counts
    ensures { result ≡ counts_of outcome.now.made outcome.now.given }
{
    let made = outcome.made.items();
    let given = outcome.given.items();
    Counts {
        accepted: accepted(made, given),
        refused: refused(made, given),
        given: given.len() as u64,
        bytes: bytes_moved(given),
    }
}
