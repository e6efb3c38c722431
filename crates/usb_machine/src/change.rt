//! What an event answers by the state of its URB, and what it changes there.
ghost use Rattle.std.specs.Prelude.{◌≡◌, ◌↔◌, if◌then◌else◌, IsTrue, true, false, [], not};
ghost use Rattle.usb_machine.specs.State.{is_clear, accepted, unlinks, finishes, after, answer_of, refusal, unlinking, status_of, has_flag as flag_of, with_flag as flags_with};
ghost use Rattle.usb_machine.specs.Plain.{IsOfUrb, CanCount};

use crate::event::{Answer, Event};
use crate::state::{Flags, Mark, UrbState};
use usb_types::{Code, Errno, Flag, Why};

fn refused(state: &UrbState) -> Code
    ensures { result ≡ refusal state.now }
{
    if state.queued {
        Code::Fault(Errno::EBUSY)
    } else if state.flags.gone {
        Code::Fault(Errno::ENODEV)
    } else if state.rejects > 0 {
        Code::Fault(Errno::EPERM)
    } else if state.flags.off {
        Code::Fault(Errno::ENOENT)
    } else if state.flags.down {
        Code::Fault(Errno::ESHUTDOWN)
    } else {
        Code::Zero
    }
}

fn unlinked(state: &UrbState) -> Code
    ensures { result ≡ unlinking state.now }
{
    if !state.queued {
        Code::Fault(Errno::EIDRM)
    } else if let Mark::Clear = state.mark {
        Code::Fault(Errno::EINPROGRESS)
    } else {
        Code::Fault(Errno::EBUSY)
    }
}

fn status(mark: Mark) -> Code
    ensures { result ≡ status_of mark }
{
    match mark {
        Mark::Clear => Code::Zero,
        Mark::Unlinked(why) => Code::Fault(why.errno()),
        Mark::Finished(code) => code,
    }
}

/// The answer of an event of an URB in this state. A Take is of no URB.
pub(crate) fn answered(event: Event, state: &UrbState) -> Answer
    ensures { IsOfUrb event → result ≡ answer_of event state.now [] }
{
    match event {
        Event::Submit { .. } => Answer::Code(refused(state)),
        Event::Mark { .. } => Answer::Code(unlinked(state)),
        Event::Finish { .. } => Answer::Truth(matches!(state.mark, Mark::Clear)),
        Event::Give { .. } => Answer::Code(status(state.mark)),
        Event::Claim { .. } => Answer::Number(state.rest),
        _ => Answer::Nothing,
    }
}

pub(crate) fn with_flag(flag: Flag, stands: bool, flags: Flags) -> Flags
    ensures { result ≡ flags_with flag stands flags }
{
    match flag {
        Flag::Gone => Flags {
            gone: stands,
            ..flags
        },
        Flag::Off => Flags {
            off: stands,
            ..flags
        },
        Flag::Down => Flags {
            down: stands,
            ..flags
        },
    }
}

pub(crate) fn is_quiet(state: &UrbState) -> bool
    ensures { IsTrue result ↔ ((state.now.queued ≡ false) × (state.now.handlers ≡ 0)) }
{
    !state.queued && state.handlers == 0
}

pub(crate) fn is_marked(mark: Mark) -> bool
    ensures { result ≡ not (is_clear mark) }
{
    !matches!(mark, Mark::Clear)
}

pub(crate) fn has_flag(flag: Flag, flags: Flags) -> bool
    ensures { result ≡ flag_of flag flags }
{
    match flag {
        Flag::Gone => flags.gone,
        Flag::Off => flags.off,
        Flag::Down => flags.down,
    }
}

// After a submit with this answer.
fn submitted(answer: Answer, state: UrbState) -> UrbState
    ensures { result ≡ (if accepted answer then record state { queued = true; mark = Mark.Clear } else state) }
{
    match answer {
        Answer::Code(Code::Zero) => UrbState {
            queued: true,
            mark: Mark::Clear,
            ..state
        },
        _ => state,
    }
}

// After an unlink with this answer.
fn marked(why: Why, answer: Answer, state: UrbState) -> UrbState
    ensures { result ≡ (if unlinks answer then record state { mark = Mark.Unlinked why } else state) }
{
    match answer {
        Answer::Code(Code::Fault(Errno::EINPROGRESS)) => UrbState {
            mark: Mark::Unlinked(why),
            ..state
        },
        _ => state,
    }
}

// After its transfer ended, where that was answered so.
fn finished(code: Code, answer: Answer, state: UrbState) -> UrbState
    ensures { result ≡ (if finishes answer then record state { mark = Mark.Finished code } else state) }
{
    match answer {
        Answer::Truth(true) => UrbState {
            mark: Mark::Finished(code),
            ..state
        },
        _ => state,
    }
}

fn flagged(flag: Flag, stands: bool, state: UrbState) -> UrbState
    ensures { result ≡ record state { flags = flags_with flag stands state.flags } }
{
    UrbState {
        flags: with_flag(flag, stands, state.flags),
        ..state
    }
}

/// The state of an URB after an event of it with its answer. A count that is full stays.
pub(crate) fn changed(event: Event, answer: Answer, state: UrbState) -> UrbState
    ensures { CanCount event state → result ≡ after event answer state }
{
    match event {
        Event::Submit { .. } => submitted(answer, state),
        Event::Mark { why, .. } => marked(why, answer, state),
        Event::Finish { code, .. } => finished(code, answer, state),
        Event::Give { .. } => UrbState {
            queued: false,
            mark: Mark::Clear,
            handlers: state.handlers.saturating_add(1),
            ..state
        },
        Event::Link { .. } | Event::Take { .. } | Event::Quiet { .. } => state,
        Event::Rest { number, .. } => UrbState {
            rest: Some(number),
            ..state
        },
        Event::End { .. } => UrbState {
            handlers: state.handlers.saturating_sub(1),
            ..state
        },
        Event::Reject { .. } => UrbState {
            rejects: state.rejects.saturating_add(1),
            ..state
        },
        Event::Withdraw { .. } => UrbState {
            rejects: state.rejects.saturating_sub(1),
            ..state
        },
        Event::Claim { .. } => UrbState {
            rest: None,
            ..state
        },
        Event::Flag { flag, .. } => flagged(flag, true, state),
        Event::Unflag { flag, .. } => flagged(flag, false, state),
    }
}
