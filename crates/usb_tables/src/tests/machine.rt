//! Lists of steps of the URB machine, with the answers that its rules give.
ghost use Rattle.std.specs.Prelude.{IfOk};
ghost use Rattle.usb_machine.specs.Plain.{IsLayout};

use std::alloc::Global;
use std::process::Abort;
use std::test::Fail;
use usb_machine::{Answer, EndKind, Event, Layout, Shape, Step, replay};
use usb_types::{Code, Errno, Flag, List, Memory, UrbId, Why};

const A: UrbId = UrbId(0);

const B: UrbId = UrbId(1);

/// Two URBs of one bulk endpoint, and one URB without a home.
fn layout(alloc: Global) -> Result<Layout, Memory>
    ensures { IfOk result IsLayout }
{
    let bulk = Shape {
        device: 0,
        address: 0x81,
        kind: EndKind::Bulk,
        max: 64,
        interval: 0,
    };
    let Ok(homes) = vec![in alloc; Some(0u32), Some(0), None] else {
        return Err(Memory);
    };
    let Ok(shapes) = vec![in alloc; bulk] else {
        return Err(Memory);
    };
    Ok(Layout {
        homes: List::of(homes),
        shapes: List::of(shapes),
    })
}

fn by(pass: u32, event: Event) -> Step {
    Step { pass, event }
}

/// A pass takes a step by an event, which gets this answer.
type Row = (u32, Event, Answer);

const NOTHING: Answer = Answer::Nothing;

const ACCEPTED: Answer = Answer::Code(Code::Zero);

const KILL_A: Event = Event::Mark {
    urb: A,
    why: Why::Kill,
};

const KILL_B: Event = Event::Mark {
    urb: B,
    why: Why::Kill,
};

const UNLINK_A: Event = Event::Mark {
    urb: A,
    why: Why::Unlink,
};

const FINISH_A: Event = Event::Finish {
    urb: A,
    code: Code::Zero,
};

const FINISH_B: Event = Event::Finish {
    urb: B,
    code: Code::Zero,
};

/// The steps of the rows get their answers.
fn check_answers<R: Abort + AllocGlobal>(rt: &R, rows: &[Row]) -> Result<(), Fail> {
    let alloc = rt.alloc();
    let mut steps = Vec::new(alloc);
    for (pass, event, _) in rows {
        steps.push(by(*pass, *event))?;
    }
    let layout = layout(alloc)?;
    let said = replay(alloc, &layout, 2, &steps)?.ok_or("a step may not come")?;
    assert_eq!(rt; said.items().len(), rows.len());
    for (at, (said, (_, _, answer))) in said.items().iter().zip(rows).enumerate() {
        assert_eq!(rt; *said, *answer, "step {at}");
    }
    Ok(())
}

/// The last of the steps may not come, and those before it may.
fn check_last<R: Abort + AllocGlobal>(rt: &R, turns: &[(u32, Event)]) -> Result<(), Fail> {
    let alloc = rt.alloc();
    let mut steps = Vec::new(alloc);
    for (pass, event) in turns {
        steps.push(by(*pass, *event))?;
    }
    let layout = layout(alloc)?;
    assert!(rt; replay(alloc, &layout, 2, &steps)?.is_none());
    steps.pop();
    assert!(rt; replay(alloc, &layout, 2, &steps)?.is_some());
    Ok(())
}

#[test]
fn a_kill_ends_a_transfer(rt: HostRuntime) -> Result<(), Fail> {
    const IN_PROGRESS: Answer = Answer::Code(Code::Fault(Errno::EINPROGRESS));
    const NO_ENTRY: Answer = Answer::Code(Code::Fault(Errno::ENOENT));
    const REFUSED: Answer = Answer::Code(Code::Fault(Errno::EPERM));
    const ROWS: &[Row] = &[
        (2, Event::Submit { urb: A, number: 11 }, ACCEPTED),
        (2, Event::Link { urb: A }, NOTHING),
        (2, Event::Submit { urb: B, number: 12 }, ACCEPTED),
        (2, Event::Link { urb: B }, NOTHING),
        (0, Event::Take { ep: 0 }, Answer::Urb(A)),
        (3, Event::Reject { urb: B }, NOTHING),
        (0, FINISH_A, Answer::Truth(true)),
        (3, KILL_B, IN_PROGRESS),
        (0, Event::Give { urb: A }, ACCEPTED),
        (0, Event::End { urb: A }, NOTHING),
        (0, Event::Take { ep: 0 }, Answer::Urb(B)),
        (0, Event::Give { urb: B }, NO_ENTRY),
        (0, Event::Rest { urb: B, number: 12 }, NOTHING),
        (0, Event::End { urb: B }, NOTHING),
        (3, Event::Quiet { urb: B }, NOTHING),
        (3, Event::Claim { urb: B }, Answer::Number(Some(12))),
        (2, Event::Submit { urb: B, number: 13 }, REFUSED),
        (3, Event::Withdraw { urb: B }, NOTHING),
        (2, Event::Submit { urb: B, number: 14 }, ACCEPTED),
    ];
    check_answers(&rt, ROWS)
}

#[test]
fn the_first_unlink_stands(rt: HostRuntime) -> Result<(), Fail> {
    const NOT_OUT: Answer = Answer::Code(Code::Fault(Errno::EIDRM));
    const BUSY: Answer = Answer::Code(Code::Fault(Errno::EBUSY));
    const IN_PROGRESS: Answer = Answer::Code(Code::Fault(Errno::EINPROGRESS));
    const UNLINKED: Answer = Answer::Code(Code::Fault(Errno::ECONNRESET));
    const ROWS: &[Row] = &[
        (2, KILL_A, NOT_OUT),
        (2, Event::Submit { urb: A, number: 1 }, ACCEPTED),
        (2, Event::Link { urb: A }, NOTHING),
        (2, Event::Submit { urb: A, number: 2 }, BUSY),
        (2, UNLINK_A, IN_PROGRESS),
        (3, KILL_A, BUSY),
        (0, Event::Take { ep: 0 }, Answer::Urb(A)),
        (0, FINISH_A, Answer::Truth(false)),
        (0, Event::Give { urb: A }, UNLINKED),
    ];
    check_answers(&rt, ROWS)
}

#[test]
fn flags_refuse_in_their_order(rt: HostRuntime) -> Result<(), Fail> {
    const SUBMIT: Event = Event::Submit { urb: A, number: 1 };
    const DOWN: Flag = Flag::Down;
    const OFF: Flag = Flag::Off;
    const GONE: Flag = Flag::Gone;
    const IS_DOWN: Answer = Answer::Code(Code::Fault(Errno::ESHUTDOWN));
    const ROWS: &[Row] = &[
        (1, Event::Flag { urb: A, flag: DOWN }, NOTHING),
        (2, SUBMIT, IS_DOWN),
        (1, Event::Flag { urb: A, flag: OFF }, NOTHING),
        (2, SUBMIT, Answer::Code(Code::Fault(Errno::ENOENT))),
        (3, Event::Reject { urb: A }, NOTHING),
        (2, SUBMIT, Answer::Code(Code::Fault(Errno::EPERM))),
        (1, Event::Flag { urb: A, flag: GONE }, NOTHING),
        (2, SUBMIT, Answer::Code(Code::Fault(Errno::ENODEV))),
        (1, Event::Unflag { urb: A, flag: GONE }, NOTHING),
        (1, Event::Unflag { urb: A, flag: OFF }, NOTHING),
        (3, Event::Withdraw { urb: A }, NOTHING),
        (2, SUBMIT, IS_DOWN),
    ];
    check_answers(&rt, ROWS)
}

#[test]
fn the_second_pending_urb_waits(rt: HostRuntime) -> Result<(), Fail> {
    const TURNS: &[(u32, Event)] = &[
        (2, Event::Submit { urb: A, number: 1 }),
        (2, Event::Link { urb: A }),
        (2, Event::Submit { urb: B, number: 2 }),
        (2, Event::Link { urb: B }),
        (0, Event::Take { ep: 0 }),
        (0, Event::Take { ep: 0 }),
        (0, FINISH_B),
    ];
    check_last(&rt, TURNS)
}
