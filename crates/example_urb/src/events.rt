//! The events of the example, in their order, and the passes that make them.
use usb_machine::{Event, SERVER};
use usb_types::{Code, UrbId, Why};

const A: UrbId = UrbId(0);

const B: UrbId = UrbId(1);

/// The thread of the driver.
const DRIVER: u32 = 2;

/// A thread that kills.
const KILLER: u32 = 3;

const KILL_B: Event = Event::Mark {
    urb: B,
    why: Why::Kill,
};

const FINISH_A: Event = Event::Finish {
    urb: A,
    code: Code::Zero,
};

const FINISH_B: Event = Event::Finish {
    urb: B,
    code: Code::Zero,
};

/// Each with its pass.
pub const EVENTS: &[(u32, Event)] = &[
    (DRIVER, Event::Submit { urb: A, number: 1 }),
    (DRIVER, Event::Link { urb: A }),
    (DRIVER, Event::Submit { urb: B, number: 2 }),
    (DRIVER, Event::Link { urb: B }),
    (DRIVER, Event::Submit { urb: B, number: 3 }),
    (SERVER, Event::Take { ep: 0 }),
    (SERVER, FINISH_A),
    (SERVER, Event::Give { urb: A }),
    (SERVER, Event::Rest { urb: A, number: 1 }),
    (SERVER, Event::End { urb: A }),
    (KILLER, Event::Reject { urb: B }),
    (KILLER, KILL_B),
    (KILLER, KILL_B),
    (KILLER, Event::Quiet { urb: B }),
    (SERVER, Event::Take { ep: 0 }),
    (SERVER, FINISH_B),
    (SERVER, Event::Give { urb: B }),
    (DRIVER, Event::Submit { urb: B, number: 4 }),
    (KILLER, Event::Quiet { urb: B }),
    (SERVER, Event::Rest { urb: B, number: 2 }),
    (SERVER, Event::End { urb: B }),
    (KILLER, Event::Quiet { urb: B }),
    (KILLER, Event::Claim { urb: B }),
    (KILLER, KILL_B),
    (KILLER, Event::Withdraw { urb: B }),
    (DRIVER, Event::Submit { urb: B, number: 5 }),
    (DRIVER, Event::Link { urb: B }),
];

/// A pass in words.
pub fn who(pass: u32) -> &'static str {
    match pass {
        SERVER => "server",
        DRIVER => "driver",
        _ => "killer",
    }
}
