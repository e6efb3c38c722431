//! The state of an URB.
ghost use Rattle.std.specs.Prelude.{◌≡◌};
ghost use Rattle.usb_machine.specs.State.{opening, no_flags as none};

use usb_types::{Code, Why};

/// What is settled of a queued URB's status.
#[derive(Clone, Copy)]
pub enum Mark {
    Clear,
    Unlinked(Why),
    Finished(Code),
}

/// The flags that stand on an URB.
#[derive(Clone, Copy)]
pub struct Flags {
    pub gone: bool,
    pub off: bool,
    pub down: bool,
}

/// The state of an URB: whether it is queued, its mark, its rejects, its flags, how many completion handlers of it
/// run, and the number of the transfer that rests with it.
#[derive(Clone, Copy)]
pub struct UrbState {
    pub queued: bool,
    pub mark: Mark,
    pub rejects: u64,
    pub flags: Flags,
    pub handlers: u64,
    pub rest: Option<u64>,
}

pub(crate) fn no_flags() -> Flags
    ensures { result ≡ none }
{
    Flags {
        gone: false,
        off: false,
        down: false,
    }
}

/// The state of each URB at first.
pub(crate) fn at_first() -> UrbState
    ensures { result ≡ opening }
{
    UrbState {
        queued: false,
        mark: Mark::Clear,
        rejects: 0,
        flags: no_flags(),
        handlers: 0,
        rest: None,
    }
}
