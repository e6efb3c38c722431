//! What a pass owes and holds of an URB.
ghost use Rattle.std.specs.Prelude.{◌≡◌};
ghost use Rattle.usb_machine.specs.Parts.{nothing_held, any_flag as any_of, holds_any as holds_any_of, while_held as while_held_of, held_after};
ghost use Rattle.usb_machine.specs.Rows.{CanHold, no_row, row_after};

use crate::change::with_flag;
use crate::event::{Answer, Event};
use crate::state::{Flags, no_flags};
use usb_types::Code;

/// What a pass holds against an URB: its rejects, its flags, and whether it keeps the URB quiet.
#[derive(Clone, Copy)]
pub(crate) struct Held {
    pub(crate) rejects: u8,
    pub(crate) flags: Flags,
    pub(crate) kept: bool,
}

fn any_flag(flags: Flags) -> bool
    ensures { result ≡ any_of flags }
{
    flags.gone || flags.off || flags.down
}

fn holds_any(held: Held) -> bool
    ensures { result ≡ holds_any_of held }
{
    held.rejects != 0 || any_flag(held.flags)
}

fn while_held(held: Held) -> Held
    ensures { result ≡ while_held_of held }
{
    Held {
        kept: held.kept && holds_any(held),
        ..held
    }
}

fn held_next(held: Held, event: Event) -> Held
    ensures { CanHold event held → result ≡ held_after held event }
{
    match event {
        Event::Reject { .. } => Held {
            rejects: held.rejects.saturating_add(1),
            ..held
        },
        Event::Withdraw { .. } => while_held(Held {
            rejects: held.rejects.saturating_sub(1),
            ..held
        }),
        Event::Flag { flag, .. } => Held {
            flags: with_flag(flag, true, held.flags),
            ..held
        },
        Event::Unflag { flag, .. } => while_held(Held {
            flags: with_flag(flag, false, held.flags),
            ..held
        }),
        Event::Quiet { .. } => Held {
            kept: holds_any(held),
            ..held
        },
        _ => held,
    }
}

/// Whether a pass owes the Link of an URB, and what it holds against the URB.
#[derive(Clone, Copy)]
pub(crate) struct PassRow {
    pub(crate) owes: bool,
    pub(crate) held: Held,
}

/// What a pass without entries owes and holds.
pub(crate) fn nothing() -> PassRow
    ensures { result ≡ no_row }
{
    PassRow {
        owes: false,
        held: Held {
            rejects: 0,
            flags: no_flags(),
            kept: false,
        },
    }
}

impl PassRow {
    /// What the pass owes and holds after its event of the URB with this answer.
    pub(crate) fn after(self, event: Event, answer: Answer) -> PassRow
        ensures { CanHold event self.held → result ≡ row_after event answer self }
    {
        let owes = match event {
            Event::Submit { .. } => self.owes || answer == Answer::Code(Code::Zero),
            Event::Link { .. } => false,
            _ => self.owes,
        };
        PassRow {
            owes,
            held: held_next(self.held, event),
        }
    }
}
