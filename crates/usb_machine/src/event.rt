//! The events of the URB machine, and their answers.
use usb_types::{Code, Flag, UrbId, Why};

/// What happens to an URB, or to an endpoint's line, in one moment. A pass makes it.
#[derive(Clone, Copy)]
pub enum Event {
    /// Asks the gate of the URB, which accepts or refuses submits, for a transfer with this number.
    Submit { urb: UrbId, number: u64 },
    /// Puts the URB last in the line of its endpoint.
    Link { urb: UrbId },
    /// Moves the first URB of the endpoint's line after its pending ones.
    Take { ep: u32 },
    /// Marks the URB as unlinked.
    Mark { urb: UrbId, why: Why },
    /// Marks the URB as finished, with its transfer's result.
    Finish { urb: UrbId, code: Code },
    /// Gives the URB back with the status that its mark stands for.
    Give { urb: UrbId },
    /// Leaves the transfer with this number to rest with the URB.
    Rest { urb: UrbId, number: u64 },
    /// Ends a completion handler of the URB.
    End { urb: UrbId },
    /// Raises a reject.
    Reject { urb: UrbId },
    /// Withdraws a reject.
    Withdraw { urb: UrbId },
    /// Sees the URB neither queued nor in a handler.
    Quiet { urb: UrbId },
    /// Takes the resting transfer.
    Claim { urb: UrbId },
    /// Sets a flag.
    Flag { urb: UrbId, flag: Flag },
    /// Unsets a flag.
    Unflag { urb: UrbId, flag: Flag },
}

/// What an event answers.
#[derive(Clone, Copy, Debug, PartialEq)]
pub enum Answer {
    Nothing,
    /// Of Submit, Mark and Give.
    Code(Code),
    /// Of Finish: whether no mark stood.
    Truth(bool),
    /// Of Take.
    Urb(UrbId),
    /// Of Claim: the number of the transfer that rested, if one did.
    Number(Option<u64>),
}
