//! An URB that was given back, until its handler has ended.
ghost use Rattle.std.specs.Prelude.{◌≡◌, Some, None};

use usb_machine::{GivenBack, Transfer};
use usb_types::{Code, UrbId};

/// An URB that was given back, with its status and its transfer.
#[derive(Drop)]
pub struct TurnGiven {
    pub(crate) urb: UrbId,
    pub(crate) code: Code,
    pub(crate) transfer: Option<Transfer>,
}

impl GivenBack for TurnGiven {
    ghost told = { λ g. record { urb = g.urb.0; code = g.code; transfer = g.transfer } };

    fn urb(&self) -> UrbId {
        self.urb
    }

    fn code(&self) -> Code {
        self.code
    }

    fn transfer(&self) -> Option<&Transfer> {
        self.transfer.as_ref()
    }

    fn take_transfer(&mut self) -> Option<Transfer> {
        self.transfer.take()
    }
}
