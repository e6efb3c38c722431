//! The handlers' side over a machine with its transfers.
ghost use Rattle.std.specs.Prelude.{ℕ, ◌≡◌, ◌<◌, ◌++◌, ◌∷◌, [], List, length, slice_get, slice_set, Some, None};
ghost use Rattle.usb_serve.specs.declared.plain_side.Slots.{Slots};
ghost use Rattle.usb_serve.specs.PlainHandlers.{plain_told, plain_runs, PlainRests, PlainSubmits, PlainEnds};

use crate::handler::HandlerSide;
use crate::plain_side::{PlainGiven, PlainSide};
use usb_machine::{GivenBack, Refused, SERVER, Transfer};
use usb_types::{Code, UrbId};

impl GivenBack for PlainGiven {
    ghost told = { plain_told };

    fn urb(&self) -> UrbId {
        self.urb
    }

    fn code(&self) -> Code {
        self.code
    }

    fn transfer(&self) -> Option<&Transfer> {
        self.transfer.as_ref()
    }

    fn take_transfer(&mut self) -> Option<Transfer> {
        self.transfer.take()
    }
}

impl HandlerSide for PlainSide<'_> {
    type Given = PlainGiven;

    ghost runs = { plain_runs };

    ghost rests = { PlainRests };

    ghost submits = { PlainSubmits };

    ghost ends = { PlainEnds };

    fn rest(&mut self, given: &mut PlainGiven, t: Transfer) {
        self.rest_transfer(given.urb, t);
    }

    fn submit(&mut self, urb: UrbId, t: Transfer) -> Result<(), Refused> {
        self.submit_by(SERVER, urb, t)
    }

    fn end(&mut self, given: PlainGiven) {
        self.end_handler(given.urb);
    }
}
