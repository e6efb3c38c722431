//! What is pending at an endpoint.
ghost use Rattle.std.specs.Prelude.{◌≡◌, ◌<◌, List, length, slice_get};
ghost use Rattle.usb_machine.specs.declared.entry.Entry.{Entry};
ghost use Rattle.usb_machine.specs.History.{Machine, pending_of};
ghost use Rattle.usb_machine.specs.Plain.{Stands, ends_of};

use crate::plain::Plain;

impl Plain {
    /// The pending URB of an endpoint that stands at this place.
    pub fn pending(&self, ep: u32, place: usize) -> Option<u32>
        requires { ep < ends_of self.now }
        ensures { (g : Machine) (h : List Entry) → Stands self.now g h → result ≡ slice_get (pending_of g h ep) place }
    {
        self.ends[ep as usize].pending.get(place).copied()
    }

    /// How many URBs are pending at an endpoint.
    pub fn pending_len(&self, ep: u32) -> usize
        requires { ep < ends_of self.now }
        ensures { (g : Machine) (h : List Entry) → Stands self.now g h → result ≡ length (pending_of g h ep) }
    {
        self.ends[ep as usize].pending.len()
    }
}
