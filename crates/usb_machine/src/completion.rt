//! What a driver's completion handler reads of a transfer that came back.
ghost use Rattle.std.specs.Prelude.{◌≡◌, ◌<◌, ◌^◌, length};
ghost use Rattle.usb_machine.specs.Shapes.{HasWindow};
ghost use Rattle.usb_machine.specs.Completion.{moved_bytes, after_window, read_again};

use crate::transfer::Transfer;
use usb_types::{Action, Code, Errno};

impl Transfer {
    /// The bytes that were moved: the first `actual` of the window.
    pub fn moved(&self) -> &[u8]
        requires { HasWindow self.now }
        ensures { result.now ≡ moved_bytes self.now }
    {
        let from = self.from as usize;
        &self.buf.bytes()[from..from + self.actual as usize]
    }

    /// How many bytes of the buffer come after the window.
    pub fn after_window(&self) -> u32
        requires { HasWindow self.now }
        ensures { result ≡ after_window self.now }
    {
        self.buf.bytes().len() as u32 - (self.from + self.len)
    }

    /// What a driver does with a read that it keeps, by the status it came back with: after a success, EPROTO and EOVERFLOW
    /// it submits it again with its whole buffer, and else it rests it.
    pub fn read_again(&self, status: Code) -> Action
        requires { length self.now.buf < 2 ^ 32 }
        ensures { result ≡ read_again status self.now }
    {
        match status {
            Code::Zero | Code::Fault(Errno::EPROTO | Errno::EOVERFLOW) => Action::Again {
                from: 0,
                len: self.buf.bytes().len() as u32,
            },
            _ => Action::Rest,
        }
    }
}
