//! The words for URBs: their numbers, why they are unlinked, flags, roles, and what drivers do next.
ghost use Rattle.std.specs.Prelude.{◌≡◌};
ghost use Rattle.usb_types.specs.Codes.{errno_of};

use crate::errno::Errno;

/// An URB, by its number in the host's pool.
#[derive(Clone, Copy, Debug, PartialEq)]
pub struct UrbId(pub u32);

/// Why an URB is unlinked.
#[derive(Clone, Copy)]
pub enum Why {
    Unlink,
    Kill,
    Shutdown,
}

impl Why {
    /// The status with which an URB that is unlinked so comes back.
    pub fn errno(self) -> Errno
        ensures { result ≡ errno_of self }
    {
        match self {
            Why::Unlink => Errno::ECONNRESET,
            Why::Kill => Errno::ENOENT,
            Why::Shutdown => Errno::ESHUTDOWN,
        }
    }
}

/// A standing reason to refuse submits of an URB: its device is gone, its interface was unbound, or the host is down.
#[derive(Clone, Copy)]
pub enum Flag {
    Gone,
    Off,
    Down,
}

/// What an URB of a driver is for.
#[derive(Clone, Copy, Debug, PartialEq, Eq, Hash)]
pub enum Role {
    In,
    Note,
    Read0,
    Read1,
    Write,
    Ctl,
}

/// What becomes of a driver's transfer when it has come back: it rests, it is submitted again with this window, or it
/// rests and the driver asks a question of its own.
#[derive(Clone, Copy, Debug, PartialEq)]
pub enum Action {
    Rest,
    Again {
        /// Where the window begins, in bytes.
        from: u32,
        /// The window's length in bytes.
        len: u32,
    },
    Ask,
}
