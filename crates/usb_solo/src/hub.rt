//! The hub's token of a host for one thread.
ghost use Rattle.std.specs.Prelude.{◌≡◌, ◌<◌, slice_set, get_or, length};
ghost use Rattle.usb_machine.specs.State.{has_flag, with_flag};

use crate::solo::SoloPass;
use std::alloc::Global;
use usb_machine::{Flags, HubToken, Token};
use usb_types::{Flag, UrbId};

/// The hub's token: its pass, and the flags of each URB that it has set.
#[derive(Drop)]
pub struct SoloHub {
    pub(crate) pass: SoloPass,
    pub(crate) flags: Vec<Flags>,
}

fn is_set(flags: Flags, flag: Flag) -> bool
    ensures { result ≡ has_flag flag flags }
{
    match flag {
        Flag::Gone => flags.gone,
        Flag::Off => flags.off,
        Flag::Down => flags.down,
    }
}

fn with(flags: Flags, flag: Flag, stands: bool) -> Flags
    ensures { result ≡ with_flag flag stands flags }
{
    match flag {
        Flag::Gone => Flags {
            gone: stands,
            ..flags
        },
        Flag::Off => Flags {
            off: stands,
            ..flags
        },
        Flag::Down => Flags {
            down: stands,
            ..flags
        },
    }
}

impl SoloHub {
    ghost use Rattle.usb_machine.specs.State.{no_flags};

    pub(crate) fn set(&mut self, urb: UrbId, flag: Flag, stands: bool)
        requires { urb.0 < length self.old.flags.items }
        ensures flags { self.new.flags.items ≡ slice_set self.old.flags.items urb.0 (with_flag flag stands (get_or self.old.flags.items urb.0 no_flags)) }
        ensures pass { self.new.pass ≡ self.old.pass }
    {
        let old = self.flags[urb.0 as usize];
        self.flags[urb.0 as usize] = with(old, flag, stands);
    }
}

impl Token for SoloHub {
    type Pass = SoloPass;

    ghost use Rattle.std.specs.Prelude.{refl};

    ghost own = { λ t. t.pass };

    ghost with_own = { λ t p. record t { pass = p } };

    fn pass(&mut self) -> &mut SoloPass {
        &mut self.pass
    }

    ghost puts = { λ t p. refl };
}

impl HubToken for SoloHub {
    ghost use Rattle.std.specs.Prelude.{refl, get_or, length, ◌≤◌};
    ghost use Rattle.usb_machine.specs.State.{no_flags};

    ghost has_room = { λ t g. length g.layout.homes ≤ length t.flags.items };

    ghost flags = { λ t u. get_or t.flags.items u no_flags };

    fn flagged(&self, urb: UrbId, flag: Flag) -> bool {
        match self.flags.get(urb.0 as usize) {
            Some(flags) => is_set(*flags, flag),
            None => false,
        }
    }

    ghost keeps_flags = { λ t p u. refl };

    ghost keeps_room = { λ t p g h. h };
}
