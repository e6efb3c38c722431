//! Hosts whose passes learn from one another.
ghost use Rattle.usb_machine.specs.Fresh.{Begins, Looked};

use crate::host::Host;
use std::sync::Wait;

/// A host whose passes can learn from each other what they have seen.
pub trait Meets: Host {
    /// Afterwards what `pass` has seen begins with all that both had seen.
    fn meet<R: Wait>(&self, rt: &R, pass: &mut Self::Pass, other: &mut Self::Pass)
        requires here { Self.is_of self.now pass.old × Self.is_of self.now other.old }
        ensures here { Self.is_of self.now pass.new × Self.is_of self.now other.new }
        ensures pass { Looked (Self.machine self.now) (Self.known pass.old) (Self.known pass.new) }
        ensures other { Looked (Self.machine self.now) (Self.known other.old) (Self.known other.new) }
        ensures met { Begins (Self.known pass.new).seen (Self.known other.old).seen };
}
