//! A tally that threads share.
ghost use Rattle.std.specs.Prelude.{◌≡◌};
ghost use Rattle.usb_turn.specs.Pass.{met};
ghost use Rattle.usb_turn.specs.Rows.{Begins};
ghost use Rattle.usb_turn_cases.specs.History.{entry, IsLegal};
ghost use Rattle.usb_turn_cases.specs.Ran.{Fresh, IsIdle};

use crate::tally::Tally;
use std::sync::Wait;
use usb_turn::{TurnPass, Turns};

#[derive(Drop)]
pub struct SharedTally {
    pub turns: Turns<Tally>,
}

impl SharedTally {
    /// Adds in a turn of its own, and answers the total that it found.
    pub fn add(&self, rt: &impl Wait, pass: &mut TurnPass<Tally>, more: u64) -> u64
        requires { IsIdle self.now pass.old }
        ensures { Fresh pass.old pass.new (entry pass.old.number (record { add = more; found = result })) }
    {
        let mut tally = self.turns.enter(rt, pass);
        let found = tally.add(more);
        self.turns.leave(pass, tally);
        found
    }

    /// After it `pass` has seen all that both had seen before.
    pub fn meet(&self, pass: &mut TurnPass<Tally>, other: &mut TurnPass<Tally>)
        requires pass { IsIdle self.now pass.old }
        requires other { IsIdle self.now other.old }
        ensures met { pass.new ≡ met pass.old other.old.seen }
        ensures same { other.new ≡ other.old }
        ensures begins { Begins pass.new.seen pass.old.seen × Begins pass.new.seen other.old.seen }
        ensures legal { IsLegal 0 pass.new.seen }
    {
        self.turns.meet(pass, other);
    }
}
