//! The calls of a pass.
ghost use Rattle.std.specs.Prelude.{◌≡◌, ◌++◌, [], true, false, List};
ghost use Rattle.usb_turn.specs.Rows.{Begins};
ghost use Rattle.usb_turn.specs.Pass.{AtMostOne, Owns, entered, left, met};
ghost use Rattle.usb_turn.specs.Shown.{id_of, first_of};

use super::{TurnPass, Turns};
use crate::kept::Kept;
use crate::rule::{Give, Tell};
use std::marker::Brand;
use std::sync::Wait;

impl<V: Kept> Turns<V> {
    /// Waits for the turn and takes the value. It may wait for good, where another pass keeps the turn.
    pub fn enter(&self, rt: &impl Wait, pass: &mut TurnPass<V>) -> V
        requires here { (pass.old.table ≡ id_of self.now) × (pass.old.has ≡ false) }
        ensures same { pass.new ≡ entered pass.old pass.new.seen }
        ensures stands { V.stands result pass.new.seen }
        ensures key { V.key result ≡ V.key (first_of self.now) }
        ensures begins { Begins pass.new.seen pass.old.seen }
        ensures own { Owns V.by pass.new }
    {
        self.take::<Brand, _>(rt, &mut pass.seat);
        let Some(value) = self.table.shared.exchange(&mut pass.seat, 0, None) else {
            unreachable!()
        };
        pass.rows = value.rows();
        value
    }

    /// Gives the value and the turn back. The value stands for what the pass has seen with at most one row more, which
    /// it names as its newest.
    pub fn leave(&self, pass: &mut TurnPass<V>, value: V)
        requires here { (pass.old.table ≡ id_of self.now) × (pass.old.has ≡ true) }
        requires stands { V.stands value (pass.old.seen ++ V.newest pass.old.number value) }
        requires key { V.key value ≡ V.key (first_of self.now) }
        requires one { AtMostOne V.by pass.old.number (V.newest pass.old.number value) }
        ensures same { pass.new ≡ left pass.old (V.newest pass.old.number value) }
        ensures own { Owns V.by pass.new }
    {
        self.give_back(pass, value);
    }

    /// Counts the row, puts the value back into the slot, and gives the turn back.
    fn give_back(&self, pass: &mut TurnPass<V>, value: V)
        ghost more: { List V.Row }
        requires here { (pass.old.table ≡ id_of self.now) × (pass.old.has ≡ true) }
        requires stands { V.stands value (pass.old.seen ++ more) }
        requires key { V.key value ≡ V.key (first_of self.now) }
        requires one { AtMostOne V.by pass.old.number more }
        ensures same { pass.new ≡ left pass.old more }
        ensures own { Owns V.by pass.new }
    {
        let before = pass.rows;
        let after = value.rows();
        self.count(&mut pass.seat, before, after);
        let None = self.table.shared.exchange(&mut pass.seat, 0, Some(value)) else {
            unreachable!()
        };
        self.table.shared.store::<Give>(&mut pass.seat, 1, 0);
    }

    /// After it `pass` has seen all that both had seen before. It waits for nothing.
    pub fn meet(&self, pass: &mut TurnPass<V>, other: &mut TurnPass<V>)
        requires pass { (pass.old.table ≡ id_of self.now) × (pass.old.has ≡ false) }
        requires other { (other.old.table ≡ id_of self.now) × (other.old.has ≡ false) }
        ensures met { pass.new ≡ met pass.old other.old.seen }
        ensures same { other.new ≡ other.old }
        ensures begins { Begins pass.new.seen pass.old.seen × Begins pass.new.seen other.old.seen }
        ensures stands { (v : V) × V.stands v pass.new.seen }
        ensures own { Owns V.by pass.new }
    {
        let note = self.table.shared.split_seat::<Tell>(&mut other.seat);
        self.hear(&mut pass.seat, note);
    }
}
