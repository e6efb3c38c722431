//! Turns, and the passes that take them.
ghost use Rattle.std.specs.Prelude.{◌≡◌, ◌<◌};
ghost use Rattle.usb_turn.specs.Pass.{Owns};

use crate::kept::Kept;
use crate::rule::{Held, Opening, View};
use atomic_table::{Seat, Table};
use std::alloc::Global;
use std::marker::Model;

mod calls;
mod closes;
mod opens;
mod steps;

/// One value, which is taken and given back in turns.
#[derive(Drop)]
pub struct Turns<V: Kept> {
    table: Table<Option<V>, View<V::Row>, Opening<V>, Held<V>, Global>,
    ghost sized: { (table.shared.table_id.words ≡ 3) × (table.shared.table_id.slots ≡ 1) × (0 < table.shared.key.passes) },
}

/// The right to take turns. Contracts see its number, the rows that it has seen, its own rows, and whether it has the
/// turn.
#[derive(Drop)]
pub struct TurnPass<V: Kept> {
    seat: Seat<Option<V>, View<V::Row>>,
    /// How many rows there were when it took its last turn, modulo 2^64.
    rows: u64,
    number: u32,
}

impl<V: Kept> Model for TurnPass<V> {
    ghost use Rattle.std.specs.Prelude.{◌≡◌};
    ghost use Rattle.usb_turn.specs.Rows.{number_of};
    ghost use Rattle.usb_turn.specs.Pass.{Pass, pass_of, Sits};

    ghost Value = { Pass V.Row };

    ghost view = { λ p. pass_of p.seat.table_id p.seat.me.0 };

    ghost invariant = { λ p. Sits V.stands V.by p.rows p.seat.me × (p.number ≡ number_of p.seat.me.0.parts) };
}

/// Turns that are over. Contracts see the list of all rows.
#[derive(Drop)]
pub struct Ended<V: Kept> {
    turns: Turns<V>,
    seat: Seat<Option<V>, View<V::Row>>,
}

impl<V: Kept> Model for Ended<V> {
    ghost use Rattle.std.specs.Prelude.{List};

    ghost Value = { List V.Row };

    ghost view = { λ e. e.seat.me.0.seen };
}

impl<V: Kept> TurnPass<V> {
    /// The number that `new` gave it.
    pub fn number(&self) -> u32
        ensures { result ≡ self.now.number }
    {
        self.number
    }

    /// For proofs alone: some value stands for what the pass has seen, and its own rows are its part of that.
    pub fn know(&self)
        ensures stands { (v : V) × V.stands v self.now.seen }
        ensures own { Owns V.by self.now }
    {
        let _ = &self.rows;
    }
}
