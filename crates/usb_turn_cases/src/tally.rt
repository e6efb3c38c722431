//! The tally of one caller, and the history that it stands for.
ghost use Rattle.std.specs.Prelude.{◌≡◌, ◌+◌, ◌%◌, ◌^◌};

use crate::entry::{Entry, Made};
use std::snapshot::Snapshot;
use usb_turn::Kept;

/// A total, the number of calls modulo 2^64, and for proofs alone the last call.
#[derive(Drop)]
pub struct Tally {
    pub total: u64,
    pub rows: u64,
    pub last: Snapshot<Made>,
}

/// What of a tally is the same in every turn: nothing.
pub struct Fixed;

impl Tally {
    pub fn new() -> Tally
        ensures { (result.total ≡ 0) × (result.rows ≡ 0) }
    {
        Tally {
            total: 0,
            rows: 0,
            last: Snapshot::of(&Made { add: 0, found: 0 }),
        }
    }

    /// Adds, and answers the total that it found.
    pub fn add(&mut self, more: u64) -> u64
        ensures answer { result ≡ self.old.total }
        ensures total { self.new.total ≡ (self.old.total + more) % 2 ^ 64 }
        ensures rows { self.new.rows ≡ (self.old.rows + 1) % 2 ^ 64 }
        ensures last { self.new.last.value ≡ record { add = more; found = self.old.total } }
    {
        let found = self.total;
        self.total = found.wrapping_add(more);
        self.rows = self.rows.wrapping_add(1);
        self.last = Snapshot::of(&Made { add: more, found });
        found
    }
}

impl Kept for Tally {
    type Row = Entry;

    type Key = Fixed;

    ghost use Rattle.std.specs.Prelude.{[], ◌∷◌};
    ghost use Rattle.usb_turn_cases.specs.History.{IsTallyOf, by_of, entry};

    ghost stands = { λ t rows. IsTallyOf t.total t.rows rows };

    ghost key = { λ _. record {} };

    ghost by = { by_of };

    ghost newest = { λ p t. entry p t.last.value ∷ [] };

    fn rows(&self) -> u64 {
        self.rows
    }
}
