//! The steps of a seat, from which the calls are made.
ghost use Rattle.std.specs.Prelude.{◌≡◌, ℕ, ◌%◌, ◌^◌, ◌++◌, ◌+◌, ◌<◌, [], ◌∷◌, true, false, length, List};
ghost use Rattle.usb_turn.specs.Held.{keyed, Took, Compared, In, grown, both, compared, dealer, HasOne};
ghost use Rattle.usb_turn.specs.Rows.{number_of, mine_of};
ghost use Rattle.usb_turn.specs.Pass.{AtMostOne, fresh};
ghost use Rattle.usb_turn.specs.Shown.{id_of, passes_of, first_of};

use super::{TurnPass, Turns};
use crate::kept::Kept;
use crate::rule::{Added, Compare, Count, Deal, Take, Tell, Told, View};
use atomic_table::Seat;
use std::marker::Brand;
use std::sync::Wait;
use std::thread;

impl<V: Kept> Turns<V> {
    /// Tries to take the turn, and yields to other threads between two tries.
    pub(super) fn take<N: Told<V::Key>, R: Wait>(
        &self,
        rt: &R,
        seat: &mut Seat<Option<V>, View<V::Row>>,
    )
        requires here { seat.old.table_id ≡ id_of self.now }
        requires key { N.is_key (V.key (first_of self.now)) }
        requires idle { (seat.old.me.1 ≡ []) × (seat.old.me.0.has ≡ false) × HasOne seat.old.me.0 }
        ensures same { (seat.new.table_id ≡ seat.old.table_id) × (seat.new.id ≡ seat.old.id) }
        ensures took { Took (keyed V.stands V.key N.is_key) V.by seat.old.me seat.new.me }
    {
        for _ in rt.forever() {
            if self.table.shared.compare_exchange::<Take<N>>(seat, 1, 0, 1) == 0 {
                return;
            }
            thread::yield_now();
        }
        unreachable!()
    }

    /// Counts the row that the turn added, if it added one.
    pub(super) fn count(&self, seat: &mut Seat<Option<V>, View<V::Row>>, before: u64, after: u64)
        ghost more: { List V.Row }
        requires here { seat.old.table_id ≡ id_of self.now }
        requires has { (seat.old.me.0.has ≡ true) × HasOne seat.old.me.0 }
        requires one { AtMostOne V.by (number_of seat.old.me.0.parts) more }
        requires rows { (before ≡ length seat.old.me.0.seen % 2 ^ 64) × (after ≡ length (seat.old.me.0.seen ++ more) % 2 ^ 64) }
        ensures same { (seat.new.table_id ≡ seat.old.table_id) × (seat.new.id ≡ seat.old.id) }
        ensures added { seat.new.me ≡ (grown seat.old.me.0 more, seat.old.me.1) }
    {
        if before != after {
            self.add::<Brand>(seat);
        }
    }

    /// The step of `count`, for the row that its type names.
    fn add<N: Added<V::Row>>(&self, seat: &mut Seat<Option<V>, View<V::Row>>)
        requires here { seat.old.table_id ≡ id_of self.now }
        requires has { (seat.old.me.0.has ≡ true) × HasOne seat.old.me.0 }
        requires one { (r : V.Row) × (N.more ≡ r ∷ []) × (V.by r ≡ number_of seat.old.me.0.parts) }
        ensures same { (seat.new.table_id ≡ seat.old.table_id) × (seat.new.id ≡ seat.old.id) }
        ensures added { seat.new.me ≡ (grown seat.old.me.0 N.more, seat.old.me.1) }
    {
        self.table.shared.fetch_add::<Count<N>>(seat, 2, 1);
    }

    /// Takes in another seat, and compares what it had seen with what this one has seen.
    pub(super) fn hear(
        &self,
        seat: &mut Seat<Option<V>, View<V::Row>>,
        other: Seat<Option<V>, View<V::Row>>,
    )
        requires here { (seat.old.table_id ≡ id_of self.now) × (other.table_id ≡ id_of self.now) }
        requires idle { (other.me.1 ≡ []) × (other.me.0.has ≡ false) × (seat.old.me.0.has ≡ false) }
        requires pass { (k : ℕ) × (m : List V.Row) × In seat.old.me.0.parts k m }
        requires plain { other.me.0.spare ≡ 0 }
        ensures same { (seat.new.table_id ≡ seat.old.table_id) × (seat.new.id ≡ seat.old.id) }
        ensures heard { seat.new.me ≡ (compared (both seat.old.me.0 other.me.0), seat.old.me.1) }
        ensures compared { Compared V.by (both seat.old.me.0 other.me.0) }
    {
        self.table.shared.join_seat::<Tell>(seat, other);
        self.table.shared.load::<Compare>(seat, 2);
    }

    /// Makes the pass of the next number.
    pub(super) fn deal(&self, seat: &mut Seat<Option<V>, View<V::Row>>, number: u32) -> TurnPass<V>
        requires here { seat.old.table_id ≡ id_of self.now }
        requires opened { (v : V) × V.stands v [] }
        requires number { number ≡ seat.old.me.0.spare }
        requires dealer { (seat.old.id ≡ 0) × (seat.old.me ≡ (dealer seat.old.me.0.spare, [])) × (seat.old.me.0.spare < passes_of self.now) }
        ensures same { (seat.new.table_id ≡ seat.old.table_id) × (seat.new.id ≡ 0) × (seat.new.me ≡ (dealer (seat.old.me.0.spare + 1), [])) }
        ensures pass { result ≡ fresh (id_of self.now) seat.old.me.0.spare }
    {
        let pass = self.table.shared.split_seat::<Deal>(seat);
        TurnPass {
            seat: pass,
            rows: 0,
            number,
        }
    }
}
