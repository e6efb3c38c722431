//! How turns end.
ghost use Rattle.std.specs.Prelude.{◌≡◌, ℕ, ◌<◌, false, List, [], ◌∷◌, ◌++◌};
ghost use Rattle.usb_turn.specs.Held.{In, Filled, keyed};
ghost use Rattle.usb_turn.specs.Pass.{AllOf, Closes, Gathered};
ghost use Rattle.usb_turn.specs.Shown.{id_of, passes_of, first_of};

use super::{Ended, TurnPass, Turns};
use crate::kept::Kept;
use crate::rule::{Fill, Told, View};
use atomic_table::Seat;
use std::marker::Brand;

impl<V: Kept> Turns<V> {
    /// Takes the value, with all passes in hand, in any order.
    pub fn close(self, passes: Vec<TurnPass<V>>) -> V
        requires { AllOf (id_of self) (passes_of self) passes.items }
        ensures { (rows : List V.Row) × V.stands result rows × (V.key result ≡ V.key (first_of self)) × Closes V.by rows passes.items }
    {
        let seat = self.gather(passes);
        let Turns { table } = self;
        let mut closed = table.close_with(seat);
        let Some(value) = closed.take(0) else {
            unreachable!()
        };
        closed.free();
        value
    }

    /// Ends all turns and keeps the value, with all passes in hand, of which two lie outside the vector.
    pub fn end(self, a: TurnPass<V>, b: TurnPass<V>, passes: Vec<TurnPass<V>>) -> Ended<V>
        requires { AllOf (id_of self) (passes_of self) ((passes.items ++ b ∷ []) ++ a ∷ []) }
        ensures closes { Closes V.by result ((passes.items ++ b ∷ []) ++ a ∷ []) }
        ensures stands { (v : V) × V.stands v result × (V.key v ≡ V.key (first_of self)) }
    {
        let mut seat = self.gather_beside(a, b, passes);
        self.fill_all(&mut seat);
        Ended { turns: self, seat }
    }

    /// One seat that knows what all passes know.
    fn gather(&self, mut passes: Vec<TurnPass<V>>) -> Seat<Option<V>, View<V::Row>>
        requires { AllOf (id_of self.now) (passes_of self.now) passes.items }
        ensures seat { (result.table_id ≡ id_of self.now) × (result.me.0.has ≡ false) }
        ensures gathered { Gathered result.me.0 passes.items }
        ensures all { (k : ℕ) → k < passes_of self.now → (m : List V.Row) × In result.me.0.parts k m }
    {
        let Some(first) = passes.pop() else {
            unreachable!()
        };
        let TurnPass {
            seat: mut all,
            rows: _,
            number: _,
        } = first;
        while let Some(pass) = passes.pop() {
            let TurnPass {
                seat,
                rows: _,
                number: _,
            } = pass;
            self.hear(&mut all, seat);
        }
        all
    }

    /// The same, where two passes lie outside the vector.
    fn gather_beside(
        &self,
        a: TurnPass<V>,
        b: TurnPass<V>,
        mut passes: Vec<TurnPass<V>>,
    ) -> Seat<Option<V>, View<V::Row>>
        requires { AllOf (id_of self.now) (passes_of self.now) ((passes.items ++ b ∷ []) ++ a ∷ []) }
        ensures seat { (result.table_id ≡ id_of self.now) × (result.me.0.has ≡ false) }
        ensures gathered { Gathered result.me.0 ((passes.items ++ b ∷ []) ++ a ∷ []) }
        ensures all { (k : ℕ) → k < passes_of self.now → (m : List V.Row) × In result.me.0.parts k m }
    {
        let TurnPass {
            seat: mut all,
            rows: _,
            number: _,
        } = a;
        let TurnPass {
            seat: next,
            rows: _,
            number: _,
        } = b;
        self.hear(&mut all, next);
        while let Some(pass) = passes.pop() {
            let TurnPass {
                seat,
                rows: _,
                number: _,
            } = pass;
            self.hear(&mut all, seat);
        }
        all
    }

    /// The seat that has all numbers sees all rows.
    fn fill_all(&self, seat: &mut Seat<Option<V>, View<V::Row>>)
        requires here { seat.old.table_id ≡ id_of self.now }
        requires idle { seat.old.me.0.has ≡ false }
        requires all { (k : ℕ) → k < passes_of self.now → (m : List V.Row) × In seat.old.me.0.parts k m }
        ensures filled { Filled (keyed V.stands V.key (λ x. x ≡ V.key (first_of self.now))) V.by (passes_of self.now) seat.old.me seat.new.me }
    {
        self.fill::<Brand>(seat);
    }

    /// The step of `fill_all`, for what its type tells of the key and of the number of passes.
    fn fill<N: Told<V::Key>>(&self, seat: &mut Seat<Option<V>, View<V::Row>>)
        requires here { seat.old.table_id ≡ id_of self.now }
        requires idle { seat.old.me.0.has ≡ false }
        requires key { N.is_key (V.key (first_of self.now)) }
        requires passes { N.passes ≡ passes_of self.now }
        requires all { (k : ℕ) → k < passes_of self.now → (m : List V.Row) × In seat.old.me.0.parts k m }
        ensures filled { Filled (keyed V.stands V.key N.is_key) V.by N.passes seat.old.me seat.new.me }
    {
        self.table.shared.load::<Fill<N>>(seat, 2);
    }
}
