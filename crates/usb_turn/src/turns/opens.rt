//! How turns begin.
ghost use Rattle.std.specs.Prelude.{◌≡◌, ◌<◌, ◌≤◌, [], ◌∷◌, IfOk};
ghost use Rattle.usb_turn.specs.Held.{dealer};
ghost use Rattle.usb_turn.specs.Pass.{dealt};
ghost use Rattle.usb_turn.specs.Shown.{id_of, passes_of, first_of};

use super::{TurnPass, Turns};
use crate::kept::Kept;
use crate::rule::{Opening, View};
use atomic_table::{Seat, Table};
use std::alloc::{AllocError, Global};
use std::snapshot::Snapshot;
use usb_types::Memory;

fn one<T: Drop>(alloc: Global, value: T) -> Result<Vec<T>, AllocError>
    ensures { IfOk result (λ v. v.items ≡ value ∷ []) }
{
    let mut slots = Vec::new(alloc);
    slots.push(value)?;
    Ok(slots)
}

impl<V: Kept> Turns<V> {
    /// Turns over the value, and a pass for each number below `passes`, in order.
    pub fn new(alloc: Global, value: V, passes: u32) -> Result<(Turns<V>, Vec<TurnPass<V>>), Memory>
        requires stands { V.stands value [] }
        requires range { (1 ≤ passes) × (passes ≤ 66) }
        ensures { IfOk result (λ r. (passes_of r.0 ≡ passes) × (first_of r.0 ≡ value) × (r.1.items ≡ dealt (id_of r.0) passes)) }
    {
        Ok(Turns::open(alloc, value, passes)?)
    }

    fn open(
        alloc: Global,
        value: V,
        passes: u32,
    ) -> Result<(Turns<V>, Vec<TurnPass<V>>), AllocError>
        requires stands { V.stands value [] }
        requires range { (1 ≤ passes) × (passes ≤ 66) }
        ensures { IfOk result (λ r. (passes_of r.0 ≡ passes) × (first_of r.0 ≡ value) × (r.1.items ≡ dealt (id_of r.0) passes)) }
    {
        let (turns, seat) = Turns::lay(alloc, value, passes)?;
        let all = turns.deal_all(alloc, seat, passes)?;
        Ok((turns, all))
    }

    /// The table with the value, and the seat that deals the passes.
    fn lay(
        alloc: Global,
        value: V,
        passes: u32,
    ) -> Result<(Turns<V>, Seat<Option<V>, View<V::Row>>), AllocError>
        requires stands { V.stands value [] }
        requires some { 0 < passes }
        ensures { IfOk result (λ r. (passes_of r.0 ≡ passes) × (first_of r.0 ≡ value) × (r.1.table_id ≡ id_of r.0) × (r.1.id ≡ 0) × (r.1.me ≡ (dealer 0, []))) }
    {
        let first = Snapshot::of(&value);
        let slots = one(alloc, Some(value))?;
        match Table::new(alloc, &[0, 0, 0], slots, &Opening { passes, first }) {
            Ok((table, seat)) => Ok((Turns { table }, seat)),
            Err(_) => Err(AllocError),
        }
    }

    /// A pass for each number, in order.
    fn deal_all(
        &self,
        alloc: Global,
        mut seat: Seat<Option<V>, View<V::Row>>,
        passes: u32,
    ) -> Result<Vec<TurnPass<V>>, AllocError>
        requires here { seat.table_id ≡ id_of self.now }
        requires dealer { (seat.id ≡ 0) × (seat.me ≡ (dealer 0, [])) }
        requires opened { (v : V) × V.stands v [] }
        requires passes { passes ≡ passes_of self.now }
        ensures { IfOk result (λ v. v.items ≡ dealt (id_of self.now) passes) }
    {
        let mut all = Vec::with_capacity(alloc, passes as usize)?;
        for n in 0..passes {
            all.push(self.deal(&mut seat, n))?;
        }
        Ok(all)
    }
}
