//! The URBs of a host, by number.
ghost use Rattle.std.specs.Prelude.{◌≡◌, ◌-◌, length, replicate, is_none, None, IfOk, IfNone};
ghost use Rattle.std.specs.List.{suffix_len};
ghost use Rattle.usb_bind.specs.Pool.{spare_in, next_urb, taken, is_out, released, up_to_last};

use std::alloc::{AllocError, Global};
use std::cmp::Reverse;
use std::collections::BinaryHeap;
use std::marker::Model;
use usb_machine::{Layout, Shape};
use usb_types::{List, Memory, UrbId};

/// URBs by number. Contracts see the home of each that is out.
#[derive(Drop)]
pub struct UrbPool {
    homes: Vec<Option<u32>>,
    spare: BinaryHeap<Reverse<u32>>,
}

impl Model for UrbPool {
    ghost use Rattle.std.specs.Prelude.{◌≡◌};
    ghost use Rattle.usb_bind.specs.Pool.{Homes, HoldsSpare};
    ghost use Rattle.std.specs.BinaryHeap.{heap_items, heap_capacity};

    ghost Value = { Homes };

    ghost view = { λ p. p.homes.items };

    ghost invariant = { λ p. HoldsSpare p.homes.items (heap_items p.spare) (heap_capacity p.spare) };
}

// How many URBs there are up to the last one that is out.
fn used(homes: &[Option<u32>]) -> usize
    ensures { result ≡ length homes.now - suffix_len is_none homes.now }
{
    let mut count = homes.len();
    while count > 0 && homes[count - 1].is_none() {
        count -= 1;
    }
    count
}

impl UrbPool {
    /// So many URBs, none of which is out.
    pub fn new(alloc: Global, limit: u32) -> Result<UrbPool, Memory>
        ensures { IfOk result (λ pool. pool ≡ replicate limit None) }
    {
        Ok(UrbPool::filled(alloc, limit)?)
    }

    fn filled(alloc: Global, limit: u32) -> Result<UrbPool, AllocError>
        ensures { IfOk result (λ pool. pool ≡ replicate limit None) }
    {
        let mut spare = BinaryHeap::with_capacity(alloc, limit as usize)?;
        for number in 0..limit {
            spare.push(Reverse(number))?;
        }
        Ok(UrbPool {
            homes: vec![in alloc; None; limit as usize]?,
            spare,
        })
    }

    /// Takes the URB with the least number that isn't out. None, and nothing changes, where all are out.
    #[tactic(auto, using(crate::proofs::Spare::none_least))]
    pub fn take(&mut self, home: u32) -> Option<UrbId>
        ensures urb { result ≡ next_urb self.old }
        ensures pool { self.new ≡ taken self.old home }
        ensures none_left { IfNone result (spare_in self.old ≡ 0) }
    {
        let Reverse(number) = self.spare.pop()?;
        self.homes[number as usize] = Some(home);
        Some(UrbId(number))
    }

    /// Gives an URB back: whether it was out. Where it wasn't nothing changes.
    pub fn release(&mut self, urb: UrbId) -> bool
        ensures out { result ≡ is_out self.old urb.0 }
        ensures pool { self.new ≡ released self.old urb.0 }
    {
        if !self.is_out(urb) {
            return false;
        }
        self.homes[urb.0 as usize] = None;
        self.spare.push(Reverse(urb.0)).is_ok()
    }

    /// Whether an URB is out.
    pub fn is_out(&self, urb: UrbId) -> bool
        ensures { result ≡ is_out self.now urb.0 }
    {
        let number = urb.0 as usize;
        number < self.homes.len() && self.homes[number].is_some()
    }

    /// How many aren't out.
    pub fn spare(&self) -> u32
        ensures { result ≡ spare_in self.now }
    {
        self.spare.len() as u32
    }

    /// The layout of a host with these endpoints, up to the last URB that is out.
    pub fn layout(self, alloc: Global, shapes: List<Shape>) -> Result<Layout, Memory>
        ensures { IfOk result (λ layout. (layout.homes ≡ up_to_last self) × (layout.shapes ≡ shapes)) }
    {
        let count = used(&self.homes);
        let homes = self.homes[..count].to_vec(alloc)?;
        Ok(Layout {
            homes: List::of(homes),
            shapes,
        })
    }
}
