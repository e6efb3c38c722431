//! An endpoint's line and its pending URBs.
ghost use Rattle.std.specs.Prelude.{◌≡◌, ℕ, ◌<◌, ◌^◌, length, map, All, IfOk, IsTrue, ◌↔◌, Contains, slice_get, Some};
ghost use Rattle.usb_machine.specs.State.{first_of};
ghost use Rattle.usb_machine.specs.Legal.{IsFirst};
ghost use Rattle.usb_machine.specs.Queues.{HomeIsBelow, homed_at, no_urbs, linked, moved, given};

use crate::event::Answer;
use circular_buffer::HeapCircularBuffer;
use std::alloc::{AllocError, Global};
use usb_types::UrbId;

/// An endpoint's line and its pending URBs. Each has room for as many URBs as have the endpoint as their home.
#[derive(Drop)]
pub(crate) struct Queues {
    pub(crate) line: HeapCircularBuffer<u32>,
    pub(crate) pending: HeapCircularBuffer<u32>,
}

impl Queues {
    pub(crate) fn new(alloc: Global, room: usize) -> Result<Queues, AllocError>
        ensures { IfOk result (λ q. q ≡ no_urbs room) }
    {
        Ok(Queues {
            line: HeapCircularBuffer::with_capacity(alloc, room)?,
            pending: HeapCircularBuffer::with_capacity(alloc, room)?,
        })
    }

    pub(crate) fn has_line(&self) -> bool
        ensures { IsTrue result ↔ (0 < length self.now.line.items) }
    {
        !self.line.is_empty()
    }

    pub(crate) fn is_first(&self, urb: u32) -> bool
        ensures { IsTrue result ↔ IsFirst urb self.now.pending.items }
    {
        self.pending.front() == Some(&urb)
    }

    pub(crate) fn is_pending(&self, urb: u32) -> bool
        ensures { IsTrue result ↔ Contains self.now.pending.items urb }
    {
        self.pending.iter().any(|v| *v == urb)
    }

    /// Puts the URB last in the line.
    pub(crate) fn link(&mut self, urb: u32)
        ensures { length self.old.line.items < self.old.line.capacity → self.new ≡ linked urb self.old }
    {
        self.line.push_back(urb);
    }

    /// Moves the first URB of the line after the pending ones.
    pub(crate) fn take(&mut self) -> Answer
        ensures answer { result ≡ first_of self.old.line.items }
        ensures moved { length self.old.pending.items < self.old.pending.capacity → self.new ≡ moved result self.old }
    {
        match self.line.pop_front() {
            None => Answer::Nothing,
            Some(urb) => {
                self.pending.push_back(urb);
                Answer::Urb(UrbId(urb))
            }
        }
    }

    /// Takes the URB out of the pending ones.
    pub(crate) fn give(&mut self, urb: u32)
        ensures { self.new ≡ given urb self.old }
    {
        for _ in 0..self.pending.len() {
            if let Some(first) = self.pending.pop_front() {
                if first != urb {
                    self.pending.push_back(first);
                }
            }
        }
    }
}

/// How many URBs have each endpoint as their home.
fn rooms(alloc: Global, homes: &[Option<u32>], ends: usize) -> Result<Vec<usize>, AllocError>
    requires homes { All (HomeIsBelow ends) homes.now }
    requires count { length homes.now < 2 ^ 31 }
    ensures ends { IfOk result (λ v. length v.items ≡ ends) }
    ensures rooms { IfOk result (λ v. (e : ℕ) → e < ends → slice_get v.items e ≡ Some (homed_at homes.now e)) }
{
    let mut rooms = vec![in alloc; 0usize; ends]?;
    for home in homes {
        if let Some(ep) = home {
            rooms[*ep as usize] += 1;
        }
    }
    Ok(rooms)
}

/// How many URBs have each endpoint as their home.
pub fn room_of_each(
    alloc: Global,
    homes: &[Option<u32>],
    ends: usize,
) -> Result<Vec<usize>, AllocError>
    requires homes { All (HomeIsBelow ends) homes.now }
    requires count { length homes.now < 2 ^ 31 }
    ensures ends { IfOk result (λ v. length v.items ≡ ends) }
    ensures rooms { IfOk result (λ v. (e : ℕ) → e < ends → slice_get v.items e ≡ Some (homed_at homes.now e)) }
{
    rooms(alloc, homes, ends)
}

fn all_empty(alloc: Global, rooms: &[usize]) -> Result<Vec<Queues>, AllocError>
    ensures { IfOk result (λ v. v.items ≡ map no_urbs rooms.now) }
{
    let mut ends = Vec::with_capacity(alloc, rooms.len())?;
    for room in rooms {
        ends.push(Queues::new(alloc, *room)?)?;
    }
    Ok(ends)
}

/// The empty lists of each endpoint, with their room.
pub(crate) fn empty_queues(
    alloc: Global,
    homes: &[Option<u32>],
    ends: usize,
) -> Result<Vec<Queues>, AllocError>
    requires homes { All (HomeIsBelow ends) homes.now }
    requires count { length homes.now < 2 ^ 31 }
    ensures ends { IfOk result (λ v. length v.items ≡ ends) }
    ensures rooms { IfOk result (λ v. (e : ℕ) → e < ends → slice_get v.items e ≡ Some (no_urbs (homed_at homes.now e))) }
{
    let rooms = rooms(alloc, homes, ends)?;
    all_empty(alloc, &rooms)
}
