//! The machine as an object, which takes one event after another.
ghost use Rattle.std.specs.Prelude.{◌≡◌, ℕ, ◌<◌, ◌≤◌, ◌+◌, ◌^◌, ◌++◌, ◌∷◌, [], List, Option, Some, None, length, All, IfOk, IfSome, IsTrue, false, not, ◌↔◌, replicate, ◌*◌, slice_index_or, slice_get, slice_set};

use crate::change::{answered, changed, has_flag, is_marked, is_quiet};
use crate::entry::{HUB, SERVER};
use crate::event::{Answer, Event};
use crate::layout::Layout;
use crate::pass_row::{PassRow, nothing};
use crate::queues::{Queues, empty_queues};
use crate::state::{Mark, UrbState, at_first};
use std::alloc::{AllocError, Global};
use usb_types::{Flag, Memory, UrbId, Why};

/// The machine as an object, for one caller at a time.
#[derive(Drop)]
pub struct Plain {
    homes: Vec<Option<u32>>,
    states: Vec<UrbState>,
    pub(crate) ends: Vec<Queues>,
    passes: u32,
    rows: Vec<PassRow>,
    ghost homed: { length homes.items ≡ length states.items },
    ghost rowed: { length rows.items ≡ passes * length states.items },
    ghost inside: { (u e : ℕ) → slice_get homes.items u ≡ Some (Some e) → e < length ends.items },
}

impl Plain {
    ghost use Rattle.usb_machine.specs.declared.entry.Entry.{Entry};
    ghost use Rattle.usb_machine.specs.declared.transfer.Transfer.{Transfer};
    ghost use Rattle.usb_machine.specs.declared.queues.Queues.{Queues};
    ghost use Rattle.usb_machine.specs.declared.pass_row.PassRow.{PassRow};
    ghost use Rattle.usb_machine.specs.State.{answer_of, after, opening, why_of, is_clear, has_flag as flag_of};
    ghost use Rattle.usb_machine.specs.History.{Machine, HasHome, home_of, state_of, line_of, pending_of};
    ghost use Rattle.usb_machine.specs.Legal.{urb_of, end_of, May, IsFirst, times};
    ghost use Rattle.usb_machine.specs.Queues.{HomeIsBelow, homed_at, no_urbs, linked, given};
    ghost use Rattle.usb_machine.specs.Rows.{no_row};
    ghost use Rattle.usb_machine.specs.Plain.{IsLayout, IsOfUrb, CanCount, NotesRow, IsInside, HasRoom, Fits, IsNext, Stands, urbs_of, ends_of};

    /// The opening state: empty history, nothing queued. Passes 0 and 1 are the server's and the hub's, and
    /// `passes` more follow from 2.
    pub fn new(alloc: Global, layout: &Layout, passes: u32) -> Result<Plain, Memory>
        requires passes { (0 < passes) × (passes ≤ 64) }
        requires layout { IsLayout layout.now }
        ensures opening { IfOk result (λ plain. Stands plain record { layout = layout.now; passes = passes + 2; bottom = SERVER } []) }
        ensures counts { IfOk result (λ plain. (urbs_of plain ≡ length layout.now.homes) × (ends_of plain ≡ length layout.now.shapes)) }
    {
        Ok(Plain::opened(
            alloc,
            layout.homes.items(),
            layout.shapes.items().len(),
            passes + 2,
        )?)
    }

    fn opened(
        alloc: Global,
        homes: &[Option<u32>],
        ends: usize,
        passes: u32,
    ) -> Result<Plain, AllocError>
        requires homes { All (HomeIsBelow ends) homes.now }
        requires count { length homes.now < 2 ^ 31 }
        requires passes { passes ≤ 66 }
        ensures homes { IfOk result (λ plain. plain.homes.items ≡ homes.now) }
        ensures states { IfOk result (λ plain. plain.states.items ≡ replicate (length homes.now) opening) }
        ensures count { IfOk result (λ plain. ends_of plain ≡ ends) }
        ensures ends { IfOk result (λ plain. (e : ℕ) → e < ends → slice_get plain.ends.items e ≡ Some (no_urbs (homed_at homes.now e))) }
        ensures passes { IfOk result (λ plain. plain.passes ≡ passes) }
        ensures rows { IfOk result (λ plain. plain.rows.items ≡ replicate (passes * length homes.now) no_row) }
    {
        let ends = empty_queues(alloc, homes, ends)?;
        Ok(Plain {
            homes: homes.to_vec(alloc)?,
            states: vec![in alloc; at_first(); homes.len()]?,
            ends,
            passes,
            rows: vec![in alloc; nothing(); passes as usize * homes.len()]?,
        })
    }

    /// Whether an event of this pass may come. A Submit may come where the URB has a home.
    pub fn may(&self, pass: u32, event: Event) -> bool
        requires { IsInside self.now event }
        ensures { (g : Machine) (h : List Entry) → Stands self.now g h → pass < g.passes → (IsTrue result ↔ May g h pass event) }
    {
        match event {
            Event::Take { ep } => pass == SERVER && self.ends[ep as usize].has_line(),
            Event::Mark { .. } | Event::Reject { .. } => true,
            Event::Submit { urb, .. } => self.has_home(urb),
            Event::Link { urb } => self.row(pass, urb.0).owes,
            Event::Finish { urb, .. } => pass == SERVER && self.is_first(urb),
            Event::Give { urb } => pass == SERVER && self.is_given_next(urb),
            Event::Rest { urb, .. } => pass == SERVER && self.handlers(urb) > 0,
            Event::End { urb } => pass == SERVER && self.handlers(urb) > 0,
            Event::Withdraw { urb } => self.row(pass, urb.0).held.rejects > 0,
            Event::Quiet { urb } => self.is_quiet(urb),
            Event::Claim { urb } => self.row(pass, urb.0).held.kept,
            Event::Flag { urb, flag } => pass == HUB && !self.has_flag(urb, flag),
            Event::Unflag { urb, flag } => pass == HUB && self.has_flag(urb, flag),
        }
    }

    /// Whether this event of this pass may come next: both are there, it may come, and the counts that it raises have
    /// room.
    pub fn is_next(&self, pass: u32, event: Event) -> bool
        ensures inside { IsTrue result → IsInside self.now event }
        ensures next { (g : Machine) (h : List Entry) → Stands self.now g h → (IsTrue result ↔ Fits self.now g h pass event) }
    {
        pass < self.passes
            && self.is_inside(event)
            && self.may(pass, event)
            && self.has_room(pass, event)
    }

    fn is_inside(&self, event: Event) -> bool
        ensures { IsTrue result ↔ IsInside self.now event }
    {
        match event {
            Event::Take { ep } => (ep as usize) < self.ends.len(),
            Event::Submit { urb, .. }
            | Event::Link { urb }
            | Event::Mark { urb, .. }
            | Event::Finish { urb, .. }
            | Event::Give { urb }
            | Event::Rest { urb, .. }
            | Event::End { urb }
            | Event::Reject { urb }
            | Event::Withdraw { urb }
            | Event::Quiet { urb }
            | Event::Claim { urb }
            | Event::Flag { urb, .. }
            | Event::Unflag { urb, .. } => (urb.0 as usize) < self.states.len(),
        }
    }

    /// Whether a count that the event raises has room for one more.
    fn has_room(&self, pass: u32, event: Event) -> bool
        requires { IsInside self.now event }
        ensures { (g : Machine) (h : List Entry) → Stands self.now g h → pass < g.passes → (IsTrue result ↔ HasRoom h pass event) }
    {
        match event {
            Event::Give { urb } => self.handlers(urb) < 1 << 63,
            Event::Reject { urb } => self.row(pass, urb.0).held.rejects < u8::MAX,
            _ => true,
        }
    }

    /// Why the URB was unlinked, while the mark of that stands.
    pub fn mark(&self, urb: UrbId) -> Option<Why>
        requires { urb.0 < urbs_of self.now }
        ensures { (g : Machine) (h : List Entry) → Stands self.now g h → result ≡ why_of (state_of h urb.0).mark }
    {
        match self.states[urb.0 as usize].mark {
            Mark::Unlinked(why) => Some(why),
            Mark::Clear | Mark::Finished(_) => None,
        }
    }

    /// How many URBs stand in the line of an endpoint.
    pub fn waiting(&self, ep: u32) -> usize
        requires { ep < ends_of self.now }
        ensures { (g : Machine) (h : List Entry) → Stands self.now g h → result ≡ length (line_of g h ep) }
    {
        self.ends[ep as usize].line.len()
    }

    /// How many completion handlers of the URB run.
    pub fn handlers(&self, urb: UrbId) -> u64
        requires { urb.0 < urbs_of self.now }
        ensures { (g : Machine) (h : List Entry) → Stands self.now g h → result ≡ (state_of h urb.0).handlers }
    {
        self.states[urb.0 as usize].handlers
    }

    /// Makes an event.
    pub fn step(&mut self, pass: u32, event: Event) -> Answer
        requires { IsInside self.old event }
        ensures answer { (g : Machine) (h : List Entry) → Stands self.old g h → result ≡ answer_of event (state_of h (urb_of event)) (line_of g h (end_of event)) }
        ensures stands { (g : Machine) (h : List Entry) (carried : Option Transfer) → Stands self.old g h → IsNext g h pass event carried → Stands self.new g (h ++ record { pass = pass; event = event; answer = result; carried = carried } ∷ []) }
        ensures counts { (urbs_of self.new ≡ urbs_of self.old) × (ends_of self.new ≡ ends_of self.old) }
    {
        match event {
            Event::Take { ep } => self.ends[ep as usize].take(),
            Event::Link { urb } => {
                self.link(urb.0);
                self.note(pass, urb.0, event, Answer::Nothing);
                Answer::Nothing
            }
            Event::Give { urb } => {
                self.give(urb.0);
                let answer = self.change(urb.0 as usize, event);
                self.note(pass, urb.0, event, answer);
                answer
            }
            Event::Submit { urb, .. }
            | Event::Mark { urb, .. }
            | Event::Finish { urb, .. }
            | Event::Rest { urb, .. }
            | Event::End { urb }
            | Event::Reject { urb }
            | Event::Withdraw { urb }
            | Event::Quiet { urb }
            | Event::Claim { urb }
            | Event::Flag { urb, .. }
            | Event::Unflag { urb, .. } => {
                let answer = self.change(urb.0 as usize, event);
                self.note(pass, urb.0, event, answer);
                answer
            }
        }
    }

    /// Where the row of this pass and URB is.
    fn place(&self, pass: u32, urb: u32) -> Option<usize>
        ensures value { pass < self.now.passes → urb < urbs_of self.now → result ≡ Some (pass * urbs_of self.now + urb) }
        ensures within { IfSome result (λ i. i < length self.now.rows.items) }
    {
        if pass < self.passes && (urb as usize) < self.states.len() {
            Some(pass as usize * self.states.len() + urb as usize)
        } else {
            None
        }
    }

    /// What this pass owes and holds of the URB.
    fn row(&self, pass: u32, urb: u32) -> PassRow
        ensures { (row : PassRow) → pass < self.now.passes → urb < urbs_of self.now → slice_get self.now.rows.items (pass * urbs_of self.now + urb) ≡ Some row → result ≡ row }
    {
        match self.place(pass, urb) {
            Some(place) => self.rows[place],
            None => nothing(),
        }
    }

    fn has_home(&self, urb: UrbId) -> bool
        requires { urb.0 < urbs_of self.now }
        ensures { (g : Machine) (h : List Entry) → Stands self.now g h → (IsTrue result ↔ HasHome g urb.0) }
    {
        self.homes[urb.0 as usize].is_some()
    }

    /// Whether the URB is the first pending one of its home.
    fn is_first(&self, urb: UrbId) -> bool
        requires { urb.0 < urbs_of self.now }
        ensures { (g : Machine) (h : List Entry) → Stands self.now g h → (IsTrue result ↔ IsFirst urb.0 (pending_of g h (home_of g urb.0))) }
    {
        match self.homes[urb.0 as usize] {
            Some(ep) => self.ends[ep as usize].is_first(urb.0),
            None => false,
        }
    }

    fn is_pending(&self, urb: UrbId) -> bool
        requires { urb.0 < urbs_of self.now }
        ensures { (g : Machine) (h : List Entry) → Stands self.now g h → (IsTrue result ↔ (0 < times urb.0 (pending_of g h (home_of g urb.0)))) }
    {
        match self.homes[urb.0 as usize] {
            Some(ep) => self.ends[ep as usize].is_pending(urb.0),
            None => false,
        }
    }

    fn is_marked(&self, urb: UrbId) -> bool
        requires { urb.0 < urbs_of self.now }
        ensures { (g : Machine) (h : List Entry) → Stands self.now g h → result ≡ not (is_clear (state_of h urb.0).mark) }
    {
        is_marked(self.states[urb.0 as usize].mark)
    }

    /// Whether the URB is pending and marked.
    fn is_given_next(&self, urb: UrbId) -> bool
        requires { urb.0 < urbs_of self.now }
        ensures { (g : Machine) (h : List Entry) → Stands self.now g h → (IsTrue result ↔ ((0 < times urb.0 (pending_of g h (home_of g urb.0))) × (is_clear (state_of h urb.0).mark ≡ false))) }
    {
        self.is_pending(urb) && self.is_marked(urb)
    }

    fn is_quiet(&self, urb: UrbId) -> bool
        requires { urb.0 < urbs_of self.now }
        ensures { (g : Machine) (h : List Entry) → Stands self.now g h → (IsTrue result ↔ (((state_of h urb.0).queued ≡ false) × ((state_of h urb.0).handlers ≡ 0))) }
    {
        is_quiet(&self.states[urb.0 as usize])
    }

    fn has_flag(&self, urb: UrbId, flag: Flag) -> bool
        requires { urb.0 < urbs_of self.now }
        ensures { (g : Machine) (h : List Entry) → Stands self.now g h → result ≡ flag_of flag (state_of h urb.0).flags }
    {
        has_flag(flag, self.states[urb.0 as usize].flags)
    }

    /// Notes what this pass owes and holds after its event of the URB.
    fn note(&mut self, pass: u32, urb: u32, event: Event, answer: Answer)
        ensures rows { pass < self.old.passes → urb < urbs_of self.old → NotesRow self.old self.new (pass * urbs_of self.old + urb) event answer }
        ensures passes { self.new.passes ≡ self.old.passes }
        ensures rest { (self.new.homes ≡ self.old.homes) × (self.new.states ≡ self.old.states) × (self.new.ends ≡ self.old.ends) }
    {
        if let Some(place) = self.place(pass, urb) {
            self.rows[place] = self.rows[place].after(event, answer);
        }
    }

    /// Answers an event of this URB and changes its state.
    fn change(&mut self, urb: usize, event: Event) -> Answer
        requires urb { urb < urbs_of self.old }
        requires event { IsOfUrb event }
        ensures answer { result ≡ answer_of event (slice_index_or self.old.states.items urb opening) [] }
        ensures states { CanCount event (slice_index_or self.old.states.items urb opening) → self.new.states.items ≡ slice_set self.old.states.items urb (after event result (slice_index_or self.old.states.items urb opening)) }
        ensures urbs { urbs_of self.new ≡ urbs_of self.old }
        ensures homes { self.new.homes ≡ self.old.homes }
        ensures ends { self.new.ends ≡ self.old.ends }
        ensures rows { (self.new.passes ≡ self.old.passes) × (self.new.rows ≡ self.old.rows) }
    {
        let state = self.states[urb];
        let answer = answered(event, &state);
        self.states[urb] = changed(event, answer, state);
        answer
    }

    /// Puts this URB last in the line of its home.
    fn link(&mut self, urb: u32)
        requires { urb < urbs_of self.old }
        ensures linked { (e : ℕ) (q : Queues) → slice_get self.old.homes.items urb ≡ Some (Some e) → slice_get self.old.ends.items e ≡ Some q → length q.line.items < q.line.capacity → self.new.ends.items ≡ slice_set self.old.ends.items e (linked urb q) }
        ensures ends { ends_of self.new ≡ ends_of self.old }
        ensures rest { (self.new.homes ≡ self.old.homes) × (self.new.states ≡ self.old.states) }
        ensures rows { (self.new.passes ≡ self.old.passes) × (self.new.rows ≡ self.old.rows) }
    {
        if let Some(ep) = self.homes[urb as usize] {
            self.ends[ep as usize].link(urb);
        }
    }

    /// Takes this URB out of the pending ones of its home.
    fn give(&mut self, urb: u32)
        requires { urb < urbs_of self.old }
        ensures given { (e : ℕ) (q : Queues) → slice_get self.old.homes.items urb ≡ Some (Some e) → slice_get self.old.ends.items e ≡ Some q → self.new.ends.items ≡ slice_set self.old.ends.items e (given urb q) }
        ensures ends { ends_of self.new ≡ ends_of self.old }
        ensures rest { (self.new.homes ≡ self.old.homes) × (self.new.states ≡ self.old.states) }
        ensures rows { (self.new.passes ≡ self.old.passes) × (self.new.rows ≡ self.old.rows) }
    {
        if let Some(ep) = self.homes[urb as usize] {
            self.ends[ep as usize].give(urb);
        }
    }
}
