//! The machine with its transfers, for one caller at a time.
ghost use Rattle.std.specs.Prelude.{◌≡◌, ℕ, ◌<◌, IsTrue, IsFalse, IfSome, IfNone, IfOk, ◌≤◌, replicate, length, List, [], ◌∷◌, ◌++◌, Option, Some, None};

use std::alloc::{AllocError, Global};
use std::snapshot::Snapshot;
use usb_machine::{Answer, Entry, Event, Layout, Plain, Refused, SERVER, Transfer};
use usb_turn::Kept;
use usb_types::{Code, Memory, UrbId, Why};

/// What never changes of a stock: its layout, and how many passes there are beside the server's and the hub's.
#[derive(Drop)]
pub struct Setup {
    pub layout: Snapshot<Layout>,
    pub passes: u32,
}

/// The event that was made last, with its answer and with what it carried.
#[derive(Drop)]
pub struct Made {
    pub event: Event,
    pub answer: Answer,
    pub carried: Option<Snapshot<Transfer>>,
}

/// The machine, the transfer of each URB that was submitted and not taken yet, and what rests with each URB.
#[derive(Drop)]
pub struct Stock {
    pub plain: Plain,
    pub flight: Vec<Option<Transfer>>,
    pub resting: Vec<Option<Transfer>>,
    pub rows: u64,
    pub setup: Setup,
    pub made: Option<Made>,
}

fn none_each(alloc: Global, count: usize) -> Result<Vec<Option<Transfer>>, AllocError>
    ensures { IfOk result (λ v. v.items ≡ replicate count None) }
{
    let mut all = Vec::with_capacity(alloc, count)?;
    for _n in 0..count {
        all.push(None)?;
    }
    Ok(all)
}

impl Kept for Stock {
    type Row = Entry;

    type Key = Setup;

    ghost use Rattle.usb_turn_host.specs.Stock.{IsStock, made_by, pass_of};

    ghost stands = { IsStock };

    ghost key = { λ s. s.setup };

    ghost by = { pass_of };

    ghost newest = { made_by };

    fn rows(&self) -> u64 {
        self.rows
    }
}

impl Stock {
    ghost use Rattle.usb_machine.specs.declared.entry.Entry.{Entry};
    ghost use Rattle.usb_machine.specs.State.{answer_of};
    ghost use Rattle.usb_machine.specs.History.{state_of, line_of, sent_of};
    ghost use Rattle.usb_machine.specs.Legal.{urb_of, end_of};
    ghost use Rattle.usb_machine.specs.Plain.{IsInside, IsNext, IsLayout};
    ghost use Rattle.usb_machine.specs.Calls.{entry};
    ghost use Rattle.usb_machine.specs.declared.event.Event.TheVariants.{Submit, Quiet, Claim, Take, Give, Rest};
    ghost use Rattle.usb_machine.specs.declared.entry.TheConstants.{SERVER};
    ghost use Rattle.usb_machine.specs.declared.event.Answer.TheVariants.{Code as Status, Number, Nothing, Urb};
    ghost use Rattle.usb_machine.specs.State.{refusal, why_of};
    ghost use Rattle.usb_machine.specs.Plain.{urbs_of, ends_of};
    ghost use Rattle.usb_machine.specs.Calls.{plain_entry};
    ghost use Rattle.usb_machine.specs.HostCalls.{rested_of, number_of, answer_of_submit, HandsBack};
    ghost use Rattle.usb_turn_host.specs.Stock.{IsStock, IsStill, IsBusy, machine_of, made_by, made_if, made_take, IsSetup};

    /// Nothing was made.
    pub fn new(alloc: Global, layout: &Layout, passes: u32) -> Result<Stock, Memory>
        requires passes { (0 < passes) × (passes ≤ 64) }
        requires layout { IsLayout layout.now }
        ensures stands { IfOk result (λ s. IsStock s []) }
        ensures setup { IfOk result (λ s. IsSetup layout.now passes s.setup) }
    {
        let plain = Plain::new(alloc, layout, passes)?;
        let Ok(flight) = none_each(alloc, layout.homes.items().len()) else {
            return Err(Memory);
        };
        let Ok(resting) = none_each(alloc, layout.homes.items().len()) else {
            return Err(Memory);
        };
        Ok(Stock {
            plain,
            flight,
            resting,
            rows: 0,
            setup: Setup {
                layout: Snapshot::of(layout),
                passes,
            },
            made: None,
        })
    }

    /// Makes an event that moves no transfer.
    pub fn make(&mut self, pass: u32, event: Event) -> Answer
        requires inside { IsInside self.old.plain event }
        ensures answer { (h : List Entry) → IsStock self.old h → result ≡ answer_of event (state_of h (urb_of event)) (line_of (machine_of self.old.setup) h (end_of event)) }
        ensures stands { (h : List Entry) → IsStock self.old h → IsNext (machine_of self.old.setup) h pass event None → IsStill event → IsStock self.new (h ++ entry pass event result None ∷ []) }
        ensures made { self.new.made ≡ Some record { event = event; answer = result; carried = None } }
        ensures setup { self.new.setup ≡ self.old.setup }
    {
        let answer = self.plain.step(pass, event);
        self.rows = self.rows.wrapping_add(1);
        self.made = Some(Made {
            event,
            answer,
            carried: None,
        });
        answer
    }

    /// Sees the URB quiet, if it is.
    pub fn quiet(&mut self, pass: u32, urb: UrbId) -> bool
        requires urb { urb.0 < urbs_of self.old.plain }
        ensures seen { IsTrue result → (h : List Entry) → IsStock self.old h → pass < (machine_of self.old.setup).passes → IsStock self.new (h ++ plain_entry pass (Quiet urb) ∷ []) }
        ensures busy { IsFalse result → (h : List Entry) → IsStock self.old h → pass < (machine_of self.old.setup).passes → IsStock self.new h × IsBusy h urb.0 }
        ensures made { (h : List Entry) → IsStock self.old h → self.new.made ≡ made_if result (Quiet urb) }
        ensures setup { self.new.setup ≡ self.old.setup }
    {
        let event = Event::Quiet { urb };
        if self.plain.may(pass, event) {
            self.make(pass, event);
            true
        } else {
            self.made = None;
            false
        }
    }

    /// Takes what rests with the URB.
    pub fn claim(&mut self, pass: u32, urb: UrbId) -> Option<Transfer>
        requires urb { (urb.0 < urbs_of self.old.plain) × (length self.old.resting.items ≡ urbs_of self.old.plain) }
        ensures rested { (h : List Entry) → IsStock self.old h → result ≡ rested_of h urb.0 }
        ensures stands { (h : List Entry) → IsStock self.old h → IsNext (machine_of self.old.setup) h pass (Claim urb) None → IsStock self.new (h ++ entry pass (Claim urb) (Number (number_of result)) None ∷ []) }
        ensures made { self.new.made ≡ Some record { event = Claim urb; answer = Number (number_of result); carried = None } }
        ensures setup { self.new.setup ≡ self.old.setup }
    {
        let event = Event::Claim { urb };
        self.plain.step(pass, event);
        let rested = self.resting[urb.0 as usize].take();
        let number = match &rested {
            Some(t) => Some(t.number),
            None => None,
        };
        self.rows = self.rows.wrapping_add(1);
        self.made = Some(Made {
            event,
            answer: Answer::Number(number),
            carried: None,
        });
        rested
    }

    /// Asks the gate of the URB for this transfer, and keeps it where it was accepted.
    pub fn submit(&mut self, pass: u32, urb: UrbId, t: Transfer) -> Result<(), Refused>
        requires urb { (urb.0 < urbs_of self.old.plain) × (length self.old.flight.items ≡ urbs_of self.old.plain) }
        ensures answer { (h : List Entry) → IsStock self.old h → answer_of_submit result ≡ refusal (state_of h urb.0) }
        ensures back { HandsBack t result }
        ensures stands { (h : List Entry) → IsStock self.old h → IsNext (machine_of self.old.setup) h pass (Submit urb t.number) (Some t) → IsStock self.new (h ++ entry pass (Submit urb t.number) (Status (answer_of_submit result)) (Some t) ∷ []) }
        ensures made { (h : List Entry) → IsStock self.old h → made_by pass self.new ≡ entry pass (Submit urb t.number) (Status (answer_of_submit result)) (Some t) ∷ [] }
        ensures setup { self.new.setup ≡ self.old.setup }
    {
        let event = Event::Submit {
            urb,
            number: t.number,
        };
        let answer = self.plain.step(pass, event);
        self.rows = self.rows.wrapping_add(1);
        self.made = Some(Made {
            event,
            answer,
            carried: Some(Snapshot::of(&t)),
        });
        match answer {
            Answer::Code(Code::Fault(errno)) => Err(Refused { errno, transfer: t }),
            _ => {
                self.flight[urb.0 as usize] = Some(t);
                Ok(())
            }
        }
    }

    /// Leaves the transfer to rest with the URB, by the server.
    pub fn rest(&mut self, urb: UrbId, t: Transfer)
        requires urb { (urb.0 < urbs_of self.old.plain) × (length self.old.resting.items ≡ urbs_of self.old.plain) }
        ensures stands { (h : List Entry) → IsStock self.old h → IsNext (machine_of self.old.setup) h SERVER (Rest urb t.number) (Some t) → IsStock self.new (h ++ entry SERVER (Rest urb t.number) Nothing (Some t) ∷ []) }
        ensures made { made_by SERVER self.new ≡ entry SERVER (Rest urb t.number) Nothing (Some t) ∷ [] }
        ensures setup { self.new.setup ≡ self.old.setup }
    {
        let event = Event::Rest {
            urb,
            number: t.number,
        };
        self.plain.step(SERVER, event);
        self.rows = self.rows.wrapping_add(1);
        self.made = Some(Made {
            event,
            answer: Answer::Nothing,
            carried: Some(Snapshot::of(&t)),
        });
        self.resting[urb.0 as usize] = Some(t);
    }

    /// Takes the first URB of the endpoint's line, with its transfer, if there is one.
    pub fn take(&mut self, ep: u32) -> Option<(UrbId, Transfer)>
        requires ep { ep < ends_of self.old.plain }
        requires stock { (h : List Entry) × IsStock self.old h }
        ensures some { IfSome result (λ r. (h : List Entry) → IsStock self.old h → 0 < (machine_of self.old.setup).passes → IsStock self.new (h ++ entry SERVER (Take ep) (Urb r.0) None ∷ []) × (sent_of h r.0.0 ≡ Some r.1)) }
        ensures none { IfNone result ((h : List Entry) → IsStock self.old h → IsStock self.new h × (line_of (machine_of self.old.setup) h ep ≡ [])) }
        ensures made { self.new.made ≡ made_take ep result }
        ensures setup { self.new.setup ≡ self.old.setup }
    {
        if self.plain.waiting(ep) == 0 {
            self.made = None;
            return None;
        }
        let event = Event::Take { ep };
        let Answer::Urb(urb) = self.plain.step(SERVER, event) else {
            unreachable!()
        };
        let Some(t) = self.flight[urb.0 as usize].take() else {
            unreachable!()
        };
        self.rows = self.rows.wrapping_add(1);
        self.made = Some(Made {
            event,
            answer: Answer::Urb(urb),
            carried: None,
        });
        Some((urb, t))
    }

    /// Gives the URB back, with its status.
    pub fn give(&mut self, urb: UrbId) -> Code
        requires urb { urb.0 < urbs_of self.old.plain }
        requires stock { (h : List Entry) × IsStock self.old h }
        ensures stands { (h : List Entry) → IsStock self.old h → IsNext (machine_of self.old.setup) h SERVER (Give urb) None → IsStock self.new (h ++ entry SERVER (Give urb) (Status result) None ∷ []) }
        ensures made { self.new.made ≡ Some record { event = Give urb; answer = Status result; carried = None } }
        ensures setup { self.new.setup ≡ self.old.setup }
    {
        let event = Event::Give { urb };
        let Answer::Code(code) = self.plain.step(SERVER, event) else {
            unreachable!()
        };
        self.rows = self.rows.wrapping_add(1);
        self.made = Some(Made {
            event,
            answer: Answer::Code(code),
            carried: None,
        });
        code
    }

    /// Why the URB was unlinked, if its mark says so.
    pub fn why(&mut self, urb: UrbId) -> Option<Why>
        requires urb { urb.0 < urbs_of self.old.plain }
        ensures why { (h : List Entry) → IsStock self.old h → result ≡ why_of (state_of h urb.0).mark }
        ensures stands { (h : List Entry) → IsStock self.old h → IsStock self.new h }
        ensures made { self.new.made ≡ None }
        ensures setup { self.new.setup ≡ self.old.setup }
    {
        self.made = None;
        self.plain.mark(urb)
    }
}
