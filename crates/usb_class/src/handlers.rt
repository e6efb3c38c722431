//! The completion handlers of all URBs: the cores of the drivers, and how often the scene's own URBs go again.
ghost use Rattle.std.specs.Prelude.{◌≡◌, IfOk};
ghost use Rattle.usb_class.specs.Handlers.{AreTold, asking_urbs, last_question, Completes, Asks, Unasks, ctl_of, questioner, asker_after};
ghost use Rattle.usb_class.specs.declared.handlers.Asker.TheVariants.{Nobody};

use crate::class_core::{Core, Told};
use crate::decide::decide;
use crate::owner::Owner;
use std::alloc::Global;
use usb_machine::Transfer;
use usb_serve::Handler;
use usb_types::{Action, Code, List, Memory, UrbId};

/// An URB, as its handler knows it.
#[derive(Clone, Copy)]
pub struct HandledUrb {
    /// The driver that has it, if one has.
    pub owner: Option<Owner>,
    /// How often its handler still submits again, where no driver has it.
    pub again: u32,
}

/// Whose question may be asked, or was asked.
#[derive(Clone, Copy)]
pub enum Asker {
    Nobody,
    /// The driver of this URB, which came back last, may ask.
    MayAsk(UrbId),
    /// The driver at this place asked.
    Asked(u32),
}

/// The completion handlers of all URBs.
#[derive(Drop)]
pub struct Handlers {
    /// Of each binding, by its place, the core of its driver.
    pub cores: Vec<Core>,
    /// Of each URB, by its number.
    pub urbs: Vec<HandledUrb>,
    pub asker: Asker,
}

// Who may ask after an action.
fn asker_after(urb: UrbId, action: Action) -> Asker
    ensures { result ≡ asker_after urb action }
{
    match action {
        Action::Ask => Asker::MayAsk(urb),
        _ => Asker::Nobody,
    }
}

// The place of the URB's driver, and the driver's URB for control transfers.
fn ctl_of(row: HandledUrb) -> Option<(u32, UrbId)>
    ensures { result ≡ ctl_of row }
{
    match row.owner {
        Some(owner) => match owner.ctl {
            Some(urb) => Some((owner.place, urb)),
            None => None,
        },
        None => None,
    }
}

// The place of the driver that may ask now, and its URB for control transfers.
fn questioner(urbs: &Vec<HandledUrb>, asker: Asker) -> Option<(u32, UrbId)>
    ensures { result ≡ questioner urbs.now.items asker }
{
    match asker {
        Asker::MayAsk(urb) => match urbs.get(urb.0 as usize) {
            Some(row) => ctl_of(*row),
            None => None,
        },
        Asker::Nobody | Asker::Asked(_) => None,
    }
}

impl Handlers {
    /// The handlers of these cores and URBs, before any came back.
    pub fn new(cores: Vec<Core>, urbs: Vec<HandledUrb>) -> Handlers
        ensures { result ≡ record { cores = cores; urbs = urbs; asker = Nobody } }
    {
        Handlers {
            cores,
            urbs,
            asker: Asker::Nobody,
        }
    }

    /// What each driver reports of all that came back, in the order of their places.
    pub fn into_told(self, alloc: Global) -> Result<List<Told>, Memory>
        ensures { IfOk result (AreTold self.cores.items) }
    {
        let mut list = List::of(Vec::new(alloc));
        for core in self.cores {
            list.push(core.into_told())?;
        }
        Ok(list)
    }
}

impl Handler for Handlers {
    ghost asks_with = { asking_urbs };

    ghost question = { last_question };

    ghost completes = { Completes };

    ghost asks = { Asks };

    ghost unasks = { Unasks };

    fn complete(&mut self, urb: UrbId, code: Code, t: &Transfer) -> Result<Action, Memory> {
        self.asker = Asker::Nobody;
        let place = urb.0 as usize;
        let Some(row) = self.urbs.get(place).copied() else {
            return Ok(Action::Rest);
        };
        let action = decide(&mut self.cores, row, code, t)?;
        self.urbs[place].again = row.again.saturating_sub(1);
        self.asker = asker_after(urb, action);
        Ok(action)
    }

    fn ask(&mut self) -> Option<(UrbId, Transfer)> {
        let questioner = questioner(&self.urbs, self.asker);
        self.asker = Asker::Nobody;
        let Some((place, urb)) = questioner else {
            return None;
        };
        if place as usize >= self.cores.len() {
            return None;
        }
        match self.cores[place as usize].ask() {
            Some(question) => {
                self.asker = Asker::Asked(place);
                Some((urb, question))
            }
            None => None,
        }
    }

    fn unask(&mut self, t: Transfer) {
        if let Asker::Asked(place) = self.asker {
            self.cores[place as usize].unask(t);
        }
        self.asker = Asker::Nobody;
    }
}
