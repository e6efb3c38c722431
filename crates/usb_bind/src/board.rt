//! Which driver has which interface.
ghost use Rattle.std.specs.Prelude.{◌≡◌, ◌<◌, ◌^◌, length, All, AllPairs, [], IfOk, OnOk, OnErr, option_copied};
ghost use Rattle.std.specs.Result.{result_err};
ghost use Rattle.usb_bind.specs.Board.{attached_at, alt_at, holder_of, with_binding, claim_of, claim_fault, without, released_one, released_all, MayJoin, IsApart, AreThere};
ghost use Rattle.usb_bind.specs.Probe.{other_holder, planned, plan_for, probed, board_after, pool_after, slot_urb, slot_taken, all_next, all_taken};

use crate::bound::Bound;
use crate::fault::{ClaimFault, ProbeFault};
use crate::matching::first_driver;
use crate::needs::{Homes, homes_for, other_of, urb_count};
use crate::plan::Plan;
use crate::pool::UrbPool;
use crate::row::{Driver, IdRow};
use crate::settings::interface_at;
use std::alloc::Global;
use std::marker::Model;
use usb_ctrl::Attached;
use usb_desc::Alt;
use usb_types::{List, Memory, UrbId};

/// How many interfaces a device has at most: their numbers are bytes.
const NUMBERS: usize = 256;

/// The devices of a host and the bindings of their interfaces. It has room for each interface.
#[derive(Drop)]
pub struct Board {
    devices: List<Option<Attached>>,
    firsts: List<u32>,
    bindings: Vec<Bound>,
}

impl Model for Board {
    ghost use Rattle.usb_bind.specs.Board.{BoardValue, HoldsBindings};
    ghost use Rattle.std.specs.Vec.{vec_capacity};

    ghost Value = { BoardValue };

    ghost view = { λ b. record { devices = b.devices; firsts = b.firsts; bindings = b.bindings.items } };

    ghost invariant = { λ b. HoldsBindings record { devices = b.devices; firsts = b.firsts; bindings = b.bindings.items } (vec_capacity b.bindings) };
}

impl Board {
    /// No interface is bound. `firsts` has the number of each device's endpoint 00 in the host.
    pub fn new(
        alloc: Global,
        devices: List<Option<Attached>>,
        firsts: List<u32>,
    ) -> Result<Board, Memory>
        requires few { length devices < 2 ^ 32 }
        requires firsts { length firsts ≡ length devices }
        requires low { All (λ first. first < 2 ^ 31) firsts }
        ensures { IfOk result (λ board. board ≡ record { devices = devices; firsts = firsts; bindings = [] }) }
    {
        let room = devices.items().len() * NUMBERS;
        let bindings = Vec::with_capacity(alloc, room)?;
        Ok(Board {
            devices,
            firsts,
            bindings,
        })
    }

    /// The device with this number, where it was enumerated.
    pub fn attached(&self, device: u32) -> Option<&Attached>
        ensures { option_copied result ≡ attached_at self.now device }
    {
        self.devices.items().get(device as usize)?.as_ref()
    }

    /// The bindings, in the order in which they were made.
    pub fn bindings(&self) -> &[Bound]
        ensures bindings { result.now ≡ self.now.bindings }
        // No two have an interface in common, and each interface of one is there.
        ensures apart { AllPairs IsApart result.now }
        ensures there { All (AreThere self.now) result.now }
    {
        &self.bindings
    }

    /// The driver that has an interface.
    pub fn holder(&self, device: u32, interface: u8) -> Option<Driver>
        ensures { result ≡ holder_of self.now device interface }
    {
        let bound = self
            .bindings
            .iter()
            .find(|bound| bound.has_interface(device, interface))?;
        Some(bound.driver)
    }

    fn add(&mut self, bound: Bound)
        requires { MayJoin self.old bound }
        ensures { self.new ≡ with_binding self.old bound }
    {
        // There is room for each interface.
        let _ = self.bindings.push(bound);
    }

    fn remove(&mut self, bound: Bound)
        ensures { self.new ≡ without self.old bound }
    {
        self.bindings
            .retain(|other| !other.is_of(bound.device, bound.interface));
    }

    fn interface(&self, device: u32, interface: u8) -> Option<&Alt>
        ensures { option_copied result ≡ alt_at self.now device interface }
    {
        interface_at(&self.attached(device)?.config, interface as u16)
    }

    /// A driver takes an interface, without URBs of its own. A refusal changes nothing.
    pub fn claim_interface(
        &mut self,
        device: u32,
        interface: u8,
        by: Driver,
    ) -> Result<(), ClaimFault>
        ensures fault { result_err result ≡ claim_fault self.old device interface }
        ensures ok { OnOk result (self.new ≡ with_binding self.old (claim_of by device interface)) }
        ensures err { OnErr result (self.new ≡ self.old) }
    {
        if self.interface(device, interface).is_none() {
            return Err(ClaimFault::Missing);
        }
        if let Some(driver) = self.holder(device, interface) {
            return Err(ClaimFault::Busy(driver));
        }
        self.add(Bound {
            driver: by,
            device,
            interface,
            other: None,
            urbs: [None; 5],
        });
        Ok(())
    }

    /// Binds an interface to the driver of the first row that matches, with URBs of the pool. A refusal is the first of
    /// `ProbeFault` that holds, and changes nothing. An interface that isn't there has no driver.
    pub fn probe(
        &mut self,
        pool: &mut UrbPool,
        rows: &[IdRow],
        device: u32,
        interface: u8,
    ) -> Result<Bound, ProbeFault>
        ensures answer { result ≡ probed self.old pool.old rows.now device interface }
        ensures board { self.new ≡ board_after self.old result }
        ensures pool { pool.new ≡ pool_after self.old pool.old rows.now device interface }
    {
        let plan = self.plan(pool.spare(), rows, device, interface)?;
        let bound = Bound {
            driver: plan.driver,
            device,
            interface,
            other: plan.other,
            urbs: take_all(pool, plan.homes),
        };
        self.add(bound);
        Ok(bound)
    }

    /// Undoes a probe: the interfaces of the binding are free again, and its URBs are released.
    pub fn cancel(&mut self, pool: &mut UrbPool, bound: Bound)
        ensures board { self.new ≡ without self.old bound }
        ensures pool { pool.new ≡ released_all pool.old bound.urbs }
    {
        self.remove(bound);
        for slot in bound.urbs {
            release_slot(pool, slot);
        }
    }
}

impl Board {
    fn plan(
        &self,
        spare: u32,
        rows: &[IdRow],
        device: u32,
        interface: u8,
    ) -> Result<Plan, ProbeFault>
        ensures { result ≡ planned self.now spare rows.now device interface }
    {
        let attached = self.attached(device).ok_or(ProbeFault::NoDriver)?;
        let alt = self
            .interface(device, interface)
            .ok_or(ProbeFault::NoDriver)?;
        if let Some(driver) = self.holder(device, interface) {
            return Err(ProbeFault::Busy(driver));
        }
        let driver = first_driver(rows, &attached.device, alt).ok_or(ProbeFault::NoDriver)?;
        self.plan_for(spare, device, attached, alt, driver)
    }

    fn plan_for(
        &self,
        spare: u32,
        device: u32,
        attached: &Attached,
        alt: &Alt,
        driver: Driver,
    ) -> Result<Plan, ProbeFault>
        requires { device < length self.now.devices }
        ensures { result ≡ plan_for self.now spare device attached.now alt.now driver }
    {
        let first = self.firsts.items()[device as usize];
        let homes = homes_for(driver, &attached.config, alt, first).ok_or(ProbeFault::NoEnds)?;
        let other = other_of(driver, &attached.config, alt);
        if let Some(holder) = self.other_holder(device, other) {
            return Err(ProbeFault::OtherBusy(holder));
        }
        let need = urb_count(driver);
        if need > spare {
            return Err(ProbeFault::Full { need, spare });
        }
        Ok(Plan {
            driver,
            other,
            homes,
        })
    }

    fn other_holder(&self, device: u32, other: Option<u8>) -> Option<Driver>
        ensures { result ≡ other_holder self.now device other }
    {
        self.holder(device, other?)
    }
}

fn release_slot(pool: &mut UrbPool, slot: Option<UrbId>)
    ensures { pool.new ≡ released_one pool.old slot }
{
    if let Some(urb) = slot {
        pool.release(urb);
    }
}

fn take_slot(pool: &mut UrbPool, home: Option<u32>) -> Option<UrbId>
    ensures urb { result ≡ slot_urb pool.old home }
    ensures pool { pool.new ≡ slot_taken pool.old home }
{
    pool.take(home?)
}

fn take_all(pool: &mut UrbPool, homes: Homes) -> [Option<UrbId>; 5]
    ensures urbs { result ≡ all_next pool.old homes }
    ensures pool { pool.new ≡ all_taken pool.old homes }
{
    let [a, b, c, d, e] = homes;
    [
        take_slot(pool, a),
        take_slot(pool, b),
        take_slot(pool, c),
        take_slot(pool, d),
        take_slot(pool, e),
    ]
}
