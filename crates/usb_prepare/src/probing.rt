//! The probes of the interfaces.
ghost use Rattle.std.specs.Prelude.{◌≡◌, ◌≤◌, [], ℕ, List, length, is_some, IfOk, IfSome, OnOk};
ghost use Rattle.usb_xfer.specs.declared.script.DeviceScript.{DeviceScript};
ghost use Rattle.usb_device.specs.Device.{Call, Stands};
ghost use Rattle.usb_bind.specs.Board.{attached_at};
ghost use Rattle.usb_prepare.specs.Prepared.{probed_device};
ghost use Rattle.usb_prepare.specs.Bindings.{numbers_of, HasProbed, IsProbing};
ghost use Rattle.usb_prepare.specs.Probing.{to_interface, id_request, requests_of, goes_on, count_moved, Asks, AsksEach, FitsRoom, TellsId};

use crate::found::Probe;
use std::alloc::Global;
use usb_bind::{Board, Driver, UrbPool, interfaces, profile};
use usb_ctrl::Setup;
use usb_device::Scripted;
use usb_types::{Buf, List, Memory};
use usb_xfer::{CtrlReply, Device};

// The most bytes of a printer's id that are asked for.
const ID_ROOM: u16 = 0x03FF;

fn request(kind: u8, request: u8, index: u16, size: u16) -> Setup
    ensures { result ≡ to_interface kind request 0 index size }
{
    Setup {
        kind,
        request,
        value: 0,
        index,
        length: size,
    }
}

// Whether a probe goes on: a Stall is passed over, and nobody asks again after a Nak.
fn goes_on(reply: CtrlReply) -> bool
    ensures { result ≡ goes_on reply }
{
    matches!(reply, CtrlReply::Moved(_) | CtrlReply::Stall)
}

// Asks for a control transfer. Answers whether the probe goes on.
fn ask(device: &mut Scripted<'_>, setup: Setup, room: &mut [u8]) -> bool
    ensures size { length room.new ≡ length room.old }
    ensures asked { Asks device.old setup result device.new }
{
    goes_on(device.control(setup, &[], room))
}

// Asks the requests of a keyboard's probe, SET_PROTOCOL and SET_IDLE (HID 1.11 §7.2), up to the first that ends it. Answers
// whether none did.
fn ask_keyboard(device: &mut Scripted<'_>, interface: u8, room: &mut [u8]) -> bool
    ensures size { length room.new ≡ length room.old }
    ensures asked { AsksEach device.old (requests_of Driver.Keyboard interface) result device.new }
{
    let number = interface as u16;
    ask(device, request(0x21, 0x0B, number, 0), room)
        && ask(device, request(0x21, 0x0A, number, 0), room)
}

// How many bytes came, where the probe goes on.
fn count_moved(reply: CtrlReply) -> Option<u32>
    ensures { result ≡ count_moved reply }
{
    match reply {
        CtrlReply::Moved(count) => Some(count),
        CtrlReply::Stall => Some(0),
        CtrlReply::Nak | CtrlReply::Error => None,
    }
}

// Asks for the id of a printer, GET_DEVICE_ID (printer class 1.1 §4.2.1), with the interface in the high byte. Answers how
// many bytes of it are in the room, where the probe goes on.
fn ask_id(device: &mut Scripted<'_>, interface: u8, room: &mut [u8]) -> Option<usize>
    requires room { 1024 ≤ length room.old }
    ensures size { length room.new ≡ length room.old }
    ensures within { IfSome result (λ count. count ≤ length room.new) }
    ensures asked { Asks device.old (id_request interface) (is_some result) device.new }
    ensures told { TellsId device.old Driver.Printer interface result room.new }
{
    let number = interface as u16;
    let reply = device.control(request(0xA1, 0x00, 256 * number, ID_ROOM), &[], room);
    let count = count_moved(reply)?;
    Some((count as usize).min(room.len()))
}

// Asks the requests of a driver's probe, up to the first that ends it. Answers how many bytes of an id are in the room,
// where none did.
fn ask_each(
    device: &mut Scripted<'_>,
    driver: Driver,
    interface: u8,
    room: &mut [u8],
) -> Option<usize>
    requires room { 1024 ≤ length room.old }
    ensures size { length room.new ≡ length room.old }
    ensures within { IfSome result (λ count. count ≤ length room.new) }
    ensures asked { AsksEach device.old (requests_of driver interface) (is_some result) device.new }
    ensures told { TellsId device.old driver interface result room.new }
{
    match driver {
        Driver::Keyboard => {
            if ask_keyboard(device, interface, room) {
                Some(0)
            } else {
                None
            }
        }
        Driver::Acm => Some(0),
        Driver::Printer => ask_id(device, interface, room),
    }
}

/// The bindings of a host, with the id that each was given, and its URBs.
#[derive(Drop)]
pub struct Bindings {
    pub board: Board,
    pub pool: UrbPool,
    pub ids: List<Buf>,
}

impl Bindings {
    // Probes an interface of a device.
    fn probe(
        &mut self,
        alloc: Global,
        device: &mut Scripted<'_>,
        number: u32,
        interface: u8,
        room: &mut [u8],
    ) -> Result<Probe, Memory>
        requires room { 1024 ≤ length room.old }
        ensures size { length room.new ≡ length room.old }
        ensures probed { IfOk result (λ went. HasProbed self.old device.old number interface went self.new device.new) }
    {
        match self
            .board
            .probe(&mut self.pool, &profile(), number, interface)
        {
            Ok(bound) => match ask_each(device, bound.driver, interface, room) {
                Some(count) => {
                    self.ids.push(Buf::copy(alloc, &room[..count])?)?;
                    Ok(Probe::Bound)
                }
                None => {
                    self.board.cancel(&mut self.pool, bound);
                    Ok(Probe::Cancelled)
                }
            },
            Err(fault) => Ok(Probe::Refused(fault)),
        }
    }

    // The numbers of a device's interfaces, in descriptor order.
    fn numbers(&self, alloc: Global, number: u32) -> Result<List<u8>, Memory>
        ensures { IfOk result (λ numbers. numbers ≡ numbers_of (attached_at self.now.board number)) }
    {
        match self.board.attached(number) {
            Some(attached) => interfaces(alloc, &attached.config),
            None => Ok(List::of(Vec::new(alloc))),
        }
    }

    /// Probes each interface of a device, in descriptor order. Answers how each probe went.
    pub fn probe_all(
        &mut self,
        alloc: Global,
        device: &mut Scripted<'_>,
        number: u32,
        room: &mut [u8],
    ) -> Result<List<Probe>, Memory>
        requires room { 1024 ≤ length room.old }
        ensures size { length room.new ≡ length room.old }
        ensures probed { IfOk result (λ probes. (script : DeviceScript) (calls : List Call) → Stands device.old script calls → FitsRoom script
            → IsProbing (probed_device number script (attached_at self.old.board number) record { board = self.old.board; pool = self.old.pool; calls = calls; probes = []; ids = self.old.ids }) script self.new device.new probes) }
    {
        let mut probes = List::of(Vec::new(alloc));
        for interface in self.numbers(alloc, number)?.items() {
            probes.push(self.probe(alloc, device, number, *interface, room)?)?;
        }
        Ok(probes)
    }
}
