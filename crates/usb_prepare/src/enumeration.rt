//! The enumeration of the devices that aren't raw.
ghost use Rattle.std.specs.Prelude.{◌≡◌, ◌≤◌, ◌<◌, ◌++◌, ◌∷◌, [], ℕ, List, Some, Err, false, length, take, IfOk, OnOk};
ghost use Rattle.usb_xfer.specs.declared.script.DeviceScript.{DeviceScript};
ghost use Rattle.usb_ctrl.specs.Requests.{asks};
ghost use Rattle.usb_device.specs.Device.{Call, reply_to, Stands};
ghost use Rattle.usb_prepare.specs.Enumerated.{enumerated, IsFound};
ghost use Rattle.usb_prepare.specs.Probing.{asking};
ghost use Rattle.usb_prepare.specs.Prepared.{requests_heard};
ghost use Rattle.usb_prepare.specs.Requests.{code_heard, count_heard, answer_to, left_of, is_failed, is_memory, IsOwn, IsAt, GoesOn};

use std::alloc::Global;
use usb_ctrl::{Attached, EnumFault, Enumerator, Setup};
use usb_device::Scripted;
use usb_types::{Code, Errno, Memory};
use usb_xfer::{CtrlReply, Device};

// The code of a control transfer. Nobody asks again after a Nak.
fn code_of(reply: CtrlReply) -> Code
    ensures { result ≡ code_heard reply }
{
    match reply {
        CtrlReply::Moved(_) => Code::Zero,
        CtrlReply::Stall => Code::Fault(Errno::EPIPE),
        CtrlReply::Nak | CtrlReply::Error => Code::Fault(Errno::EPROTO),
    }
}

// How many bytes it moved.
fn count_of(reply: CtrlReply) -> u32
    ensures { result ≡ count_heard reply }
{
    match reply {
        CtrlReply::Moved(count) => count,
        CtrlReply::Stall | CtrlReply::Nak | CtrlReply::Error => 0,
    }
}

// Asks for a control transfer without data that go out. Answers its code and how many bytes are in the room.
fn ask(device: &mut Scripted<'_>, setup: Setup, room: &mut [u8]) -> (Code, usize)
    ensures size { length room.new ≡ length room.old }
    ensures within { result.1 ≤ length room.new }
    ensures heard { (script : DeviceScript) (calls : List Call) → Stands device.old script calls → Stands device.new script (calls ++ asking setup ∷ []) }
    ensures code { (script : DeviceScript) (calls : List Call) → Stands device.old script calls → result.0 ≡ (answer_to setup (reply_to script calls (asking setup))).code }
    ensures bytes { (script : DeviceScript) (calls : List Call) → Stands device.old script calls → length (answer_to setup (reply_to script calls (asking setup))).reply ≤ length room.old
        → take result.1 room.new ≡ (answer_to setup (reply_to script calls (asking setup))).reply }
{
    let reply = device.control(setup, &[], room);
    (code_of(reply), (count_of(reply) as usize).min(room.len()))
}

// Asks the request that comes next.
fn ask_next(
    device: &mut Scripted<'_>,
    enumerator: &mut Enumerator,
    setup: Setup,
    room: &mut [u8],
) -> Result<(), EnumFault>
    requires next { asks enumerator.old.address enumerator.old.stage ≡ Some setup }
    requires room { 65535 ≤ length room.old }
    requires given { 1 ≤ enumerator.old.address }
    requires fits { enumerator.old.address < 128 }
    ensures size { length room.new ≡ length room.old }
    ensures address { enumerator.new.address ≡ enumerator.old.address }
    ensures less { OnOk result (left_of enumerator.new.stage < left_of enumerator.old.stage) }
    ensures live { OnOk result (is_failed enumerator.new.stage ≡ false) }
    ensures heard { (script : DeviceScript) (calls : List Call) → Stands device.old script calls → Stands device.new script (calls ++ asking setup ∷ []) }
    ensures goes { (script : DeviceScript) (calls : List Call) (k : ℕ) → Stands device.old script calls → IsOwn script → IsAt script enumerator.old.address k enumerator.old.stage calls
        → GoesOn script enumerator.old.address k enumerator.new.stage (calls ++ asking setup ∷ []) result }
{
    let (code, count) = ask(device, setup, room);
    enumerator.answer(&room[..count], code)
}

// A fault ends the enumeration, and want of memory all of it.
fn ended(fault: EnumFault) -> Result<Result<Attached, EnumFault>, Memory>
    ensures { IfOk result (λ told. (told ≡ Err fault) × (is_memory fault ≡ false)) }
{
    match fault {
        EnumFault::Memory => Err(Memory),
        fault => Ok(Err(fault)),
    }
}

/// Asks a new device the six requests. Answers the device with its address, or the first fault.
pub fn enumerate(
    alloc: Global,
    device: &mut Scripted<'_>,
    address: u8,
    room: &mut [u8],
) -> Result<Result<Attached, EnumFault>, Memory>
    requires given { 1 ≤ address }
    requires fits { address < 128 }
    requires room { 65535 ≤ length room.old }
    ensures size { length room.new ≡ length room.old }
    ensures found { IfOk result (λ told. (script : DeviceScript) → Stands device.old script [] → IsOwn script → IsFound address (enumerated script address) told) }
    ensures heard { IfOk result (λ told. (script : DeviceScript) → Stands device.old script [] → IsOwn script → Stands device.new script (requests_heard script address 6)) }
{
    let mut enumerator = Enumerator::new(alloc, address);
    while let Some(setup) = enumerator.next() {
        if let Err(fault) = ask_next(device, &mut enumerator, setup, room) {
            return ended(fault);
        }
    }
    match enumerator.finish() {
        Ok(attached) => Ok(Ok(attached)),
        Err(_) => unreachable!(),
    }
}
