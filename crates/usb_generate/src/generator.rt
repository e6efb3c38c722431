//! The scene of a number.
ghost use Rattle.std.specs.Prelude.{◌≡◌, [], ◌∷◌, codes, decimal, replicate, IfOk, OnOk};
ghost use Rattle.usb_generate.specs.Draws.{behind, draw};
ghost use Rattle.usb_generate.specs.Generator.{item_of, item_draws, item_place, items, device_of, device_beginning, devices, urb_at, urbs, call_of, call_draws, calls, generated};
ghost use Rattle.usb_generate.specs.Readable.{IsReadable};
ghost use Rattle.usb_scene.specs.WellFormed.{IsWellFormed};
ghost use Rattle.usb_scene.specs.Growth.{plain_call};

use crate::draws::Draws;
use std::alloc::Global;
use usb_machine::{EndKind, Shape};
use usb_scene::{Call, Scene, SceneDevice, SceneThread, SceneUrb, Target};
use usb_text::push_number;
use usb_types::{Buf, List, Memory};
use usb_xfer::{Answers, DeviceScript, Item, Kind, What};

const DEVICES: u32 = 4;

const ITEMS: u8 = 64;

const URBS: u32 = 16;

const CALLS: u32 = 2000;
// The one endpoint of a device.
const ADDRESS: u8 = 0x81;
// Of a packet, in bytes.
const MOST: u16 = 64;
// The line of the first call, after the header, three lines of each device, the URBs and the thread.
const FIRST_CALL: u32 = 31;
// The calls' numbers in the table of calls.
const SUBMIT: u32 = 1;

const UNLINK: u32 = 2;

const KILL: u32 = 3;

const SERVE: u32 = 8;
// That a printer is selected and has no error, which a device without a `port` line says.
const PORT: u8 = 0x18;

fn name(alloc: Global, letter: u8, number: u32) -> Result<Buf, Memory>
    ensures { IfOk result (λ name. name ≡ letter ∷ decimal number) }
{
    let mut name = Buf::of(Vec::new(alloc));
    name.append(&[letter])?;
    push_number(&mut name, number as u64)?;
    Ok(name)
}

fn packet(alloc: Global, len: u32, byte: u8) -> Result<Buf, Memory>
    ensures { IfOk result (λ packet. packet ≡ replicate len byte) }
{
    let bytes = vec![in alloc; byte; len as usize]?;
    Ok(Buf::of(bytes))
}

fn item(alloc: Global, draws: &mut Draws, byte: u8) -> Result<Item, Memory>
    ensures item { IfOk result (λ item. item ≡ item_of (draw draws.old 0 8) (draw draws.old 1 65) byte) }
    ensures draws { OnOk result (draws.new ≡ behind (item_draws (draw draws.old 0 8)) draws.old) }
{
    let what = match draws.draw(8) {
        0 => What::Nak,
        1 => What::Stall,
        _ => What::Packet(packet(alloc, draws.draw(65), byte)?),
    };
    Ok(Item { times: 1, what })
}

fn items(alloc: Global, draws: &mut Draws) -> Result<List<Item>, Memory>
    ensures items { IfOk result (λ said. said ≡ items draws.old 64) }
    ensures draws { OnOk result (draws.new ≡ behind (item_place draws.old 64) draws.old) }
{
    let mut items = List::of(Vec::new(alloc));
    for byte in 0..ITEMS {
        items.push(item(alloc, draws, byte)?)?;
    }
    Ok(items)
}

// The script of a raw device with one endpoint.
fn script(alloc: Global, device: u32, items: List<Item>) -> Result<DeviceScript, Memory>
    ensures { IfOk result (λ script. script ≡ (device_of device items).script) }
{
    let mut ends = List::of(Vec::new(alloc));
    ends.push(Shape {
        device,
        address: ADDRESS,
        kind: EndKind::Bulk,
        max: MOST,
        interval: 0,
    })?;
    let mut answers = List::of(Vec::new(alloc));
    answers.push(Answers {
        address: ADDRESS,
        items,
    })?;
    Ok(DeviceScript {
        kind: Kind::Raw,
        ends,
        desc: None,
        config: None,
        answers,
        id: None,
        port: PORT,
    })
}

fn devices(alloc: Global, draws: &mut Draws) -> Result<List<SceneDevice>, Memory>
    ensures devices { IfOk result (λ said. said ≡ devices draws.old 4) }
    ensures draws { OnOk result (draws.new ≡ device_beginning draws.old 4) }
{
    let mut devices = List::of(Vec::new(alloc));
    for number in 0..DEVICES {
        let items = items(alloc, draws)?;
        devices.push(SceneDevice {
            name: name(alloc, b'd', number)?,
            script: script(alloc, number, items)?,
        })?;
    }
    Ok(devices)
}

fn urb(alloc: Global, number: u32) -> Result<SceneUrb, Memory>
    ensures { IfOk result (λ urb. urb ≡ urb_at number) }
{
    Ok(SceneUrb {
        name: name(alloc, b'u', number)?,
        device: number % DEVICES,
        address: ADDRESS,
        len: 64 * (1 + number % 2),
        again: number % 3,
        short: false,
    })
}

fn urbs(alloc: Global) -> Result<List<SceneUrb>, Memory>
    ensures { IfOk result (λ said. said ≡ urbs 16) }
{
    let mut urbs = List::of(Vec::new(alloc));
    for number in 0..URBS {
        urbs.push(urb(alloc, number)?)?;
    }
    Ok(urbs)
}

// A call with neither numbers nor bytes.
fn plain_call(line: u32, code: u32, target: Target) -> Call
    ensures { result ≡ plain_call line code target None None }
{
    Call {
        line,
        code,
        target,
        second: None,
        numbers: [0; 4],
        setup: None,
        bytes: None,
    }
}

fn call(draws: &mut Draws, line: u32) -> Call
    ensures call { result ≡ call_of line (draw draws.old 0 8) (draw draws.old 1 16) }
    ensures draws { draws.new ≡ behind (call_draws (draw draws.old 0 8)) draws.old }
{
    match draws.draw(8) {
        0..=3 => plain_call(line, SUBMIT, Target::Urb(draws.draw(URBS))),
        4 => plain_call(line, UNLINK, Target::Urb(draws.draw(URBS))),
        5 => plain_call(line, KILL, Target::Urb(draws.draw(URBS))),
        _ => plain_call(line, SERVE, Target::Nothing),
    }
}

fn calls(alloc: Global, draws: &mut Draws) -> Result<List<Call>, Memory>
    ensures { IfOk result (λ said. said ≡ calls draws.old 2000) }
{
    let mut calls = List::of(Vec::new(alloc));
    for number in 0..CALLS {
        calls.push(call(draws, FIRST_CALL + number))?;
    }
    Ok(calls)
}

fn threads(alloc: Global, draws: &mut Draws) -> Result<List<SceneThread>, Memory>
    ensures { IfOk result (λ threads. threads ≡ record { name = codes "t"; calls = calls draws.old 2000 } ∷ []) }
{
    let mut name = Buf::of(Vec::new(alloc));
    name.append(b"t")?;
    let calls = calls(alloc, draws)?;
    let mut threads = List::of(Vec::new(alloc));
    threads.push(SceneThread { name, calls })?;
    Ok(threads)
}

/// The scene of a number. It is the scene of a text, as if it had been read.
pub fn generate(alloc: Global, number: u32) -> Result<Scene, Memory>
    ensures exact { IfOk result (λ scene. scene ≡ generated number) }
    ensures readable { IfOk result IsReadable }
    ensures well_formed { IfOk result IsWellFormed }
{
    let mut draws = Draws::of(number);
    let devices = devices(alloc, &mut draws)?;
    let urbs = urbs(alloc)?;
    let threads = threads(alloc, &mut draws)?;
    Ok(Scene {
        version: 1,
        devices,
        urbs,
        anchors: List::of(Vec::new(alloc)),
        threads,
    })
}
