//! What a line adds to the scene.
ghost use Rattle.usb_types.specs.Limits.{most_devices, most_interval, most_packet};
ghost use Rattle.std.specs.Prelude.{◌≡◌, ◌≤◌, length, IsTrue, OnOk};
ghost use Rattle.std.specs.List.{list_any};
ghost use Rattle.usb_scene.specs.Rules.{is_within, is_short, len_in, again_in};
ghost use Rattle.usb_scene.specs.Named.{called_target};
ghost use Rattle.usb_scene.specs.Growth.{bare_device, end_said, on_last, with_end, with_bytes, with_port, joined, with_answers, urb_said, with_call, last_changed, scene_declares, scene_with};

use crate::call::{bare_call_code, interface_call, plain_call, submit_code, urb_call_code};
use crate::rules::device_number;
use crate::scene::{Call, Scene, SceneDevice, SceneThread, SceneUrb, Target};
use std::alloc::Global;
use usb_machine::{EndKind, Shape};
use usb_statement::{DeviceBytes, Statement, UrbOption};
use usb_types::{Buf, List, Memory};
use usb_xfer::{Answers, DeviceScript, Kind};

// Selected, and no error (printer class 1.1, §4.2.2).
const USUAL_PORT_STATUS: u8 = 0x18;

fn bare_device(alloc: Global, name: Buf, kind: Kind) -> SceneDevice
    ensures { result ≡ bare_device name kind }
{
    let script = DeviceScript {
        kind,
        ends: List::of(Vec::new(alloc)),
        desc: None,
        config: None,
        answers: List::of(Vec::new(alloc)),
        id: None,
        port: USUAL_PORT_STATUS,
    };
    SceneDevice { name, script }
}

fn end_said(scene: &Scene, address: u8, kind: EndKind, size: u32, interval: u32) -> Shape
    requires devices { length scene.now.devices ≤ most_devices }
    requires size { size ≤ most_packet }
    requires interval { interval ≤ most_interval }
    ensures { result ≡ end_said scene.now address kind size interval }
{
    Shape {
        device: scene.devices.items().len().saturating_sub(1) as u32,
        address,
        kind,
        max: size as u16,
        interval: interval as u8,
    }
}

#[tactic(auto, using(crate::proofs::Scenes::on_last_push))]
fn push_end(devices: &mut List<SceneDevice>, end: Shape) -> Result<(), Memory>
    ensures { OnOk result (devices.new ≡ on_last (with_end end) devices.old) }
{
    match devices.pop() {
        Some(mut device) => {
            device.script.ends.push(end)?;
            devices.push(device)
        }
        None => Ok(()),
    }
}

fn add_end(
    scene: &mut Scene,
    address: u8,
    kind: EndKind,
    size: u32,
    interval: u32,
) -> Result<(), Memory>
    requires devices { length scene.old.devices ≤ most_devices }
    requires size { size ≤ most_packet }
    requires interval { interval ≤ most_interval }
    ensures { OnOk result (scene.new ≡ last_changed (with_end (end_said scene.old address kind size interval)) scene.old) }
{
    let end = end_said(scene, address, kind, size, interval);
    push_end(&mut scene.devices, end)
}

fn give(device: &mut SceneDevice, which: DeviceBytes, bytes: Buf)
    ensures { device.new ≡ with_bytes which bytes device.old }
{
    match which {
        DeviceBytes::Desc => device.script.desc = Some(bytes),
        DeviceBytes::Config => device.script.config = Some(bytes),
        DeviceBytes::Id => device.script.id = Some(bytes),
    }
}

#[tactic(auto, using(crate::proofs::Scenes::on_last_push))]
fn add_bytes(devices: &mut List<SceneDevice>, which: DeviceBytes, bytes: Buf) -> Result<(), Memory>
    ensures { OnOk result (devices.new ≡ on_last (with_bytes which bytes) devices.old) }
{
    match devices.pop() {
        Some(mut device) => {
            give(&mut device, which, bytes);
            devices.push(device)
        }
        None => Ok(()),
    }
}

#[tactic(auto, using(crate::proofs::Scenes::on_last_push))]
fn set_port(devices: &mut List<SceneDevice>, status: u8) -> Result<(), Memory>
    ensures { OnOk result (devices.new ≡ on_last (with_port status) devices.old) }
{
    match devices.pop() {
        Some(mut device) => {
            device.script.port = status;
            devices.push(device)
        }
        None => Ok(()),
    }
}

// Adds answers after others, in one list with the last where they are of one address.
#[tactic(auto, using(crate::proofs::Scenes::joined_push, crate::proofs::Scenes::joined_other))]
fn join(answers: &mut List<Answers>, said: Answers) -> Result<(), Memory>
    ensures { OnOk result (answers.new ≡ joined said answers.old) }
{
    match answers.pop() {
        Some(mut last) => {
            if last.address == said.address {
                last.items.append(said.items)?;
                answers.push(last)
            } else {
                answers.push(last)?;
                answers.push(said)
            }
        }
        None => answers.push(said),
    }
}

#[tactic(auto, using(crate::proofs::Scenes::on_last_push))]
fn add_answers(devices: &mut List<SceneDevice>, said: Answers) -> Result<(), Memory>
    ensures { OnOk result (devices.new ≡ on_last (with_answers said) devices.old) }
{
    match devices.pop() {
        Some(mut device) => {
            join(&mut device.script.answers, said)?;
            devices.push(device)
        }
        None => Ok(()),
    }
}

/// The number that `len` gives, 0 where it is absent.
pub fn len_in(options: &[UrbOption]) -> u32
    ensures { result ≡ len_in options.now }
{
    for option in options {
        if let UrbOption::Len(len) = option {
            return *len;
        }
    }
    0
}

/// The number that `again` gives, 0 where it is absent.
pub fn again_in(options: &[UrbOption]) -> u32
    ensures { result ≡ again_in options.now }
{
    for option in options {
        if let UrbOption::Again(again) = option {
            return *again;
        }
    }
    0
}

fn has_short(options: &[UrbOption]) -> bool
    ensures { result ≡ list_any is_short options.now }
{
    options
        .iter()
        .any(|option| matches!(option, UrbOption::Short))
}

fn urb_said(scene: &Scene, name: Buf, device: &[u8], address: u8, options: &[UrbOption]) -> SceneUrb
    requires { length scene.now.devices ≤ most_devices }
    ensures { result ≡ urb_said scene.now name device.now address options.now }
{
    SceneUrb {
        name,
        device: device_number(scene, device).unwrap_or(0) as u32,
        address,
        len: len_in(options),
        again: again_in(options),
        short: has_short(options),
    }
}

#[tactic(auto, using(crate::proofs::Scenes::on_last_push))]
fn add_call(threads: &mut List<SceneThread>, call: Call) -> Result<(), Memory>
    ensures { OnOk result (threads.new ≡ on_last (with_call call) threads.old) }
{
    match threads.pop() {
        Some(mut thread) => {
            thread.calls.push(call)?;
            threads.push(thread)
        }
        None => Ok(()),
    }
}

fn declare(scene: &mut Scene, alloc: Global, statement: Statement) -> Result<(), Memory>
    requires devices { length scene.old.devices ≤ most_devices }
    requires within { IsTrue (is_within scene.old statement) }
    ensures { OnOk result (scene.new ≡ scene_declares scene.old statement) }
{
    match statement {
        Statement::Device { name, kind } => scene.devices.push(bare_device(alloc, name, kind)),
        Statement::Ep {
            address,
            kind,
            size,
            interval,
        } => add_end(scene, address, kind, size, interval),
        Statement::Bytes { which, bytes } => add_bytes(&mut scene.devices, which, bytes),
        Statement::Port { status } => set_port(&mut scene.devices, status),
        Statement::Answer { address, items } => {
            add_answers(&mut scene.devices, Answers { address, items })
        }
        Statement::Urb {
            name,
            device,
            address,
            options,
        } => {
            let urb = urb_said(scene, name, device.bytes(), address, options.items());
            scene.urbs.push(urb)
        }
        Statement::Thread { name } => {
            let calls = List::of(Vec::new(alloc));
            scene.threads.push(SceneThread { name, calls })
        }
        _ => Ok(()),
    }
}

/// Adds to the scene what was read from a line, which calls this URB or interface, if any.
pub fn add(
    scene: &mut Scene,
    alloc: Global,
    line: u32,
    statement: Statement,
    target: Target,
) -> Result<(), Memory>
    requires devices { length scene.old.devices ≤ most_devices }
    requires within { IsTrue (is_within scene.old statement) }
    requires called { target ≡ called_target scene.old statement }
    ensures { OnOk result (scene.new ≡ scene_with scene.old line statement) }
{
    match statement {
        Statement::Submit { setup, bytes, .. } => {
            let call = plain_call(line, submit_code(), target, setup, bytes);
            add_call(&mut scene.threads, call)
        }
        Statement::OnUrb { call, .. } => {
            let call = plain_call(line, urb_call_code(call), target, None, None);
            add_call(&mut scene.threads, call)
        }
        Statement::Alone { call } => {
            let call = plain_call(line, bare_call_code(call), target, None, None);
            add_call(&mut scene.threads, call)
        }
        Statement::OnInterface { call, .. } => {
            let call = interface_call(alloc, line, target, call)?;
            add_call(&mut scene.threads, call)
        }
        declared => declare(scene, alloc, declared),
    }
}
