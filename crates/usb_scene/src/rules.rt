//! Where a line may stand, what is declared before it, and which thread may make calls of the hub.
ghost use Rattle.usb_types.specs.Limits.{most_devices, most_interface};
ghost use Rattle.std.specs.Prelude.{◌≡◌, ◌<◌, ◌≤◌, ◌==◌, ◌&&◌, ◌||◌, not, is_some, codes, nat_le, count_by, length, IfSome};
ghost use Rattle.std.specs.List.{list_all, list_any};
ghost use Rattle.std.specs.Str.{bytes_eq};
ghost use Rattle.usb_machine.specs.declared.layout.Shape.{Shape};
ghost use Rattle.usb_scene.specs.WellFormed.{is_raw, is_printer, is_packet};
ghost use Rattle.usb_scene.specs.Rules.{in_devices, last_device, is_of, is_classed, takes, may_stand, fits_device, device_number, thread_number, has_end, has_address, may_answer, is_home, driven_number, interface_target, numbered_device, bytes_of, has_bytes, is_len, is_again, is_short, are_once, is_hub, last_thread, may_call};

use crate::scene::{Scene, Target};
use usb_machine::Shape;
use usb_statement::{BareCall, DeviceBytes, Keyword, Statement, UrbOption};
use usb_text::is_text;
use usb_xfer::{DeviceScript, Item, Kind, What};

fn in_devices(scene: &Scene) -> bool
    ensures { result ≡ in_devices scene.now }
{
    scene.urbs.items().is_empty() && scene.threads.items().is_empty()
}

fn is_raw(kind: Kind) -> bool
    ensures { result ≡ is_raw kind }
{
    match kind {
        Kind::Raw => true,
        _ => false,
    }
}

fn is_printer(kind: Kind) -> bool
    ensures { result ≡ is_printer kind }
{
    match kind {
        Kind::Printer => true,
        _ => false,
    }
}

// Whether such bytes belong to a device of this kind.
fn takes(which: DeviceBytes, kind: Kind) -> bool
    ensures { result ≡ takes which kind }
{
    match which {
        DeviceBytes::Desc | DeviceBytes::Config => !is_raw(kind),
        DeviceBytes::Id => is_printer(kind),
    }
}

fn last_is_raw(scene: &Scene) -> bool
    ensures { result ≡ is_of is_raw (last_device scene.now) }
{
    match scene.devices.items().last() {
        Some(device) => is_raw(device.script.kind),
        None => false,
    }
}

fn last_is_printer(scene: &Scene) -> bool
    ensures { result ≡ is_of is_printer (last_device scene.now) }
{
    match scene.devices.items().last() {
        Some(device) => is_printer(device.script.kind),
        None => false,
    }
}

fn last_takes(scene: &Scene, which: DeviceBytes) -> bool
    ensures { result ≡ is_of (takes which) (last_device scene.now) }
{
    match scene.devices.items().last() {
        Some(device) => takes(which, device.script.kind),
        None => false,
    }
}

/// Whether a line with this first word may stand where the scene is so far.
pub fn may_stand(scene: &Scene, keyword: Keyword) -> bool
    ensures { result ≡ may_stand scene.now keyword }
{
    match keyword {
        Keyword::Device => in_devices(scene),
        Keyword::Ep => last_is_raw(scene) && in_devices(scene),
        Keyword::Bytes(which) => last_takes(scene, which) && in_devices(scene),
        Keyword::Port => last_is_printer(scene) && in_devices(scene),
        Keyword::Answer => !scene.devices.items().is_empty() && in_devices(scene),
        Keyword::Urb => scene.threads.items().is_empty(),
        Keyword::Thread => true,
        _ => !scene.threads.items().is_empty(),
    }
}

fn is_packet(what: &What) -> bool
    ensures { result ≡ is_packet what.now }
{
    match what {
        What::Packet(_) => true,
        _ => false,
    }
}

fn has_no_packet(items: &[Item]) -> bool
    ensures { result ≡ list_all (λ (item : Item). not (is_packet item.what)) items.now }
{
    items.iter().all(|item| !is_packet(&item.what))
}

/// Whether the device whose lines are being read can give the answers on a line.
pub fn fits_device(scene: &Scene, statement: &Statement) -> bool
    ensures { result ≡ fits_device scene.now statement.now }
{
    match statement {
        Statement::Answer { address, items } => {
            *address != 0 || last_is_raw(scene) || has_no_packet(items.items())
        }
        _ => true,
    }
}

/// The number of a device with this name.
pub fn device_number(scene: &Scene, name: &[u8]) -> Option<usize>
    ensures value { result ≡ device_number scene.now name.now }
    ensures within { IfSome result (λ number. number < length scene.now.devices) }
{
    let devices = scene.devices.items();
    devices
        .iter()
        .position(|device| device.name.bytes() == name)
}

fn thread_number(scene: &Scene, name: &[u8]) -> Option<usize>
    ensures { result ≡ thread_number scene.now name.now }
{
    let threads = scene.threads.items();
    threads
        .iter()
        .position(|thread| thread.name.bytes() == name)
}

fn has_end(ends: &[Shape], address: u8) -> bool
    ensures { result ≡ list_any (λ (e : Shape). e.address == address) ends.now }
{
    ends.iter().any(|end| end.address == address)
}

/// Whether the device whose lines are being read has an endpoint with this address.
pub fn last_has_end(scene: &Scene, address: u8) -> bool
    ensures { result ≡ has_end (last_device scene.now) address }
{
    match scene.devices.items().last() {
        Some(device) => has_end(device.script.ends.items(), address),
        None => false,
    }
}

// Each device has the address 00.
fn has_address(ends: &[Shape], address: u8) -> bool
    ensures { result ≡ (address == 0 || list_any (λ (e : Shape). e.address == address) ends.now) }
{
    address == 0 || has_end(ends, address)
}

fn may_answer(script: &DeviceScript, address: u8) -> bool
    ensures { result ≡ (is_classed script.now.kind || (address == 0 || list_any (λ (e : Shape). e.address == address) script.now.ends)) }
{
    !is_raw(script.kind) || has_address(script.ends.items(), address)
}

/// Whether the device whose lines are being read answers at the address.
pub fn last_may_answer(scene: &Scene, address: u8) -> bool
    ensures { result ≡ may_answer (last_device scene.now) address }
{
    match scene.devices.items().last() {
        Some(device) => may_answer(&device.script, address),
        None => false,
    }
}

fn is_home(script: &DeviceScript, address: u8) -> bool
    ensures { result ≡ (is_raw script.now.kind && (address == 0 || list_any (λ (e : Shape). e.address == address) script.now.ends)) }
{
    is_raw(script.kind) && has_address(script.ends.items(), address)
}

/// Whether a line may declare an URB at the address of the device with this name.
pub fn named_is_home(scene: &Scene, device: &[u8], address: u8) -> bool
    ensures { result ≡ is_home (numbered_device scene.now (device_number scene.now device.now)) address }
{
    match device_number(scene, device) {
        Some(number) => is_home(&scene.devices.items()[number].script, address),
        None => false,
    }
}

/// The number of the device with this name, where drivers have its URBs.
pub fn driven_number(scene: &Scene, name: &[u8]) -> Option<usize>
    ensures value { result ≡ driven_number scene.now name.now }
    ensures within { IfSome result (λ number. number < length scene.now.devices) }
{
    let number = device_number(scene, name)?;
    if is_raw(scene.devices.items()[number].script.kind) {
        None
    } else {
        Some(number)
    }
}

/// The interface that a line calls, where drivers have its device.
pub fn interface_target(scene: &Scene, device: &[u8], interface: u32) -> Target
    requires devices { length scene.now.devices ≤ most_devices }
    requires low { interface ≤ most_interface }
    ensures { result ≡ interface_target scene.now device.now interface }
{
    match driven_number(scene, device) {
        Some(device) => Target::Interface {
            device: device as u32,
            interface: interface as u8,
        },
        None => Target::Nothing,
    }
}

fn are_given(script: &DeviceScript, which: DeviceBytes) -> bool
    ensures { result ≡ is_some (bytes_of which script.now) }
{
    match which {
        DeviceBytes::Desc => script.desc.is_some(),
        DeviceBytes::Config => script.config.is_some(),
        DeviceBytes::Id => script.id.is_some(),
    }
}

/// Whether a line gave such bytes to the device whose lines are being read.
pub fn last_has_bytes(scene: &Scene, which: DeviceBytes) -> bool
    ensures { result ≡ has_bytes which (last_device scene.now) }
{
    match scene.devices.items().last() {
        Some(device) => are_given(&device.script, which),
        None => false,
    }
}

fn has_one_len(options: &[UrbOption]) -> bool
    ensures { result ≡ nat_le (count_by is_len options.now) 1 }
{
    let count = options
        .iter()
        .filter(|option| matches!(option, UrbOption::Len(_)))
        .count();
    count <= 1
}

fn has_one_again(options: &[UrbOption]) -> bool
    ensures { result ≡ nat_le (count_by is_again options.now) 1 }
{
    let count = options
        .iter()
        .filter(|option| matches!(option, UrbOption::Again(_)))
        .count();
    count <= 1
}

fn has_one_short(options: &[UrbOption]) -> bool
    ensures { result ≡ nat_le (count_by is_short options.now) 1 }
{
    let count = options
        .iter()
        .filter(|option| matches!(option, UrbOption::Short))
        .count();
    count <= 1
}

/// Whether each option is given at most once.
pub fn are_once(options: &[UrbOption]) -> bool
    ensures { result ≡ are_once options.now }
{
    has_one_len(options) && has_one_again(options) && has_one_short(options)
}

/// Whether no thread has the name, which is not `server` either.
pub fn is_new_thread(scene: &Scene, name: &[u8]) -> bool
    ensures { result ≡ (not (is_some (thread_number scene.now name.now)) && not (bytes_eq name.now (codes "server"))) }
{
    thread_number(scene, name).is_none() && !is_text(name, "server")
}

fn in_hub(scene: &Scene) -> bool
    ensures { result ≡ is_hub (last_thread scene.now) }
{
    match scene.threads.items().last() {
        Some(thread) => is_text(thread.name.bytes(), "hub"),
        None => false,
    }
}

/// Whether a call of the host as a whole, as `down`, stands in the thread `hub`.
pub fn may_call(scene: &Scene, statement: &Statement) -> bool
    ensures { result ≡ may_call scene.now statement.now }
{
    match statement {
        Statement::Alone { call } => match call {
            BareCall::Serve => true,
            BareCall::Down => in_hub(scene),
            BareCall::Up => in_hub(scene),
        },
        _ => true,
    }
}
