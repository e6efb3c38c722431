//! The transfer that a submit of a scene sends.
ghost use Rattle.std.specs.Prelude.{◌≡◌, ◌<◌, ◌^◌, length, replicate, slice_get, IfOk};
ghost use Rattle.usb_scene.specs.WellFormed.{IsWellFormed, IsBuffer};
ghost use Rattle.usb_trace.specs.Plan.{len_in, short_in, buffer_of, interface_setup, interface_payload, interface_window, setup_by, payload_by, window_by, fresh};

use std::alloc::Global;
use usb_class::{copied, payload_for, setup_for, window_for};
use usb_machine::Transfer;
use usb_scene::{Call, Operation, Scene, SceneUrb, Target};
use usb_types::{Buf, Memory};

// How many zero bytes a submit of the URB without data carries: of a driver's URB the scene says nothing.
fn len_said(urbs: &[SceneUrb], urb: u32) -> u32
    ensures { result ≡ len_in (slice_get urbs.now urb) }
{
    match urbs.get(urb as usize) {
        Some(urb) => urb.len,
        None => 0,
    }
}

// Whether fewer bytes than asked are a fault.
fn short_said(urbs: &[SceneUrb], urb: u32) -> bool
    ensures { result ≡ short_in (slice_get urbs.now urb) }
{
    match urbs.get(urb as usize) {
        Some(urb) => urb.short,
        None => false,
    }
}

/// Some zero bytes.
pub(crate) fn zeros(alloc: Global, len: u32) -> Result<Buf, Memory>
    ensures { IfOk result (λ buf. buf ≡ replicate len 0) }
{
    let bytes = vec![in alloc; 0u8; len as usize]?;
    Ok(Buf::of(bytes))
}

// The bytes that an operation sends to an interface, where its call says these.
fn interface_payload(
    alloc: Global,
    operation: Operation,
    said: &Option<Buf>,
) -> Result<Option<Buf>, Memory>
    ensures { IfOk result (λ payload. payload ≡ interface_payload said.now operation) }
{
    match operation {
        Operation::Interface(asked) => payload_for(alloc, asked, said),
        _ => copied(alloc, said),
    }
}

// The bytes that a call sends: those that it has for an interface, or else those that it says.
fn payload(alloc: Global, call: &Call) -> Result<Option<Buf>, Memory>
    ensures { IfOk result (λ payload. payload ≡ payload_by call.now.target call.now) }
{
    match call.target {
        Target::Interface { .. } => interface_payload(alloc, call.operation(), &call.bytes),
        _ => copied(alloc, &call.bytes),
    }
}

// What a submit carries: the bytes of the call, and without such bytes so many zeros.
fn buffer(alloc: Global, len: u32, call: &Call) -> Result<Buf, Memory>
    ensures { IfOk result (λ buf. buf ≡ buffer_of len (payload_by call.now.target call.now)) }
{
    match payload(alloc, call)? {
        Some(buf) => Ok(buf),
        None => zeros(alloc, len),
    }
}

// The setup packet that an operation sends to an interface.
fn interface_setup(operation: Operation, interface: u8) -> Option<[u8; 8]>
    ensures { result ≡ interface_setup interface operation }
{
    match operation {
        Operation::Interface(asked) => setup_for(asked, interface),
        _ => None,
    }
}

// The setup packet that a call sends: the one that it has for an interface, or else the one that it says.
fn setup(call: &Call) -> Option<[u8; 8]>
    ensures { result ≡ setup_by call.now.target call.now }
{
    match call.target {
        Target::Interface { interface, .. } => interface_setup(call.operation(), interface),
        _ => call.setup,
    }
}

// Length of an operation's first window on an interface, of so many bytes.
fn interface_window(operation: Operation, len: u32) -> u32
    ensures { result ≡ interface_window len operation }
{
    match operation {
        Operation::Interface(asked) => window_for(asked, len),
        _ => len,
    }
}

// Length of a call's first window, of so many bytes.
fn window(call: &Call, len: u32) -> u32
    ensures { result ≡ window_by call.now.target call.now len }
{
    match call.target {
        Target::Interface { .. } => interface_window(call.operation(), len),
        _ => len,
    }
}

// The transfer that a submit sends with this buffer.
fn transfer(call: &Call, buf: Buf, short: bool) -> Transfer
    requires { length buf < 2 ^ 32 }
    ensures { result ≡ record { setup = setup_by call.now.target call.now; buf = buf; from = 0; len = window_by call.now.target call.now (length buf); short_not_ok = short; actual = 0; number = call.now.line } }
{
    let len = window(call, buf.bytes().len() as u32);
    Transfer {
        setup: setup(call),
        buf,
        from: 0,
        len,
        short_not_ok: short,
        actual: 0,
        number: call.line as u64,
    }
}

/// The transfer that a submit of the URB by this call sends.
pub fn sent_by_call(alloc: Global, scene: &Scene, urb: u32, call: &Call) -> Result<Transfer, Memory>
    requires good { IsWellFormed scene.now }
    requires bytes { IsBuffer call.now.bytes }
    ensures { IfOk result (λ t. t ≡ fresh scene.now urb call.now) }
{
    let urbs = scene.urbs.items();
    let buf = buffer(alloc, len_said(urbs, urb), call)?;
    Ok(transfer(call, buf, short_said(urbs, urb)))
}
