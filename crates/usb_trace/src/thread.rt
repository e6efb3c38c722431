//! What the threads of a scene say.
ghost use Rattle.std.specs.Prelude.{◌≡◌, ◌<◌, ◌≤◌, ◌^◌, length, find, option_map, option_and_then};
ghost use Rattle.usb_scene.specs.declared.scene.Scene.{Scene};
ghost use Rattle.usb_prepare.specs.Prepared.{bindings_of};
ghost use Rattle.usb_types.specs.declared.urb.UrbId.{UrbId};
ghost use Rattle.usb_bind.specs.Board.{is_binding_of, urb_of_role};
ghost use Rattle.usb_trace.specs.Plan.{host_call_on, host_call_alone, host_call_on_any, host_call_called as host_call_of_called, called_of, host_call_of, pass_of, main_pass};

use crate::rows::HostCall;
use usb_bind::Bound;
use usb_class::urb_for;
use usb_machine::HUB;
use usb_scene::{Call, Operation, Scene, Target};
use usb_types::{Role, UrbId};

// What an operation does to an URB.
fn host_call_to(operation: Operation, urb: u32) -> HostCall
    ensures { result ≡ host_call_on operation urb }
{
    match operation {
        Operation::Submit => HostCall::Submit(urb),
        Operation::Unlink => HostCall::Unlink(urb),
        Operation::Kill => HostCall::Kill(urb),
        Operation::Poison => HostCall::Poison(urb),
        Operation::Unpoison => HostCall::Unpoison(urb),
        Operation::Block => HostCall::Block(urb),
        Operation::Unblock => HostCall::Unblock(urb),
        _ => HostCall::Other,
    }
}

// And what it does on nothing in particular.
fn host_call_by_itself(operation: Operation) -> HostCall
    ensures { result ≡ host_call_alone operation }
{
    match operation {
        Operation::Serve => HostCall::Serve,
        Operation::Down => HostCall::Down,
        Operation::Up => HostCall::Up,
        _ => HostCall::Other,
    }
}

// And what it does to an URB of a driver, where there is one.
fn host_call_to_any(operation: Operation, urb: Option<u32>) -> HostCall
    ensures { result ≡ host_call_on_any operation urb }
{
    match urb {
        Some(urb) => host_call_to(operation, urb),
        None => HostCall::Absent,
    }
}

// The binding of an interface of a device.
fn binding_of(bindings: &[Bound], device: u32, interface: u8) -> Option<Bound>
    ensures { result ≡ find (is_binding_of device interface) bindings.now }
{
    bindings
        .iter()
        .copied()
        .find(|b| b.device == device && b.interface == interface)
}

// The number of the URB of this role that a driver has by its binding.
fn bound_urb(bound: Option<Bound>, role: Role) -> Option<u32>
    ensures { result ≡ option_map (λ (u : UrbId). u.0) (option_and_then (λ b. urb_of_role b role) bound) }
{
    Some(bound?.urb(role)?.0)
}

// The URB of a binding that an operation on its interface submits.
fn called_of(operation: Operation, bound: &Bound) -> Option<UrbId>
    ensures { result ≡ called_of operation bound.now }
{
    match operation {
        Operation::Interface(asked) => urb_for(asked, bound),
        _ => None,
    }
}

// The number of the URB that an operation on an interface submits.
fn called_urb(operation: Operation, bound: Option<Bound>) -> Option<u32>
    ensures { result ≡ option_map (λ (u : UrbId). u.0) (option_and_then (called_of operation) bound) }
{
    Some(called_of(operation, &bound?)?.0)
}

// And what it does there.
fn host_call_called(urb: Option<u32>) -> HostCall
    ensures { result ≡ host_call_of_called urb }
{
    if let Some(urb) = urb {
        HostCall::Submit(urb)
    } else {
        HostCall::Absent
    }
}

/// What a call does.
pub fn host_call_in(bindings: &[Bound], call: &Call) -> HostCall
    ensures { (s : Scene) → bindings.now ≡ bindings_of s → result ≡ host_call_of s call.now }
{
    let operation = call.operation();
    match call.target {
        Target::Nothing => host_call_by_itself(operation),
        Target::Urb(urb) => host_call_to(operation, urb),
        Target::Role {
            device,
            interface,
            role,
        } => host_call_to_any(
            operation,
            bound_urb(binding_of(bindings, device, interface), role),
        ),
        Target::Interface { device, interface } => host_call_called(called_urb(
            operation,
            binding_of(bindings, device, interface),
        )),
        Target::Anchor(_) | Target::Device(_) => HostCall::Other,
    }
}

/// The pass of a thread: the hub's for the thread `hub`, and else one of its own.
pub fn pass_of_thread(scene: &Scene, thread: u32) -> u32
    requires few { length scene.now.threads ≤ 16 }
    requires there { thread < length scene.now.threads }
    ensures { result ≡ pass_of scene.now thread }
{
    if scene.threads.items()[thread as usize].name.bytes() == b"hub".as_slice() {
        HUB
    } else {
        2 + thread
    }
}

/// Main's pass, after those of the threads.
pub fn main_pass_of(scene: &Scene) -> u32
    requires { length scene.now.threads ≤ 16 }
    ensures { result ≡ main_pass scene.now }
{
    2 + scene.threads.items().len() as u32
}
