//! The threads of a report, with their calls and what these answered.
ghost use Rattle.std.specs.Prelude.{◌≡◌, ◌<◌, ◌^◌, ◌++◌, [], ◌∷◌, OnOk, length, codes, decimal};
ghost use Rattle.std.specs.List.{flat_map};
ghost use Rattle.usb_report.specs.Names.{device_name};
ghost use Rattle.usb_report.specs.Calls.{target_text, buffer_text, answer_text, call_text, is_told, made_text, made_by, thread_text, threads_text};

use crate::names::{push_device, push_own_urb, push_role};
use usb_scene::{Scene, SceneThread, Target};
use usb_text::push_number;
use usb_trace::{CallAnswer, CallMade};
use usb_types::{Buf, Memory};

// The name of a device and the number of its interface, each with the space after it.
fn push_interface(report: &mut Buf, scene: &Scene, device: u32, interface: u8) -> Result<(), Memory>
    ensures { OnOk result (report.new ≡ report.old ++ (device_name scene.now device ++ codes " " ++ decimal interface ++ codes " ")) }
{
    push_device(report, scene, device)?;
    report.append(b" ")?;
    push_number(report, interface as u64)?;
    report.append(b" ")
}

fn push_target(report: &mut Buf, scene: &Scene, target: Target) -> Result<(), Memory>
    ensures { OnOk result (report.new ≡ report.old ++ target_text scene.now target) }
{
    match target {
        Target::Urb(urb) => {
            push_own_urb(report, scene, urb)?;
            report.append(b" ")
        }
        Target::Role {
            device,
            interface,
            role,
        } => {
            push_role(report, scene, device, interface, role)?;
            report.append(b" ")
        }
        Target::Interface { device, interface } => push_interface(report, scene, device, interface),
        Target::Nothing | Target::Anchor(_) | Target::Device(_) => Ok(()),
    }
}

// The words of a call's line up to its answer, each with the space after it.
fn push_call(report: &mut Buf, scene: &Scene, made: &CallMade) -> Result<(), Memory>
    ensures { OnOk result (report.new ≡ report.old ++ call_text scene.now made.now) }
{
    push_number(report, made.line as u64)?;
    report.append(b" ")?;
    report.append(made.operation.word().as_bytes())?;
    report.append(b" ")?;
    push_target(report, scene, made.target)
}

fn push_buffer(report: &mut Buf, number: Option<u64>) -> Result<(), Memory>
    ensures { OnOk result (report.new ≡ report.old ++ buffer_text number) }
{
    match number {
        Some(number) => {
            report.append(b"buffer ")?;
            push_number(report, number)
        }
        None => report.append(b"none"),
    }
}

fn push_answer(report: &mut Buf, answer: CallAnswer) -> Result<(), Memory>
    ensures { OnOk result (report.new ≡ report.old ++ answer_text answer) }
{
    match answer {
        CallAnswer::Nothing => Ok(()),
        CallAnswer::Done => report.append(b"ok"),
        CallAnswer::Code(code) => report.append(code.text().as_bytes()),
        CallAnswer::Buffer(number) => push_buffer(report, number),
    }
}

fn is_told(answer: CallAnswer) -> bool
    ensures { result ≡ is_told answer }
{
    match answer {
        CallAnswer::Nothing => false,
        CallAnswer::Done | CallAnswer::Code(_) | CallAnswer::Buffer(_) => true,
    }
}

fn push_made(report: &mut Buf, scene: &Scene, made: &CallMade) -> Result<(), Memory>
    ensures { OnOk result (report.new ≡ report.old ++ made_text scene.now made.now) }
{
    if !is_told(made.answer) {
        return Ok(());
    }
    push_call(report, scene, made)?;
    push_answer(report, made.answer)?;
    report.append(b"\n")
}

// The line of a call, where the thread made it.
fn push_made_by(report: &mut Buf, scene: &Scene, made: &CallMade, thread: u32) -> Result<(), Memory>
    ensures { OnOk result (report.new ≡ report.old ++ flat_map (made_text scene.now) (made_by thread (made.now ∷ []))) }
{
    if made.thread == thread {
        push_made(report, scene, made)
    } else {
        Ok(())
    }
}

// The lines of a thread's calls.
fn push_calls(report: &mut Buf, scene: &Scene, made: &[CallMade], thread: u32) -> Result<(), Memory>
    ensures { OnOk result (report.new ≡ report.old ++ flat_map (made_text scene.now) (made_by thread made.now)) }
{
    for m in made {
        push_made_by(report, scene, m, thread)?;
    }
    Ok(())
}

fn push_thread(
    report: &mut Buf,
    scene: &Scene,
    made: &[CallMade],
    number: u32,
    thread: &SceneThread,
) -> Result<(), Memory>
    ensures { OnOk result (report.new ≡ report.old ++ thread_text scene.now made.now number thread.now) }
{
    report.append(b"thread ")?;
    report.append(thread.name.bytes())?;
    report.append(b"\n")?;
    push_calls(report, scene, made, number)
}

/// Adds the threads, in scene order.
pub(crate) fn push_threads(report: &mut Buf, scene: &Scene, made: &[CallMade]) -> Result<(), Memory>
    requires { length scene.now.threads < 2 ^ 32 }
    ensures { OnOk result (report.new ≡ report.old ++ threads_text scene.now made.now) }
{
    let mut number: u32 = 0;
    for thread in scene.threads.items() {
        push_thread(report, scene, made, number, thread)?;
        number += 1;
    }
    Ok(())
}
