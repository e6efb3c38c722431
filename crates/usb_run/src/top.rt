//! The program as one call.
ghost use Rattle.std.specs.Prelude.{◌≡◌, ◌↔◌, ◌⊎◌, ◌≤◌, ◌<◌, ◌++◌, ℕ, true, false, List, [], IfOk, IfErr, OnOk, OnErr, Some, None, Ok, Err, map, length, string_bytes};
ghost use Rattle.usb_types.specs.Causes.{Rose};
ghost use Rattle.usb_scene.specs.declared.scene.Scene.{Scene};
ghost use Rattle.usb_scene.specs.declared.cause.Cause.{Cause};
ghost use Rattle.usb_scene.specs.Read.{scene_of};
ghost use Rattle.usb_scene.specs.WellFormed.{IsWellFormed};
ghost use Rattle.usb_summary.specs.Summed.{IsSummed};
ghost use Rattle.usb_run.specs.declared.command.Command.{Command};
ghost use Rattle.usb_run.specs.declared.status.Status.{Status};
ghost use Rattle.usb_run.specs.Words.{command_of};
ghost use Rattle.usb_run.specs.Top.{list_of, reads, AddsReport, IsReport, IsSceneText, IsStop, IsTextOf, Ran, RanInPart, ReadsNoScene, ReadsScene};
ghost use Rattle.usb_run.specs.Io.{input_limit, ReadsTooMany};

use crate::command::{Command, SceneCommand, read_command};
use crate::input::{Stop, read_input};
use crate::output::write_output;
use crate::status::Status;
use std::alloc::Global;
use std::sync::Wait;
use std::thread::Threads;
use usb_line::run_line;
use usb_prepare::prepare;
use usb_report::{push_list, push_report};
use usb_scene::{Scene, SceneFault, read_scene};
use usb_summary::summary;
use usb_types::{Buf, Gate, Memory, Sink, Source};

/// Adds the report of the scene's run in line order.
pub fn serial(alloc: Global, scene: &Scene, text: &mut Buf) -> Result<(), Memory>
    requires { IsWellFormed scene.now }
    ensures { OnOk result (AddsReport scene.now text.old text.new) }
{
    let prepared = prepare(alloc, scene)?;
    let outcome = run_line(alloc, scene, prepared)?;
    push_report(text, scene, &outcome)?;
    Ok(())
}

/// Adds the list of what the scene's devices are found to be.
pub fn list(alloc: Global, scene: &Scene, text: &mut Buf) -> Result<(), Memory>
    requires { IsWellFormed scene.now }
    ensures { OnOk result (text.new ≡ text.old ++ list_of scene.now) }
{
    let prepared = prepare(alloc, scene)?;
    push_list(text, scene, prepared.found.items())?;
    Ok(())
}

// Reads a scene.
fn read_input_scene<S: Source>(alloc: Global, input: &mut S) -> Result<Scene, Status>
    ensures later { S.faults input.old ≤ S.faults input.new }
    ensures scene { IfOk result (λ scene. ReadsScene (S.left input.old) (S.left input.new) scene) }
    ensures well_formed { IfOk result (λ scene. IsWellFormed scene) }
    ensures stopped { IfErr result (λ status. IsStop (S.faults input.old) (S.faults input.new) (S.left input.old) (S.left input.new) status) }
{
    let bytes = match read_input(alloc, input) {
        Ok(bytes) => bytes,
        Err(Stop::Failed) => return Err(Status::ReadFault),
        Err(Stop::TooLong) => return Err(Status::TooLong),
        Err(Stop::Memory) => return Err(Status::Memory),
    };
    match read_scene(alloc, bytes.bytes()) {
        Ok(scene) => Ok(scene),
        Err(SceneFault::Bad { line, cause }) => Err(Status::BadScene { line, cause }),
        Err(SceneFault::Memory) => Err(Status::Memory),
    }
}

// Makes what a command prints of a scene.
fn scene_text(alloc: Global, command: SceneCommand, scene: &Scene) -> Result<Buf, Memory>
    requires { IsWellFormed scene.now }
    ensures { IfOk result (λ text. IsSceneText command scene.now text) }
{
    let mut text = Buf::of(Vec::new(alloc));
    match command {
        SceneCommand::Serial => serial(alloc, scene, &mut text)?,
        SceneCommand::List => list(alloc, scene, &mut text)?,
    }
    Ok(text)
}

// Reads a scene, and makes what a command prints of it.
fn text_of_input<S: Source>(
    alloc: Global,
    command: SceneCommand,
    input: &mut S,
) -> Result<Buf, Status>
    ensures later { S.faults input.old ≤ S.faults input.new }
    ensures text { IfOk result (λ text. IsTextOf (Command.Scene command) (S.left input.old) (S.left input.new) text) }
    ensures stopped { IfErr result (λ status. IsStop (S.faults input.old) (S.faults input.new) (S.left input.old) (S.left input.new) status) }
{
    let scene = read_input_scene(alloc, input)?;
    match scene_text(alloc, command, &scene) {
        Ok(text) => Ok(text),
        Err(Memory) => Err(Status::Memory),
    }
}

// Makes the line of a number.
fn number_text(alloc: Global, number: u32) -> Result<Buf, Status>
    ensures text { IfOk result (λ text. IsSummed number [] text) }
    ensures stopped { OnErr result (result ≡ Err Status.Memory) }
{
    let mut text = Buf::of(Vec::new(alloc));
    match summary(alloc, number, &mut text) {
        Ok(()) => Ok(text),
        Err(Memory) => Err(Status::Memory),
    }
}

// Makes what a command prints.
fn text_of<S: Source>(alloc: Global, command: Command, input: &mut S) -> Result<Buf, Status>
    ensures later { S.faults input.old ≤ S.faults input.new }
    ensures text { IfOk result (λ text. IsTextOf command (S.left input.old) (S.left input.new) text) }
    ensures stopped { IfErr result (λ status. IsStop (S.faults input.old) (S.faults input.new) (S.left input.old) (S.left input.new) status) }
    ensures unread { reads command ≡ false → input.new ≡ input.old }
    ensures memory { reads command ≡ false → OnErr result (result ≡ Err Status.Memory) }
{
    match command {
        Command::Scene(command) => text_of_input(alloc, command, input),
        Command::Gen(number) => number_text(alloc, number),
    }
}

/// Writes what the words ask for: the report of the run in line order of the scene that is read, the list of what its devices
/// are found to be, or the line of a number, for which nothing is read.
pub fn usbrun<R: Threads + Wait + Sync, S: Source, K: Sink, G: Gate + Sync>(
    _rt: &R,
    alloc: Global,
    words: &[String],
    input: &mut S,
    out: &mut K,
    _gate: &G,
) -> Status
    // Where a scene was read, it was read to its end, and the whole text was written.
    ensures done { result ≡ Status.Done →
        Ran (map string_bytes words.now) (S.left input.old) (S.left input.new) (K.held out.old) (K.held out.new) }

    // Faults come only where the outside failed in this call.
    ensures read_fault { result ≡ Status.ReadFault → Rose (S.faults input.old) (S.faults input.new) }
    ensures write_fault { result ≡ Status.WriteFault → Rose (K.faults out.old) (K.faults out.new) }
    ensures write_part { result ≡ Status.WriteFault →
        RanInPart (map string_bytes words.now) (S.left input.old) (S.left input.new) (K.held out.old) (K.held out.new) }

    // Words that are not in the grammar are refused before anything is read. For a number nothing is read.
    ensures bad_words { (result ≡ Status.BadWords) ↔ (command_of (map string_bytes words.now) ≡ None) }
    ensures nothing_read { result ≡ Status.BadWords → input.new ≡ input.old }
    ensures number_alone { (command : Command) → command_of (map string_bytes words.now) ≡ Some command → reads command ≡ false →
        input.new ≡ input.old }

    // An input is refused that is no scene, with its first bad line and the first cause against it, or that is too long.
    ensures bad_scene { (line : ℕ) (cause : Cause) → result ≡ Status.BadScene line cause →
        ReadsNoScene (S.left input.old) (S.left input.new) line cause }
    ensures too_long { result ≡ Status.TooLong →
        (bytes : List ℕ) × ReadsTooMany (S.left input.old) (S.left input.new) bytes }

    ensures no_scene { (command : Command) (bytes : List ℕ) (line : ℕ) (cause : Cause) → command_of (map string_bytes words.now) ≡ Some command → reads command ≡ true →
        S.left input.old ≡ Some bytes → length bytes ≤ input_limit → scene_of bytes ≡ Err (line, cause) →
        (result ≡ Status.BadScene line cause) ⊎ (result ≡ Status.ReadFault) ⊎ (result ≡ Status.Memory) }
    ensures longer { (command : Command) (bytes : List ℕ) → command_of (map string_bytes words.now) ≡ Some command → reads command ≡ true →
        S.left input.old ≡ Some bytes → input_limit < length bytes →
        (result ≡ Status.TooLong) ⊎ (result ≡ Status.ReadFault) ⊎ (result ≡ Status.Memory) }

    // A scene between ends that do not fail is run or listed, unless memory runs out, and so is a number's scene.
    ensures complete { (command : Command) (bytes : List ℕ) (scene : Scene) → command_of (map string_bytes words.now) ≡ Some command → reads command ≡ true →
        S.left input.old ≡ Some bytes → length bytes ≤ input_limit → scene_of bytes ≡ Ok scene →
        (Rose (S.faults input.old) (S.faults input.new) → ⊥) → (Rose (K.faults out.old) (K.faults out.new) → ⊥) →
        (result ≡ Status.Done) ⊎ (result ≡ Status.Memory) }
    ensures complete_number { (command : Command) → command_of (map string_bytes words.now) ≡ Some command → reads command ≡ false →
        (Rose (K.faults out.old) (K.faults out.new) → ⊥) →
        (result ≡ Status.Done) ⊎ (result ≡ Status.Memory) }

    // Nothing is written where no text was made.
    ensures nothing_written { (result ≡ Status.Done → ⊥) → (result ≡ Status.WriteFault → ⊥) → out.new ≡ out.old }
    ensures counts { (S.faults input.old ≤ S.faults input.new) × (K.faults out.old ≤ K.faults out.new) }
{
    let Some(command) = read_command(words) else {
        return Status::BadWords;
    };
    let text = match text_of(alloc, command, input) {
        Ok(text) => text,
        Err(status) => return status,
    };
    match write_output(out, text.bytes()) {
        Ok(()) => Status::Done,
        Err(_) => Status::WriteFault,
    }
}
