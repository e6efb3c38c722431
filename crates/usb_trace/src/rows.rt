//! What a run leaves for its report.

use crate::received::EndReceived;
use usb_bind::Board;
use usb_class::Told;
use usb_prepare::Found;
use usb_scene::{Operation, Target};
use usb_types::{Buf, Code, List};

/// What a call of a scene does. URBs are named by their numbers.
#[derive(Clone, Copy)]
pub enum HostCall {
    Submit(u32),
    Unlink(u32),
    Kill(u32),
    Poison(u32),
    Unpoison(u32),
    Block(u32),
    Unblock(u32),
    /// Lets the controller make turns until one gives nothing back.
    Serve,
    Down,
    Up,
    /// A call on an URB that no driver has.
    Absent,
    /// A call that is not built yet.
    Other,
}

/// What a call answers.
#[derive(Clone, Copy)]
pub enum CallAnswer {
    Nothing,
    Done,
    Code(Code),
    /// The number of the transfer that rested, if one did.
    Buffer(Option<u64>),
}

/// A call that was made, with its answer.
#[derive(Clone, Copy)]
pub struct CallMade {
    /// The thread's number in the scene.
    pub thread: u32,
    pub line: u32,
    /// What it asked for.
    pub operation: Operation,
    /// What it was made on, as the scene names it.
    pub target: Target,
    pub answer: CallAnswer,
}

/// What a completion handler did with the transfer.
#[derive(Clone, Copy)]
pub enum Outcome {
    Rest,
    /// It submitted the transfer again, with this answer.
    Again(Code),
    /// It rested the transfer, and asked the question of its driver, with this answer.
    Asked(Code),
}

/// What a Give gave back, as the report prints it.
#[derive(Drop)]
pub struct GivebackRow {
    /// The URB's number.
    pub urb: u32,
    pub status: Code,
    /// How many bytes were moved.
    pub actual: u32,
    pub outcome: Outcome,
    /// The moved bytes of an IN transfer.
    pub bytes: Buf,
}

/// What a run leaves for its report.
#[derive(Drop)]
pub struct RunOutcome {
    /// What each device is found to be.
    pub found: List<Found>,
    /// Which driver has which interface.
    pub board: Board,
    pub made: List<CallMade>,
    pub given: List<GivebackRow>,
    /// Of each binding, by its place, what its driver reports.
    pub told: List<Told>,
    /// Of each endpoint, by its number.
    pub ends: List<EndReceived>,
}
