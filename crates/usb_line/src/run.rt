//! A run in line order, as far as it has come.

use usb_class::{Core, Owner};
use usb_device::Scripted;
use usb_machine::{Plain, Shape, Transfer};
use usb_trace::{GivebackRow, Received};

/// An URB of a run.
#[derive(Drop)]
pub struct UrbRow {
    /// The number of its endpoint.
    pub home: u32,
    /// The driver that has it, if one has.
    pub owner: Option<Owner>,
    /// How often its handler still submits again.
    pub again: u32,
    /// Where it is queued, its transfer, as it was moved so far.
    pub transfer: Option<Transfer>,
}

/// An endpoint of a run.
#[derive(Drop)]
pub struct EndRow {
    pub shape: Shape,
    pub asleep: bool,
    pub received: Received,
}

/// A run in line order, as far as it has come.
#[derive(Drop)]
pub struct LineRun<'a> {
    pub plain: Plain,
    /// Of each device of the scene, by its number.
    pub devices: Vec<Scripted<'a>>,
    pub ends: Vec<EndRow>,
    pub urbs: Vec<UrbRow>,
    /// Of each binding, by its place, the core of its driver.
    pub cores: Vec<Core>,
    /// What was given back, in order.
    pub given: Vec<GivebackRow>,
    /// Whether the host is down.
    pub down: bool,
}
