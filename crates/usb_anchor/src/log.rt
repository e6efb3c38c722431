//! A log of calls on anchors, row by row.
use usb_types::UrbId;

// The numbers that a row gives the calls.
pub const ADD: u32 = 9;

pub const OFF: u32 = 10;

pub const FIRST: u32 = 11;

pub const KILL_ALL: u32 = 12;

pub const POISON_ALL: u32 = 13;

pub const UNPOISON_ALL: u32 = 14;

pub const UNLINK_ALL: u32 = 15;

pub const SCUTTLE: u32 = 16;

pub const IS_EMPTY: u32 = 17;

/// One call: who made it, which call it was, its anchor and URB, the anchor at which `add` was refused, and its
/// victims, from this place of the log's victims on. `off` has as its anchor the one that the URB was on, `first` as
/// its URB the one that it took. A row of `is_empty` has no victims, and its count is 1 where the answer is true.
#[derive(Clone, Copy, Debug, PartialEq)]
pub struct LogRow {
    pub by: u32,
    pub call: u32,
    pub anchor: Option<u32>,
    pub urb: Option<UrbId>,
    pub busy: Option<u32>,
    pub from: u32,
    pub count: u32,
}

/// All calls, the oldest first, and the victims of all of them.
#[derive(Drop)]
pub struct AnchorLog {
    pub rows: Vec<LogRow>,
    pub victims: Vec<UrbId>,
}

/// Why an URB was not added.
#[derive(Clone, Copy, Debug, PartialEq)]
pub enum AddFault {
    /// It is on this anchor.
    Busy(u32),
}
