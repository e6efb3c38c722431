//! Calls on three anchors and four URBs, each with its answer.

use usb_anchor::{
    ADD, FIRST, IS_EMPTY, KILL_ALL, LogRow, OFF, POISON_ALL, SCUTTLE, UNLINK_ALL, UNPOISON_ALL,
};
use usb_types::UrbId;

// The anchors, by their numbers.
pub const G: u32 = 0;

pub const H: u32 = 1;

pub const K: u32 = 2;

// The URBs, by their numbers.
pub const A: u32 = 0;

pub const B: u32 = 1;

pub const C: u32 = 2;

pub const D: u32 = 3;

/// A call, and what it answers.
#[derive(Clone, Copy)]
pub enum Row {
    /// The URB comes onto this anchor.
    Added(u32, u32),
    /// The URB is to come onto the first anchor, and is on the second one.
    Busy(u32, u32, u32),
    Off(u32, Option<u32>),
    /// The URB was given back.
    Given(u32, Option<u32>),
    First(u32, Option<u32>),
    Kill(u32, &'static [u32]),
    Poison(u32, &'static [u32]),
    /// As `Poison`, with the URBs on which a reject is raised.
    PoisonRaising(u32, &'static [u32], &'static [u32]),
    Unpoison(u32),
    /// As `Unpoison`, with the URBs on which a reject is withdrawn.
    UnpoisonWithdrawing(u32, &'static [u32]),
    Unlink(u32, &'static [u32]),
    Scuttle(u32),
    Empty(u32, bool),
    /// No call: the anchor holds a reject on each of these URBs, and on no other.
    Holds(u32, &'static [u32]),
}

/// The row that the call has in the log, if it has one.
pub fn logged(row: &Row, by: u32, from: u32) -> Option<LogRow> {
    let on = |call: u32, anchor: u32| LogRow {
        by,
        call,
        anchor: Some(anchor),
        urb: None,
        busy: None,
        from,
        count: 0,
    };
    match *row {
        Row::Added(anchor, urb) => Some(with_urb(on(ADD, anchor), Some(urb))),
        Row::Busy(anchor, urb, other) => Some(LogRow {
            busy: Some(other),
            ..with_urb(on(ADD, anchor), Some(urb))
        }),
        Row::Off(urb, anchor) => Some(with_urb(
            LogRow {
                anchor,
                ..on(OFF, 0)
            },
            Some(urb),
        )),
        Row::Given(urb, anchor) => {
            anchor.map(|anchor| with_urb(
                LogRow {
                    by: 2,
                    ..on(OFF, anchor)
                },
                Some(urb),
            ))
        }
        Row::First(anchor, urb) => Some(with_urb(on(FIRST, anchor), urb)),
        Row::Kill(anchor, urbs) => Some(with_count(on(KILL_ALL, anchor), urbs)),
        Row::Poison(anchor, urbs) | Row::PoisonRaising(anchor, urbs, _) => {
            Some(with_count(on(POISON_ALL, anchor), urbs))
        }
        Row::Unpoison(anchor) | Row::UnpoisonWithdrawing(anchor, _) => {
            Some(on(UNPOISON_ALL, anchor))
        }
        Row::Unlink(anchor, urbs) => Some(with_count(on(UNLINK_ALL, anchor), urbs)),
        Row::Scuttle(anchor) => Some(on(SCUTTLE, anchor)),
        Row::Empty(anchor, empty) => Some(LogRow {
            count: u32::from(empty),
            ..on(IS_EMPTY, anchor)
        }),
        Row::Holds(_, _) => None,
    }
}

fn with_urb(row: LogRow, urb: Option<u32>) -> LogRow {
    LogRow {
        urb: urb.map(UrbId),
        ..row
    }
}

fn with_count(row: LogRow, urbs: &[u32]) -> LogRow {
    LogRow {
        count: u32::try_from(urbs.len()).unwrap_or(u32::MAX),
        ..row
    }
}

/// The URBs that the call takes off an anchor, as a whole list.
pub fn victims(row: &Row) -> &'static [u32] {
    match *row {
        Row::Kill(_, urbs) | Row::Poison(_, urbs) | Row::Unlink(_, urbs) => urbs,
        Row::PoisonRaising(_, urbs, _) => urbs,
        _ => &[],
    }
}
