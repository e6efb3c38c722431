//! The anchors on which the rows of a table are called, by two callers in turn.
ghost use Rattle.std.specs.Prelude.{◌≡◌, ◌<◌, ◌≤◌, length, IfOk};

use crate::tests::row::{Row, logged, victims};
use std::alloc::Global;
use std::process::Abort;
use std::test::Fail;
use usb_anchor::{AddFault, AnchorCore, AnchorLog, Victims};
use usb_types::UrbId;

/// Three anchors and four URBs, with two callers, and room for what a call takes, raises or withdraws.
#[derive(Drop)]
struct Desk {
    core: AnchorCore,
    list: Victims,
    rejects: Victims,
    ghost anchors: { core.anchors ≡ 3 },
    ghost urbs: { core.urbs ≡ 4 },
    ghost callers: { length core.left ≡ 2 },
    ghost list_has_room: { 4 ≤ list.room },
    ghost rejects_have_room: { 4 ≤ rejects.room },
}

impl Desk {
    fn new(alloc: Global) -> Result<Desk, Fail> {
        Ok(Desk {
            core: AnchorCore::new(alloc, 3, 4, &[30, 30])?,
            list: Victims::new(alloc, 4)?,
            rejects: Victims::new(alloc, 4)?,
        })
    }

    /// Makes the row's call, and answers whether its answer is the row's.
    fn agrees(&mut self, by: u32, row: &Row) -> Result<bool, Fail> {
        if by >= 2 || self.core.left(by) == 0 {
            return Err("the caller has no call left".into());
        }
        match *row {
            Row::Added(anchor, urb) => Ok(self.add(by, anchor, urb)?.is_ok()),
            Row::Busy(anchor, urb, other) => {
                Ok(self.add(by, anchor, urb)? == Err(AddFault::Busy(other)))
            }
            Row::Off(urb, anchor) => Ok(self.core.off(by, urb_of(urb)?) == anchor),
            Row::Given(urb, anchor) => Ok(self.core.off_given(urb_of(urb)?) == anchor),
            Row::First(anchor, urb) => {
                Ok(self.core.first(by, anchor_of(anchor)?) == urb.map(UrbId))
            }
            Row::Scuttle(anchor) => {
                self.core.scuttle(by, anchor_of(anchor)?);
                Ok(true)
            }
            Row::Empty(anchor, empty) => Ok(self.core.is_empty(by, anchor_of(anchor)?) == empty),
            Row::Holds(anchor, urbs) => self.holds(anchor, urbs),
            _ => self.takes(by, row),
        }
    }

    /// The same for the calls on a whole list, and those that raise or withdraw rejects.
    fn takes(&mut self, by: u32, row: &Row) -> Result<bool, Fail> {
        if by >= 2 || self.core.left(by) == 0 {
            return Err("the caller has no call left".into());
        }
        match *row {
            Row::Kill(anchor, urbs) => {
                self.core.kill_all(by, anchor_of(anchor)?, &mut self.list);
                Ok(are(self.list.list(), urbs))
            }
            Row::Unlink(anchor, urbs) => {
                self.core.unlink_all(by, anchor_of(anchor)?, &mut self.list);
                Ok(are(self.list.list(), urbs))
            }
            Row::Poison(anchor, urbs) => {
                self.core.poison_all(by, anchor_of(anchor)?, &mut self.list);
                Ok(are(self.list.list(), urbs))
            }
            Row::PoisonRaising(anchor, urbs, raised) => {
                let anchor = anchor_of(anchor)?;
                self.core
                    .poison_all_telling(by, anchor, &mut self.list, &mut self.rejects);
                Ok(are(self.list.list(), urbs) && are(self.rejects.list(), raised))
            }
            Row::Unpoison(anchor) => {
                self.core.unpoison_all(by, anchor_of(anchor)?);
                Ok(true)
            }
            Row::UnpoisonWithdrawing(anchor, withdrawn) => {
                let anchor = anchor_of(anchor)?;
                self.core
                    .unpoison_all_telling(by, anchor, &mut self.rejects);
                Ok(are(self.rejects.list(), withdrawn))
            }
            _ => Err("no call on a whole list".into()),
        }
    }

    fn add(&mut self, by: u32, anchor: u32, urb: u32) -> Result<Result<(), AddFault>, Fail> {
        if by >= 2 || self.core.left(by) == 0 {
            return Err("the caller has no call left".into());
        }
        Ok(self.core.add(by, anchor_of(anchor)?, urb_of(urb)?))
    }

    /// Whether the anchor holds a reject on these URBs, and on no other.
    fn holds(&self, anchor: u32, urbs: &[u32]) -> Result<bool, Fail> {
        let anchor = anchor_of(anchor)?;
        for urb in 0..4u32 {
            if self.core.holds(anchor, UrbId(urb)) != urbs.contains(&urb) {
                return Ok(false);
            }
        }
        Ok(true)
    }

    fn close(self) -> AnchorLog {
        self.core.close()
    }
}

fn anchor_of(anchor: u32) -> Result<u32, Fail>
    ensures { IfOk result (λ a. a < 3) }
{
    if anchor < 3 {
        Ok(anchor)
    } else {
        Err("no anchor of this number".into())
    }
}

fn urb_of(urb: u32) -> Result<UrbId, Fail>
    ensures { IfOk result (λ u. u.0 < 4) }
{
    if urb < 4 {
        Ok(UrbId(urb))
    } else {
        Err("no URB of this number".into())
    }
}

/// Whether the list is these URBs.
fn are(list: &[UrbId], urbs: &[u32]) -> bool {
    list.len() == urbs.len() && list.iter().zip(urbs).all(|(a, b)| a.0 == *b)
}

/// Each call of each sequence has its row's answer, and the log has the rows.
pub fn check<R: Abort + AllocGlobal>(rt: &R, table: &[&[Row]]) -> Result<(), Fail> {
    for (number, rows) in table.iter().enumerate() {
        let mut desk = Desk::new(rt.alloc())?;
        for (at, row) in rows.iter().enumerate() {
            let agrees = desk.agrees(caller(at), row)?;
            assert!(rt; agrees, "sequence {number}, call {at}");
        }
        check_log(rt, number, rows, &desk.close())?;
    }
    Ok(())
}

/// The callers 0 and 1 take turns.
fn caller(at: usize) -> u32 {
    if at % 2 == 0 { 0 } else { 1 }
}

/// The log has a row for each call, and its victims.
fn check_log<R: Abort + AllocGlobal>(
    rt: &R,
    number: usize,
    rows: &[Row],
    log: &AnchorLog,
) -> Result<(), Fail> {
    let mut wanted = Vec::new(rt.alloc());
    let mut taken = Vec::new(rt.alloc());
    for (at, row) in rows.iter().enumerate() {
        let from = u32::try_from(taken.len()).unwrap_or(u32::MAX);
        if let Some(row) = logged(row, caller(at), from) {
            wanted.push(row)?;
        }
        for urb in victims(row) {
            taken.push(*urb)?;
        }
    }
    assert_eq!(rt; log.rows.len(), wanted.len(), "sequence {number}");
    for (at, (row, wanted)) in log.rows.iter().zip(&wanted).enumerate() {
        assert_eq!(rt; *row, *wanted, "sequence {number}, row {at} of the log");
    }
    assert!(rt; are(&log.victims, &taken), "sequence {number}");
    Ok(())
}
