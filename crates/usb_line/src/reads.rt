//! Main submits the reads that drivers keep.
ghost use Rattle.std.specs.Prelude.{◌+◌, IfOk};
ghost use Rattle.usb_scene.specs.declared.scene.Scene.{Scene};
ghost use Rattle.usb_line.specs.Line.{begun};
ghost use Rattle.usb_line.specs.Shows.{Shows};
ghost use Rattle.usb_line.specs.Reads.{MayRead, CanRead, MayBegin, CanBegin, read_below};

use crate::run::LineRun;
use std::alloc::Global;
use usb_class::Owner;
use usb_trace::{FIRST, kept_read, numbers};
use usb_types::{Memory, UrbId};

impl LineRun<'_> {
    // Submits the read of an URB, where its endpoint takes it.
    fn submit_read(
        &mut self,
        alloc: Global,
        pass: u32,
        urb: u32,
        owner: Option<Owner>,
        number: u64,
    ) -> Result<(), Memory>
        requires { CanRead self.old pass urb owner number }
        ensures { IfOk result (λ _. (s : Scene) → MayRead s self.old pass urb owner number → Shows s (read_below s (urb + 1)) self.new) }
    {
        let Some(t) = kept_read(alloc, owner, number)? else {
            return Ok(());
        };
        if let Some(_) = self.fault(UrbId(urb), &t) {
            return Ok(());
        }
        self.send(pass, UrbId(urb), t);
        Ok(())
    }

    /// Main submits the drivers' reads, in the order of their URBs.
    pub fn submit_reads(&mut self, alloc: Global, pass: u32) -> Result<(), Memory>
        requires { CanBegin self.old pass }
        ensures { IfOk result (λ _. (s : Scene) → MayBegin s self.old pass → Shows s (begun s) self.new) }
    {
        let mut number = FIRST;
        for urb in 0..self.urb_count() {
            let owner = self.urbs[urb as usize].owner;
            self.submit_read(alloc, pass, urb, owner, number)?;
            number += numbers(owner);
        }
        Ok(())
    }
}
