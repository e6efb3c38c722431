//! Enumeration, request by request.
ghost use Rattle.std.specs.Prelude.{◌≡◌, ◌≤◌, ◌<◌, ◌++◌, ◌∷◌, [], List, IsSome, IfErr};
ghost use Rattle.std.specs.Option.{ok_or};
ghost use Rattle.usb_ctrl.specs.Requests.{asks};
ghost use Rattle.usb_ctrl.specs.Enumeration.{Answer, answer, reached, heard, end_of, IsTurn, NamesNoMemory};

use crate::fault::EnumFault;
use crate::replies::heard;
use crate::setup::Setup;
use crate::stage::{Stage, asks};
use std::alloc::Global;
use std::mem;
use usb_desc::{ConfigTree, DeviceDesc};
use usb_types::Code;

/// A device that is enumerated: its address, what it is, and the configuration that it was given.
#[derive(Drop)]
pub struct Attached {
    pub address: u8,
    pub device: DeviceDesc,
    pub config: ConfigTree,
}

/// An enumeration. It stands for the answers to its requests so far.
#[derive(Drop)]
pub struct Enumerator {
    alloc: Global,
    address: u8,
    stage: Stage,
}

impl Enumerator {
    /// Begins with no answer, for the address that the device is to have.
    pub fn new(alloc: Global, address: u8) -> Enumerator
        requires given { 1 ≤ address }
        requires fits { address < 128 }
        ensures address { result.address ≡ address }
        ensures answers { reached address [] ≡ Ok result.stage }
    {
        Enumerator {
            alloc,
            address,
            stage: Stage::Fresh,
        }
    }

    /// The request that comes next, unless it is done or has failed.
    pub fn next(&self) -> Option<Setup>
        ensures { result ≡ asks self.now.address self.now.stage }
    {
        asks(&self.stage, self.address)
    }

    /// Takes the answer to the request that comes next. Where memory ran out the same request may be answered again,
    /// and after another fault nothing comes.
    pub fn answer(&mut self, reply: &[u8], code: Code) -> Result<(), EnumFault>
        requires { IsSome (asks self.old.address self.old.stage) }
        ensures turn { IsTurn (heard self.old.address self.old.stage reply.now code) self.old.stage self.new.stage result }
        ensures answers { (so_far : List Answer)
            → reached self.old.address so_far ≡ Ok self.old.stage
            → IsTurn (reached self.old.address (so_far ++ answer reply.now code ∷ [])) self.old.stage self.new.stage result }
        ensures named { IfErr result NamesNoMemory }
        ensures address { self.new.address ≡ self.old.address }
    {
        let stage = mem::replace(&mut self.stage, Stage::Failed);
        let (after, told) = heard(self.alloc, self.address, stage, reply, code);
        self.stage = after;
        told
    }

    /// The device, where each request was answered well, and else the enumeration as it stands.
    pub fn finish(self) -> Result<Attached, Enumerator>
        ensures { result ≡ ok_or (end_of self.address self.stage) self }
    {
        let Enumerator {
            alloc,
            address,
            stage,
        } = self;
        match stage {
            Stage::Done(device, config) => Ok(Attached {
                address,
                device,
                config,
            }),
            stage => Err(Enumerator {
                alloc,
                address,
                stage,
            }),
        }
    }
}
