//! What the replies of an enumeration say.
ghost use Rattle.std.specs.Prelude.{◌≡◌, ◌≤◌, length, take, IfErr};
ghost use Rattle.usb_ctrl.specs.Enumeration.{begun, described, measured, known, heard, IsEnd, IsTurn, said, asked, NamesNoMemory};

use crate::fault::{EnumFault, fault_of};
use crate::stage::{Stage, asks};
use std::alloc::Global;
use usb_desc::{DescFault, DeviceDesc, read_config, read_device};
use usb_types::{Code, Errno};

const CONFIGURATION: u8 = 2;

fn first_eight(bytes: &[u8]) -> [u8; 8]
    requires { 8 ≤ length bytes.now }
    ensures { result ≡ take 8 bytes.now }
{
    let mut head = [0; 8];
    head.copy_from_slice(&bytes[..8]);
    head
}

fn begun(reply: &[u8]) -> Result<Stage, EnumFault>
    ensures { result ≡ begun reply.now }
{
    let count = reply.len();
    if count != 8 {
        return Err(EnumFault::Descriptor(DescFault::Short(count)));
    }
    Ok(Stage::Begun(first_eight(reply)))
}

#[tactic(auto, using(crate::proofs::Devices::device_is_long))]
fn described(old: [u8; 8], reply: &[u8]) -> Result<Stage, EnumFault>
    ensures { result ≡ described old reply.now }
{
    match read_device(reply) {
        Ok(device) => {
            let new = first_eight(reply);
            if new == old {
                Ok(Stage::Described(device))
            } else {
                Err(EnumFault::Changed { old, new })
            }
        }
        Err(fault) => Err(fault_of(fault)),
    }
}

fn measured(device: DeviceDesc, reply: &[u8]) -> Result<Stage, EnumFault>
    ensures { result ≡ measured device reply.now }
{
    let count = reply.len();
    if count != 9 {
        return Err(EnumFault::Descriptor(DescFault::Short(count)));
    }
    if reply[0] < 9 {
        return Err(EnumFault::Descriptor(DescFault::BadLength(0)));
    }
    if reply[1] != CONFIGURATION {
        return Err(EnumFault::Descriptor(DescFault::BadType(0)));
    }
    let total = u16::from_le_bytes([reply[2], reply[3]]);
    Ok(Stage::Measured(device, total))
}

// The next stage for an answer.
fn turned(next: Result<Stage, EnumFault>) -> (Stage, Result<(), EnumFault>)
    ensures { IsEnd next result.0 result.1 }
{
    match next {
        Ok(stage) => (stage, Ok(())),
        Err(fault) => (Stage::Failed, Err(fault)),
    }
}

// What a configuration yields. Where memory runs out the stage stays.
fn told(
    alloc: Global,
    device: DeviceDesc,
    total: u16,
    reply: &[u8],
) -> (Stage, Result<(), EnumFault>)
    ensures { IsTurn (known device reply.now) (Stage.Measured device total) result.0 result.1 }
{
    match read_config(alloc, reply) {
        Ok(config) => (Stage::Known(device, config), Ok(())),
        Err(DescFault::Memory) => (Stage::Measured(device, total), Err(EnumFault::Memory)),
        Err(fault) => (Stage::Failed, Err(EnumFault::Descriptor(fault))),
    }
}

fn status(stage: &Stage, address: u8, errno: Errno) -> EnumFault
    ensures { result ≡ EnumFault.Status (asked address stage.now) errno }
{
    let request = match asks(stage, address) {
        Some(setup) => setup.request,
        None => 0,
    };
    EnumFault::Status { request, errno }
}

// The next stage for a reply without a fault.
fn said(alloc: Global, stage: Stage, reply: &[u8]) -> (Stage, Result<(), EnumFault>)
    ensures { IsTurn (said stage reply.now) stage result.0 result.1 }
{
    match stage {
        Stage::Fresh => turned(begun(reply)),
        Stage::Begun(head) => (Stage::Addressed(head), Ok(())),
        Stage::Addressed(head) => turned(described(head, reply)),
        Stage::Described(device) => turned(measured(device, reply)),
        Stage::Measured(device, total) => told(alloc, device, total, reply),
        Stage::Known(device, config) => (Stage::Done(device, config), Ok(())),
        Stage::Done(device, config) => (Stage::Done(device, config), Ok(())),
        Stage::Failed => (Stage::Failed, Ok(())),
    }
}

/// The next stage for an answer, and what is reported of it.
pub fn heard(
    alloc: Global,
    address: u8,
    stage: Stage,
    reply: &[u8],
    code: Code,
) -> (Stage, Result<(), EnumFault>)
    ensures turn { IsTurn (heard address stage reply.now code) stage result.0 result.1 }
    ensures named { IfErr result.1 NamesNoMemory }
{
    match code {
        Code::Zero => said(alloc, stage, reply),
        Code::Fault(errno) => {
            let fault = status(&stage, address, errno);
            (Stage::Failed, Err(fault))
        }
    }
}
