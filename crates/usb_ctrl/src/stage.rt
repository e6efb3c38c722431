//! Where an enumeration stands, and what it asks there.
ghost use Rattle.std.specs.Prelude.{◌≡◌};
ghost use Rattle.usb_ctrl.specs.Requests.{asks, get_descriptor, set_address, set_configuration};

use crate::setup::Setup;
use usb_desc::{ConfigTree, DeviceDesc};

const IN: u8 = 0x80;

const SET_ADDRESS: u8 = 5;

const GET_DESCRIPTOR: u8 = 6;

const SET_CONFIGURATION: u8 = 9;

const DEVICE: u16 = 0x0100;

const CONFIGURATION: u16 = 0x0200;

/// What is known of a device so far.
#[derive(Drop)]
pub enum Stage {
    Fresh,
    /// The first eight bytes of its descriptor.
    Begun([u8; 8]),
    /// They are known, and it has its address.
    Addressed([u8; 8]),
    Described(DeviceDesc),
    /// The total length of its configuration too.
    Measured(DeviceDesc, u16),
    Known(DeviceDesc, ConfigTree),
    /// It is configured.
    Done(DeviceDesc, ConfigTree),
    Failed,
}

fn get_descriptor(kind: u16, length: u16) -> Setup
    ensures { result ≡ get_descriptor kind length }
{
    Setup {
        kind: IN,
        request: GET_DESCRIPTOR,
        value: kind,
        index: 0,
        length,
    }
}

fn set_address(address: u8) -> Setup
    ensures { result ≡ set_address address }
{
    Setup {
        kind: 0,
        request: SET_ADDRESS,
        value: address as u16,
        index: 0,
        length: 0,
    }
}

fn set_configuration(value: u8) -> Setup
    ensures { result ≡ set_configuration value }
{
    Setup {
        kind: 0,
        request: SET_CONFIGURATION,
        value: value as u16,
        index: 0,
        length: 0,
    }
}

/// The request that comes next, to give the device its address and to learn what it is.
pub fn asks(stage: &Stage, address: u8) -> Option<Setup>
    ensures { result ≡ asks address stage.now }
{
    match stage {
        Stage::Fresh => Some(get_descriptor(DEVICE, 8)),
        Stage::Begun(_) => Some(set_address(address)),
        Stage::Addressed(_) => Some(get_descriptor(DEVICE, 18)),
        Stage::Described(_) => Some(get_descriptor(CONFIGURATION, 9)),
        Stage::Measured(_, total) => Some(get_descriptor(CONFIGURATION, *total)),
        Stage::Known(_, config) => Some(set_configuration(config.value)),
        Stage::Done(_, _) => None,
        Stage::Failed => None,
    }
}
