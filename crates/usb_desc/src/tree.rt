//! A configuration as a tree. A `tail` is what a descriptor has past its standard length, and `extras` are the
//! descriptors of other types that follow it, unchanged.
use usb_types::{Buf, List};

/// A configuration.
#[derive(Drop)]
pub struct ConfigTree {
    /// The number of interfaces in the descriptor (`bNumInterfaces`).
    pub said: u8,
    pub value: u8,
    /// The index of its string.
    pub text: u8,
    pub attributes: u8,
    pub power: u8,
    pub tail: Buf,
    pub extras: Buf,
    pub alts: List<Alt>,
}

/// An alternate setting of an interface.
#[derive(Drop)]
pub struct Alt {
    pub number: u8,
    pub setting: u8,
    /// The number of endpoints in the descriptor (`bNumEndpoints`).
    pub said: u8,
    pub class: u8,
    pub subclass: u8,
    pub protocol: u8,
    /// The index of its string.
    pub text: u8,
    pub tail: Buf,
    pub extras: Buf,
    pub ends: List<End>,
}

/// An endpoint.
#[derive(Drop)]
pub struct End {
    pub address: u8,
    pub attributes: u8,
    /// As in the descriptor: the packet size is its low 11 bits.
    pub max_packet: u16,
    pub interval: u8,
    pub tail: Buf,
    pub extras: Buf,
}
