//! A scene as data.
use usb_types::{Buf, List, Role};
use usb_xfer::DeviceScript;

/// A scene, or as much of one as was read. Numbers of devices, URBs, anchors and threads are places in these lists.
#[derive(Drop)]
pub struct Scene {
    pub version: u32,
    pub devices: List<SceneDevice>,
    pub urbs: List<SceneUrb>,
    /// The names of the anchors.
    pub anchors: List<Buf>,
    pub threads: List<SceneThread>,
}

/// A device with its script.
#[derive(Drop)]
pub struct SceneDevice {
    pub name: Buf,
    pub script: DeviceScript,
}

/// An URB of a raw device's endpoint.
#[derive(Drop)]
pub struct SceneUrb {
    pub name: Buf,
    /// The device's number.
    pub device: u32,
    pub address: u8,
    /// How many zero bytes a submit without data carries.
    pub len: u32,
    /// How often its handler submits the transfer again.
    pub again: u32,
    /// Whether fewer bytes than asked are a fault.
    pub short: bool,
}

/// A thread with its script.
#[derive(Drop)]
pub struct SceneThread {
    pub name: Buf,
    pub calls: List<Call>,
}

/// A call on a line of the scene.
#[derive(Drop)]
pub struct Call {
    pub line: u32,
    /// The call's number in the table of calls.
    pub code: u32,
    pub target: Target,
    pub second: Option<Target>,
    /// The numbers of the line in their order, then zeros.
    pub numbers: [u32; 4],
    pub setup: Option<[u8; 8]>,
    pub bytes: Option<Buf>,
}

/// What a call is made on.
#[derive(Clone, Copy, Debug, PartialEq, Eq, Hash)]
pub enum Target {
    Nothing,
    Urb(u32),
    Role {
        device: u32,
        interface: u8,
        role: Role,
    },
    Interface {
        device: u32,
        interface: u8,
    },
    Anchor(u32),
    Device(u32),
}
