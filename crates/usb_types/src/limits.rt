//! The limits of a scene: the most of each that may stand in it.

/// Devices of a scene.
pub const MOST_DEVICES: usize = 16;

/// URBs of a scene, and of a host: the scene's and those of drivers.
pub const MOST_URBS: usize = 256;

/// Threads of a scene.
pub const MOST_THREADS: usize = 16;

/// Replies of all devices, after repeats.
pub const MOST_REPLIES: u32 = 65_536;

/// Calls of all scripts.
pub const MOST_CALLS: u32 = 4_096;

/// How often one item is repeated.
pub const MOST_TIMES: u32 = 4_096;

/// Rejects of one script on one URB.
pub const MOST_REJECTS: u32 = 100;

/// How often a handler submits again.
pub const MOST_AGAIN: u32 = 63;

/// Bytes of a buffer.
pub const MOST_BUFFER: u32 = 16_384;

/// Bytes of a packet.
pub const MOST_PACKET: u32 = 1_024;

/// The interval of an endpoint.
pub const MOST_INTERVAL: u32 = 255;

/// The number of an interface.
pub const MOST_INTERFACE: u32 = 255;

/// Bytes of a device descriptor that a device is given.
pub const MOST_DESC: usize = 255;

/// Bytes of its configuration.
pub const MOST_CONFIG: usize = 65_535;

/// Bytes of a printer's id.
pub const MOST_ID: usize = 65_535;

/// Bytes of data that are kept of a line: one above the most that any line may have.
pub const MOST_KEPT: usize = 65_536;

/// Milliseconds of a break (PSTN 1.2 §6.3.13).
pub const MOST_BREAK: u32 = 65_535;
