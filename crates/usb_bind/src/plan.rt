//! What a probe is to bind.
use crate::row::Driver;

/// The driver, its other interface, and the homes of its URBs in order.
#[derive(Clone, Copy)]
pub(crate) struct Plan {
    pub(crate) driver: Driver,
    pub(crate) other: Option<u8>,
    pub(crate) homes: [Option<u32>; 5],
}
