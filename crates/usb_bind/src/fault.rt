//! Why an interface isn't bound.
use crate::row::Driver;

/// Why a driver does not get the interface that it claims.
#[derive(Clone, Copy)]
pub enum ClaimFault {
    /// This driver has it.
    Busy(Driver),
    /// There is no such interface.
    Missing,
}

/// Why a probe does not bind an interface: the first of these that holds.
#[derive(Clone, Copy)]
pub enum ProbeFault {
    /// This driver has it.
    Busy(Driver),
    /// No row matches.
    NoDriver,
    /// The driver lacks an endpoint, or the other interface.
    NoEnds,
    /// This driver has the other interface.
    OtherBusy(Driver),
    /// The driver needs more URBs than are spare.
    Full { need: u32, spare: u32 },
}
