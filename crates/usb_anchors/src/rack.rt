//! What the callers of anchors take in turns.

use std::snapshot::Snapshot;
use usb_anchor::{AnchorCore, LogRow, Victims};
use usb_machine::Host;
use usb_turn::Kept;

/// What of anchors is the same in every turn: how many there are, how many URBs, how many calls each caller may make, the
/// host, and the anchors' own pass as it was at first.
#[derive(Drop)]
pub struct Plan<H, P> {
    pub anchors: u32,
    pub urbs: u32,
    pub calls: Snapshot<Vec<u32>>,
    pub host: Snapshot<H>,
    pub first: Snapshot<P>,
}

/// The anchors with a pass of the host, for one caller at a time. `grew` says whether the last call wrote a row, and
/// `raised` has the URBs on which it raised or withdrew rejects.
#[derive(Drop)]
pub struct Rack<H: Host> {
    pub core: AnchorCore,
    pub pass: H::Pass,
    pub raised: Victims,
    pub grew: bool,
    pub plan: Plan<H, H::Pass>,
}

impl<H: Host> Kept for Rack<H> {
    type Row = LogRow;

    type Key = Plan<H, H::Pass>;

    ghost use Rattle.usb_anchors.specs.Rack.{Stands, by_of, newest_of};

    ghost stands = { Stands H.machine H.is_of H.known };

    ghost key = { λ r. r.plan };

    ghost by = { by_of };

    ghost newest = { λ _ r. newest_of r };

    fn rows(&self) -> u64 {
        self.core.count()
    }
}
