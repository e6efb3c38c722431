//! What the making of a host gives.
use std::alloc::Global;

/// What `new` of a host makes.
#[derive(Drop)]
pub struct Parts<H, S, U, P> {
    pub host: H,
    pub server: S,
    pub hub: U,
    /// The passes from number 2 on, in order.
    pub passes: Vec<P>,
}
