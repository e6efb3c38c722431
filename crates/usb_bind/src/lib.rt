//! Which driver has which interface: matching, the URB pool, and the board of bindings.
#![tactic(auto)]

mod board;
mod bound;
mod ends;
mod fault;
pub mod flags;
mod laws;
mod matching;
mod met;
mod needs;
mod plan;
mod pool;
mod row;
mod settings;
mod unions;

pub use board::Board;
pub use bound::Bound;
pub use ends::{packet_size, push_shapes, shape_of_end};
pub use fault::{ClaimFault, ProbeFault};
pub use laws::{
    a_binding_has_its_urbs, a_cancel_undoes_a_probe, a_claim_keeps_urbs_apart,
    a_driver_needs_its_roles, a_held_interface_is_busy, a_probe_keeps_homes_in_the_host,
    a_probe_keeps_urbs_apart, a_refused_probe_changes_nothing, a_union_is_found_among_extras,
    an_address_stands_once, an_endpoint_has_its_place, an_interface_is_found_by_its_number,
    what_a_probe_binds,
};
pub use matching::matches;
pub use needs::read_size;
pub use pool::UrbPool;
pub use row::{Driver, IdRow, profile};
pub use settings::{interface_at, interfaces};
