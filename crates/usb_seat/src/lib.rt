//! The seat of a thread at a shared host: a pass of its own, or the hub's token, with the calls of a thread for both.
#![tactic(auto)]

mod closing;
mod dealing;
mod downs;
mod meeting;
mod seats;
mod stops;

pub use closing::{Opened, close, open};
pub use dealing::{Gathered, Seats, deal, gather};
pub use downs::{bring_up, take_down};
pub use meeting::{meet, meet_seat};
pub use seats::{Seat, reject, submit, unlink, withdraw};
pub use stops::{kill, poison, see_quiet};
