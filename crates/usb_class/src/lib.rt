//! The cores of the class drivers as one type: each completion is dispatched to the bound driver.
#![tactic(auto)]

mod class_core;
mod decide;
mod handler;
mod handlers;
mod interface_ops;
mod owner;
mod roles;

pub use class_core::{Core, Told};
pub use handler::{goes_again, with_window};
pub use handlers::{Asker, HandledUrb, Handlers};
pub use interface_ops::{copied, payload_for, setup_for, urb_for, window_for};
pub use owner::Owner;
pub use roles::{has_number, kept_size, role_of};
