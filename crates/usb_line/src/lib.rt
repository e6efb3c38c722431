//! The run of a scene in line order: what line order adds to a run, its laws, and the code that makes it.
#![tactic(auto)]

mod close;
mod down;
mod every;
mod giveback;
mod laws;
mod line;
mod make;
mod prepare;
mod reads;
mod run;
mod steps;
mod stop;
mod submit;
mod take;
mod turn;
mod unlinked;
mod urb_calls;
mod wait;
mod wake;

pub use laws::{
    a_run_in_line_order_finds_the_host_as_it_was_left, a_run_in_line_order_is_a_run,
    a_scene_has_one_run_in_line_order,
};
pub use line::run_line;
