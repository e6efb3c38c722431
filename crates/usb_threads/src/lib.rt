//! The threads of a run: what each part promises, the laws that make one run of these promises, and the threads that keep them.
#![tactic(auto)]

mod clock;
mod controller;
mod ending;
mod jobs;
mod laws;
mod opened;
mod scene_host;
mod scripts;
mod whole;
mod worker;

pub use laws::{
    a_run_in_line_order_is_one_of_these, a_script_may_go_on, a_turn_keeps_the_promise,
    a_turn_keeps_what_is_due, promises_make_a_run, replies_stay_due, what_was_sent_stands,
};
pub use opened::Opened;
pub use scene_host::{Left, SceneHost, Turn};
pub use whole::{Run, run_threads};
